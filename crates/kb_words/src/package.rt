// What names a package or a spot in one word.
ghost use Rattle.std.specs.Prelude.{◌≡◌, true, false, Some, None, MatchOption};
ghost use Rattle.kb_words.specs.Words as spec;
ghost use Rattle.kb_words.specs.Reading.{package_split, spot_split};

fn has_slash(text: &str) -> bool
    ensures { result ≡ spec.has_slash text.now }
{
    text.as_bytes().iter().any(|c| *c == b'/')
}

fn begins_with_dash(text: &str) -> bool
    ensures { result ≡ spec.begins_with_dash text.now }
{
    match text.as_bytes() {
        [] => false,
        [first, ..] => *first == b'-',
    }
}

fn is_nonempty(text: &str) -> bool
    ensures { result ≡ spec.is_nonempty text.now }
{
    !text.is_empty()
}

/// The module and the version that the word names, where it names a package.
pub fn split_package(word: &str) -> Option<(&str, &str)>
    ensures { MatchOption result (package_split word.now ≡ None)
        (λ names. package_split word.now
        ≡ Some (record { «module» = names.0.now; version = names.1.now })) }
{
    let (module, version) = word.split_once('/')?;
    let named = !begins_with_dash(module) && is_nonempty(module) && is_nonempty(version);
    if named && !has_slash(version) {
        Some((module, version))
    } else {
        None
    }
}

/// Whether the word can name a module alone.
pub fn is_bare_module(word: &str) -> bool
    ensures { result ≡ spec.is_bare_module word.now }
{
    is_nonempty(word) && !begins_with_dash(word) && !has_slash(word)
}

/// The kernel and the architecture that the word names, where it names both.
pub fn split_spot(word: &str) -> Option<(&str, &str)>
    ensures { MatchOption result (spec.has_slash word.now ≡ false)
        (λ names. (spec.has_slash word.now ≡ true)
        × (spot_split word.now ≡ record { kernel = names.0.now; arch = names.1.now })) }
{
    word.split_once('/')
}
