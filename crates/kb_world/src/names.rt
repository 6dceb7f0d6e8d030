// The rules on names. Each test takes no memory.
ghost use Rattle.std.specs.Prelude.{◌≡◌, ◌&&◌, not, nat_eq, codes};
ghost use Rattle.std.specs.List.{list_all};
ghost use Rattle.std.specs.Str.{byte};
ghost use Rattle.kb_world.specs.Names as rule;

// The longest module, version, kernel or boot word, in bytes.
const LONGEST_WORD: usize = 120;

fn has_only_name_bytes(bytes: &[u8]) -> bool
    ensures { result ≡ list_all (λ c. not (nat_eq c (byte "/")) && not (nat_eq c 0)) bytes.now }
{
    bytes.iter().all(|&c| c != b'/' && c != 0)
}

/// Whether the text can name an entry of a directory: 1 to 255 bytes, no `/`, no NUL, not `.` or `..`.
pub fn is_name(text: &str) -> bool
    ensures { result ≡ rule.is_name text.now }
{
    let bytes = text.as_bytes();
    !bytes.is_empty()
        && bytes.len() <= 255
        && has_only_name_bytes(bytes)
        && text != "."
        && text != ".."
}

fn begins_alphanumeric(bytes: &[u8]) -> bool
    ensures { result ≡ rule.begins_alphanumeric bytes.now }
{
    match bytes {
        [] => false,
        [first, ..] => first.is_ascii_alphanumeric(),
    }
}

fn is_word_byte(c: u8) -> bool
    ensures { result ≡ rule.is_one_of (codes "._+-~^:") c }
{
    c.is_ascii_alphanumeric() || matches!(c, b'.' | b'_' | b'+' | b'-' | b'~' | b'^' | b':')
}

fn has_only_word_bytes(bytes: &[u8]) -> bool
    ensures { result ≡ list_all (rule.is_one_of (codes "._+-~^:")) bytes.now }
{
    bytes.iter().all(|&c| is_word_byte(c))
}

/// Whether the text can name a module package, or a module's file without its ending: 1 to 120 bytes, ASCII
/// letters, digits and `. _ + - ~ ^ :`, the first a letter or digit.
pub fn is_word(text: &str) -> bool
    ensures { result ≡ rule.is_word text.now }
{
    let bytes = text.as_bytes();
    bytes.len() <= LONGEST_WORD && begins_alphanumeric(bytes) && has_only_word_bytes(bytes)
}

/// Whether the text can be a package's version: a word that isn't `original_module` and doesn't begin with
/// `kernel-`, since entries of these names stand beside the versions.
pub fn is_version(text: &str) -> bool
    ensures { result ≡ rule.is_version text.now }
{
    is_word(text) && text != "original_module" && !text.as_bytes().starts_with(b"kernel-")
}

/// Whether the text can name a kernel: a word that isn't `build` or `source`, which name links beside it.
pub fn is_kernel(text: &str) -> bool
    ensures { result ≡ rule.is_kernel text.now }
{
    is_word(text) && text != "build" && text != "source"
}

fn has_only_arch_bytes(bytes: &[u8]) -> bool
    ensures { result ≡ list_all (rule.is_one_of (codes "_")) bytes.now }
{
    bytes
        .iter()
        .all(|&c| c.is_ascii_alphanumeric() || c == b'_')
}

/// Whether the text can name an architecture, as `uname -m` prints it: 1 to 32 ASCII letters, digits and `_`.
pub fn is_arch(text: &str) -> bool
    ensures { result ≡ rule.is_arch text.now }
{
    let bytes = text.as_bytes();
    !bytes.is_empty() && bytes.len() <= 32 && has_only_arch_bytes(bytes)
}

fn is_boot_byte(c: u8) -> bool
    ensures { result ≡ rule.is_one_of (codes "+-_.") c }
{
    c.is_ascii_alphanumeric() || matches!(c, b'+' | b'-' | b'_' | b'.')
}

fn has_only_boot_bytes(bytes: &[u8]) -> bool
    ensures { result ≡ list_all (rule.is_one_of (codes "+-_.")) bytes.now }
{
    bytes.iter().all(|&c| is_boot_byte(c))
}

/// Whether the text can be part of an entry's file name on the boot partition: 1 to 120 bytes, ASCII letters,
/// digits and `+ - _ .`, the first a letter or digit.
pub fn is_boot_word(text: &str) -> bool
    ensures { result ≡ rule.is_boot_word text.now }
{
    let bytes = text.as_bytes();
    bytes.len() <= LONGEST_WORD && begins_alphanumeric(bytes) && has_only_boot_bytes(bytes)
}
