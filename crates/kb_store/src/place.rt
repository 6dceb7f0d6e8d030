// Places of modules, as lists of names below a kernel's directory.
ghost use Rattle.std.specs.Prelude.{◌≡◌, ◌++◌, List, ℕ, MatchOption, map, codes};
ghost use Rattle.std.specs.List.{list_all};
ghost use Rattle.kb_world.specs.Names.{is_word};
ghost use Rattle.kb_world.specs.Targets as rule;

use kb_world::{RelPath, Sequence, is_word};

/// A list of paths below some directory.
pub type Places = Sequence<RelPath>;

// What stands before the ending of a module's file.
fn module_of(name: &str) -> Option<&str>
    ensures { MatchOption result ((front : List ℕ) → name.now ≡ front ++ codes ".ko" → ⊥) (λ front. name.now ≡ front.now ++ codes ".ko") }
{
    name.strip_suffix(".ko")
}

fn is_module_file(name: &str) -> bool
    ensures { result ≡ rule.is_module_file name.now }
{
    match module_of(name) {
        Some(front) => is_word(front),
        None => false,
    }
}

fn is_area(name: &str) -> bool
    ensures { result ≡ rule.is_area name.now }
{
    name == "kernel" || name == "updates" || name == "extra"
}

fn are_all_words(names: &[&str]) -> bool
    ensures { result ≡ list_all (λ name. is_word name.now) names.now }
{
    names.iter().all(|name| is_word(name))
}

// Whether the names are words, and last a module's file.
fn leads_to_module(names: &[&str]) -> bool
    ensures { result ≡ rule.leads_to_module (map (λ name. name.now) names.now) }
{
    match names {
        [] => false,
        [front @ .., last] => are_all_words(front) && is_module_file(last),
    }
}

/// Whether the names are those of a place that a module can be put at.
pub fn is_place(names: &[&str]) -> bool
    ensures { result ≡ rule.is_place (map (λ name. name.now) names.now) }
{
    match names {
        [] => false,
        [area, rest @ ..] => is_area(area) && leads_to_module(rest),
    }
}

/// The last name; none where there is no name.
pub fn last_name(place: &RelPath) -> &str
    ensures { result.now ≡ rule.last_name place.now }
{
    match place.names().last() {
        Some(name) => name.as_str(),
        None => "",
    }
}

fn is_apart(a: &RelPath, b: &RelPath) -> bool
    ensures { result ≡ rule.can_share a.now b.now }
{
    last_name(a) != last_name(b)
        && !a.names().starts_with(b.names())
        && !b.names().starts_with(a.names())
}

// Whether the place can stand beside each of these.
fn can_join(place: &RelPath, others: &[RelPath]) -> bool
    ensures { result ≡ list_all (rule.can_share place.now) others.now }
{
    others.iter().all(|other| is_apart(place, other))
}

/// Whether no two places have one last name, and none is above another.
pub fn can_all_share(places: &[RelPath]) -> bool
    ensures { result ≡ rule.can_all_share places.now }
{
    match places {
        [] => true,
        [place, rest @ ..] => can_join(place, rest) && can_all_share(rest),
    }
}
