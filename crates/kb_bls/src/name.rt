// The names of entries' files.
ghost use Rattle.std.specs.Prelude.{◌≡◌, IfOk, IfSome, IsSome, MatchOption, ◌↔◌, List, ℕ, codes};
ghost use Rattle.std.specs.List.{list_all};
ghost use Rattle.std.specs.Char.{is_ascii_digit};
ghost use Rattle.kb_world.specs.Names.{is_one_of};
ghost use Rattle.kb_bls.specs.Names.{IsEntryName, IsEntryBase, IsCountable, is_count, has_name_bytes, name_of};
ghost use Rattle.kb_bls.specs.Reading as spec;

use kb_world::Text;
use std::alloc::{AllocError, Global};

// The most digits of a number in a name.
const MOST_DIGITS: usize = 9;

// The greatest number that a name can hold.
const GREATEST: u32 = 999_999_999;

/// What an entry's name says of its tries.
#[derive(Clone, Copy, Debug, PartialEq, Eq)]
pub enum Counter {
    /// Nothing: the entry was booted, or tries aren't counted.
    Good,
    /// How many tries are left, and how many were made without success.
    Left { left: u32, done: u32 },
}

impl Counter {
    ghost use Rattle.kb_bls.specs.Names.{IsTriedOnce, CanBeTried};

    /// The counter after one try more. There is none where tries aren't counted, none is left, or
    /// as many were made as a name can hold.
    pub fn tried(&self) -> Option<Counter>
        ensures there { IsSome result ↔ CanBeTried self.now }
        ensures once { IfSome result (IsTriedOnce self.now) }
    {
        match *self {
            Counter::Left { left, done } if left > 0 && done < GREATEST => Some(Counter::Left {
                left: left - 1,
                done: done + 1,
            }),
            _ => None,
        }
    }
}

/// The name of an entry's file: the base, `+LEFT` or `+LEFT-DONE` where tries are counted, and
/// `.conf`.
pub fn entry_name(alloc: Global, base: &str, counter: &Counter) -> Result<Text, AllocError>
    requires base { IsEntryBase base.now counter.now }
    requires countable { IsCountable counter.now }
    ensures name { IfOk result (λ name. name ≡ name_of base.now counter.now) }
    ensures read_back { IfOk result (λ name. IsEntryName name base.now counter.now) }
{
    let name = match *counter {
        Counter::Good => format!(in alloc; "{base}.conf")?,
        Counter::Left { left, done: 0 } => format!(in alloc; "{base}+{left}.conf")?,
        Counter::Left { left, done } => format!(in alloc; "{base}+{left}-{done}.conf")?,
    };
    Ok(Text::from_string(name))
}

fn has_only_digits(bytes: &[u8]) -> bool
    ensures { result ≡ list_all is_ascii_digit bytes.now }
{
    bytes.iter().all(|c| c.is_ascii_digit())
}

fn is_number(text: &str) -> bool
    ensures { result ≡ is_count text.now }
{
    let bytes = text.as_bytes();
    !bytes.is_empty() && bytes.len() <= MOST_DIGITS && has_only_digits(bytes)
}

// The number of one to nine digits.
fn number_of(text: &str) -> Option<u32>
    ensures { result ≡ spec.count_in text.now }
{
    if is_number(text) {
        text.parse().ok()
    } else {
        None
    }
}

fn left_with(left: Option<u32>, done: Option<u32>) -> Option<Counter>
    ensures { result ≡ spec.left_with left done }
{
    match (left, done) {
        (Some(left), Some(done)) => Some(Counter::Left { left, done }),
        _ => None,
    }
}

// The counter that stands behind the plus sign.
fn counter_of(text: &str) -> Option<Counter>
    ensures { result ≡ spec.counter_in text.now }
{
    match text.split_once('-') {
        Some((left, done)) => left_with(number_of(left), number_of(done)),
        None => left_with(number_of(text), Some(0)),
    }
}

// The base and the counter, where the stem of a name ends in a counter.
fn counted(stem: &str) -> Option<(&str, Counter)>
    ensures { MatchOption result (spec.counted stem.now ≡ None) (λ read. spec.counted stem.now ≡ Some (read.0.now, read.1)) }
{
    let (base, tries) = stem.rsplit_once('+')?;
    Some((base, counter_of(tries)?))
}

fn is_name_byte(c: u8) -> bool
    ensures { result ≡ is_one_of (codes "+-_.") c }
{
    c.is_ascii_alphanumeric() || matches!(c, b'+' | b'-' | b'_' | b'.')
}

fn has_name_bytes(text: &str) -> bool
    ensures { result ≡ has_name_bytes text.now }
{
    text.as_bytes().iter().all(|c| is_name_byte(*c))
}

// The base and the counter of a name without its ending `.conf`.
fn read_stem(stem: &str) -> Option<(&str, Counter)>
    ensures { MatchOption result (spec.stem_reading stem.now ≡ None) (λ read. spec.stem_reading stem.now ≡ Some (read.0.now, read.1)) }
{
    let (base, counter) = counted(stem).unwrap_or((stem, Counter::Good));
    if has_name_bytes(stem) && !base.is_empty() {
        Some((base, counter))
    } else {
        None
    }
}

/// The base and the counter of an entry's file, where the name is one: it ends in `.conf`, has no
/// characters but ASCII letters, digits and `+ - _ .`, and its base isn't empty. What ends in a `+`
/// and numbers of one to nine digits has that counter, and is its base without it.
pub fn read_entry_name(name: &str) -> Option<(&str, Counter)>
    ensures reading { MatchOption result (spec.name_reading name.now ≡ None) (λ read. spec.name_reading name.now ≡ Some (read.0.now, read.1)) }
    ensures name { MatchOption result ((base : List ℕ) (counter : Counter) → ¬ IsEntryName name.now base counter) (λ read. IsEntryName name.now read.0.now read.1) }
{
    let stem = name.strip_suffix(".conf")?;
    read_stem(stem)
}
