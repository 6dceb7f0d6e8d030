// The file `targets`: it is read and written.
ghost use Rattle.std.specs.Prelude.{◌&&◌, cond, bytes_eq, Some, ◌≡◌, ◌∷◌, flat_map, ◌++◌, ◌==◌, List, ℕ, false, IfOk, OnOk, IfSome, IfNone, map, None, IsTrue};
ghost use Rattle.std.specs.List.{slice_split, list_all, join_with_byte};
ghost use Rattle.kb_world.specs.Path.{IsPath};
ghost use Rattle.kb_world.specs.Refusal.{LINE_FEED};
ghost use Rattle.kb_world.specs.Targets as rule;
ghost use Rattle.kb_store.specs.Reading.{place_if};

use crate::place::{Places, can_all_share, is_place};
use kb_world::{RelPath, Sequence, Text};
use std::alloc::{AllocError, Global};
use std::str;

// The most modules that a build may have.
const MOST_TARGETS: usize = 256;

fn parts_at_slashes(alloc: Global, line: &str) -> Result<Vec<&str>, AllocError>
    ensures { IfOk result (λ parts. map (λ part. part.now) parts.items ≡ slice_split (λ c. c == rule.SLASH) line.now) }
{
    line.split('/').collect(alloc)
}

fn parts_at_line_feeds(alloc: Global, text: &str) -> Result<Vec<&str>, AllocError>
    ensures { IfOk result (λ parts. map (λ part. part.now) parts.items ≡ slice_split (λ c. c == LINE_FEED) text.now) }
{
    text.split('\n').collect(alloc)
}

fn texts_of(alloc: Global, parts: &[&str]) -> Result<Vec<Text>, AllocError>
    ensures { IfOk result (λ texts. texts.items ≡ map (λ part. part.now) parts.now) }
{
    let mut texts = Vec::new(alloc);
    for part in parts {
        texts.push(Text::of(alloc, part)?)?;
    }
    Ok(texts)
}

// The place that a line gives, if it gives one.
fn read_place(alloc: Global, line: &str) -> Result<Option<RelPath>, AllocError>
    ensures { IfOk result (λ place. place ≡ place_if (slice_split (λ c. c == rule.SLASH) line.now)) }
{
    let parts = parts_at_slashes(alloc, line)?;
    if !is_place(&parts) {
        return Ok(None);
    }
    Ok(Some(RelPath::new(texts_of(alloc, &parts)?)))
}

// The lines between the first and the last.
fn inner<'a, 'b>(lines: &'a [&'b str]) -> &'a [&'b str]
    ensures { map (λ line. line.now) result.now ≡ rule.inner (map (λ line. line.now) lines.now) }
{
    match lines {
        [_, inner @ .., _] => inner,
        _ => &lines[..0],
    }
}

// The places that the lines give; none where one gives none.
fn read_places(alloc: Global, lines: &[&str]) -> Result<Option<Vec<RelPath>>, AllocError>
    ensures told { IfOk result (λ told. IfSome told (λ places. places.items ≡ map (slice_split (λ c. c == rule.SLASH)) (map (λ line. line.now) lines.now))) }
    ensures placed { IfOk result (λ told. IfSome told (λ places. IsTrue (list_all rule.is_place places.items))) }
    ensures unplaced { IfOk result (λ told. IfNone told (list_all rule.is_place (map (slice_split (λ c. c == rule.SLASH)) (map (λ line. line.now) lines.now)) ≡ false)) }
{
    let mut places = Vec::new(alloc);
    for line in lines {
        match read_place(alloc, line)? {
            Some(place) => places.push(place)?,
            None => return Ok(None),
        }
    }
    Ok(Some(places))
}

// Adds the names, with a slash before each.
fn push_slashed(text: &mut Text, names: &[Text]) -> Result<(), AllocError>
    ensures { OnOk result (text.new ≡ text.old ++ flat_map (λ name. rule.SLASH ∷ name) names.now) }
{
    for name in names {
        text.push_str("/")?;
        text.push_str(name.as_str())?;
    }
    Ok(())
}

// Adds the names, with a slash between each two.
fn push_joined(text: &mut Text, names: &[Text]) -> Result<(), AllocError>
    ensures { OnOk result (text.new ≡ text.old ++ join_with_byte rule.SLASH names.now) }
{
    match names {
        [] => Ok(()),
        [first, rest @ ..] => {
            text.push_str(first.as_str())?;
            push_slashed(text, rest)
        }
    }
}

// Adds the line of a place.
fn push_line(text: &mut Text, place: &RelPath) -> Result<(), AllocError>
    ensures { OnOk result (text.new ≡ text.old ++ rule.target_line place.now) }
{
    push_joined(text, place.names())?;
    text.push_str("\n")
}

/// The text of the file `targets` with these places.
pub fn write_targets(alloc: Global, places: &[RelPath]) -> Result<Text, AllocError>
    ensures { IfOk result (λ text. text ≡ rule.targets_text places.now) }
{
    let mut text = Text::of(alloc, "kmodboot targets 1\n")?;
    for place in places {
        push_line(&mut text, place)?;
    }
    Ok(text)
}

// Whether these places are those that a build may have.
fn are_targets(places: &[RelPath]) -> bool
    requires { IsTrue (list_all rule.is_place places.now) }
    ensures { result ≡ rule.are_targets places.now }
{
    !places.is_empty() && places.len() <= MOST_TARGETS && can_all_share(places)
}

// The places, where a build may have them and this is their text.
fn checked(alloc: Global, told: Vec<RelPath>, text: &str) -> Result<Option<Places>, AllocError>
    requires { IsTrue (list_all rule.is_place told.items) }
    ensures { IfOk result (λ places.
        places ≡ cond (rule.are_targets told.items && bytes_eq (rule.targets_text told.items) text.now) (Some told.items) None) }
{
    if are_targets(&told) && write_targets(alloc, &told)?.as_str() == text {
        Ok(Some(Sequence::from_items(told)))
    } else {
        Ok(None)
    }
}

/// The places of a file `targets` with these bytes, or none where it isn't in its format.
pub fn read_targets(alloc: Global, bytes: &[u8]) -> Result<Option<Places>, AllocError>
    ensures { IfOk result (λ places. places ≡ rule.targets_of bytes.now) }
{
    match str::from_utf8(bytes) {
        Ok(text) => read_text(alloc, text),
        Err(_) => Ok(None),
    }
}

fn read_text(alloc: Global, text: &str) -> Result<Option<Places>, AllocError>
    ensures { IfOk result (λ places. places ≡ rule.targets_of text.now) }
{
    let lines = parts_at_line_feeds(alloc, text)?;
    match read_places(alloc, inner(&lines))? {
        Some(told) => checked(alloc, told, text),
        None => Ok(None),
    }
}
