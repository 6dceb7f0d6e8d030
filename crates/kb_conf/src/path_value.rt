//! Values that are paths.
ghost use Rattle.std.specs.Prelude.{◌≡◌, ◌==◌, IfOk, map};
ghost use Rattle.std.specs.List.{list_all, slice_split};
ghost use Rattle.std.specs.Str.{byte};
ghost use Rattle.kb_conf.specs.PathValue as rule;

use super::values::is_given;
use kb_world::{Text, Texts, is_word};
use std::alloc::{AllocError, Global};

fn is_path_part(part: &str) -> bool
    ensures { result ≡ rule.is_path_part part.now }
{
    is_given(part) && part != "."
}

// What stands between the `/`s of the value.
fn pieces_of(alloc: Global, value: &str) -> Result<Vec<&str>, AllocError>
    ensures { IfOk result (λ pieces. map (λ piece. piece.now) pieces.items ≡ slice_split (λ c. c == byte "/") value.now) }
{
    value.split('/').collect(alloc)
}

/// The parts of a path value: what stands between its `/`s, without empty parts and `.`.
#[tactic(auto, unfolding(crate::specs::PathValue::path_parts))]
pub fn path_parts(alloc: Global, value: &str) -> Result<Vec<&str>, AllocError>
    ensures { IfOk result (λ parts. map (λ part. part.now) parts.items ≡ rule.path_parts value.now) }
{
    let mut parts = Vec::new(alloc);
    for piece in &pieces_of(alloc, value)? {
        if is_path_part(piece) {
            parts.push(*piece)?;
        }
    }
    Ok(parts)
}

/// A copy of the parts.
pub fn texts_of(alloc: Global, parts: &[&str]) -> Result<Texts, AllocError>
    ensures { IfOk result (λ texts. texts ≡ map (λ part. part.now) parts.now) }
{
    let mut texts = Texts::new(alloc);
    for part in parts {
        texts.push(Text::of(alloc, part)?)?;
    }
    Ok(texts)
}

#[tactic(auto, unfolding(crate::specs::PathValue::is_step))]
fn is_step(part: &str) -> bool
    ensures { result ≡ rule.is_step part.now }
{
    is_word(part)
}

fn are_steps(parts: &[&str]) -> bool
    ensures { result ≡ list_all (λ part. rule.is_step part.now) parts.now }
{
    parts.iter().all(|part| is_step(part))
}

fn are_words(parts: &[&str]) -> bool
    ensures { result ≡ rule.are_words (map (λ part. part.now) parts.now) }
{
    are_steps(parts)
}

fn begins_at_top(parts: &[&str]) -> bool
    ensures { result ≡ rule.begins_at_top (map (λ part. part.now) parts.now) }
{
    match parts {
        [] => false,
        [first, ..] => *first == "kernel" || *first == "updates" || *first == "extra",
    }
}

fn begins_with_slash(value: &str) -> bool
    ensures { result ≡ rule.begins_with_slash value.now }
{
    match value.as_bytes() {
        [] => false,
        [first, ..] => *first == b'/',
    }
}

/// Whether the value is a path: each of its parts is a word.
#[tactic(auto, unfolding(crate::specs::PathValue::is_path))]
pub fn is_path(alloc: Global, value: &str) -> Result<bool, AllocError>
    ensures { IfOk result (λ good. good ≡ rule.is_path value.now) }
{
    let parts = path_parts(alloc, value)?;
    Ok(are_words(&parts))
}

/// Whether modules can be installed there: at or below `/kernel`, `/updates` or `/extra`.
#[tactic(auto, unfolding(crate::specs::PathValue::is_destination))]
pub fn is_destination(alloc: Global, value: &str) -> Result<bool, AllocError>
    ensures { IfOk result (λ good. good ≡ rule.is_destination value.now) }
{
    let parts = path_parts(alloc, value)?;
    Ok(begins_with_slash(value) && begins_at_top(&parts) && are_words(&parts))
}
