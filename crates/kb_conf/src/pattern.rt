//! Patterns on kernels and architectures.
ghost use Rattle.std.specs.Prelude.{◌≡◌, ◌==◌, IfOk, MatchOption, None, Some};
ghost use Rattle.std.specs.List.{list_any};
ghost use Rattle.kb_conf.specs.Built.{IsBuilt};
ghost use Rattle.kb_conf.specs.Pattern as rule;
ghost use Rattle.kb_conf.specs.Signs.{open_brace};

use super::bytes::OPEN_BRACE;
use regex::{Error, Regex};
use std::alloc::{AllocError, Global};

/// The most bytes that a pattern may have.
const LONGEST_PATTERN: usize = 256;

fn has_brace(text: &str) -> bool
    ensures { result ≡ list_any (λ c. c == open_brace) text.now }
{
    text.as_bytes().iter().any(|byte| *byte == OPEN_BRACE)
}

/// The built pattern, if the text is one that `regex` reads. Where the engine refuses it for another cause
/// than the text, as its limit on memory, that is want of memory.
fn build(alloc: Global, text: &str) -> Result<Option<Regex>, AllocError>
    ensures { IfOk result (λ built. IsBuilt text.now built) }
{
    match Regex::new(alloc, text) {
        Ok(regex) => Ok(Some(regex)),
        Err(Error::Syntax(_)) => Ok(None),
        Err(_) => Err(AllocError),
    }
}

/// Whether the text may be a pattern.
#[tactic(auto, unfolding(crate::specs::Pattern::is_pattern))]
pub fn is_pattern(alloc: Global, text: &str) -> Result<bool, AllocError>
    ensures { IfOk result (λ good. good ≡ rule.is_pattern text.now) }
{
    if text.len() > LONGEST_PATTERN || has_brace(text) {
        return Ok(false);
    }
    Ok(build(alloc, text)?.is_some())
}

/// Whether the pattern is found anywhere in the text.
pub fn matches(alloc: Global, pattern: &str, text: &str) -> Result<bool, AllocError>
    ensures { IfOk result (λ found. found ≡ rule.matches pattern.now text.now) }
{
    match build(alloc, pattern)? {
        Some(regex) => {
            let mut matcher = regex.matcher(alloc)?;
            Ok(matcher.is_match(text))
        }
        None => Ok(false),
    }
}
