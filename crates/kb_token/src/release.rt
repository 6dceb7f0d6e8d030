// The values of os-release files.
ghost use Rattle.std.specs.Prelude.{◌≡◌, IfOk, map};
ghost use Rattle.kb_token.specs.Release as rule;
ghost use Rattle.kb_token.specs.Lines.{lines_of};
ghost use Rattle.kb_token.specs.Variable.{has};
ghost use Rattle.kb_token.specs.Lines.{CARRIAGE_RETURN};

use crate::lines::lines_of;
use crate::variable::given_value;
use kb_world::Text;
use std::alloc::{AllocError, Global};

fn without_return(line: &str) -> &str
    ensures { result.now ≡ rule.without_return line.now }
{
    match line.strip_suffix('\r') {
        Some(front) => front,
        None => line,
    }
}

fn release_lines(alloc: Global, text: &str) -> Result<Vec<&str>, AllocError>
    ensures { IfOk result (λ lines.
        map (λ line. line.now) lines.items ≡ map rule.without_return (lines_of text.now)) }
{
    let mut kept = Vec::new(alloc);
    for line in &lines_of(alloc, text)? {
        kept.push(without_return(line))?;
    }
    Ok(kept)
}

fn has_return(text: &str) -> bool
    ensures { result ≡ has CARRIAGE_RETURN text.now }
{
    text.as_bytes().iter().any(|c| *c == b'\r')
}

/// The value that an os-release file gives the key: that of the last line that does, unless it is
/// empty or has a carriage return in it.
pub fn release_value(alloc: Global, key: &str, text: &str) -> Result<Option<Text>, AllocError>
    ensures { IfOk result (λ value. value ≡ rule.release_value key.now text.now) }
{
    match given_value(alloc, key, &release_lines(alloc, text)?)? {
        Some(value) => {
            if value.as_str().is_empty() || has_return(value.as_str()) {
                return Ok(None);
            }
            Ok(Some(value))
        }
        None => Ok(None),
    }
}
