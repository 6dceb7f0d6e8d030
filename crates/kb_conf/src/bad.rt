//! How a bad value is named.
ghost use Rattle.std.specs.Prelude.{◌≡◌, IfOk};
ghost use Rattle.kb_conf.specs.Bad as rule;

use kb_world::Text;
use std::alloc::{AllocError, Global};

/// The name and the number of a value that is bad.
pub fn bad_unless(
    alloc: Global,
    good: bool,
    name: &str,
    number: u8,
) -> Result<Option<Text>, AllocError>
    ensures { IfOk result (λ bad. bad ≡ rule.bad_unless good name.now number) }
{
    if good {
        return Ok(None);
    }
    Ok(Some(Text::from_string(format!(in alloc; "{name}[{number}]")?)))
}

/// The name of a value without a number that is bad.
pub fn bad_alone_unless(alloc: Global, good: bool, name: &str) -> Result<Option<Text>, AllocError>
    ensures { IfOk result (λ bad. bad ≡ rule.bad_alone_unless good name.now) }
{
    if good {
        return Ok(None);
    }
    Ok(Some(Text::of(alloc, name)?))
}
