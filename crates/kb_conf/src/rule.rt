//! The rules that values keep.
ghost use Rattle.std.specs.Prelude.{◌≡◌, IfOk};
ghost use Rattle.kb_conf.specs.Rule.{keeps};

use super::path_value::{is_destination, is_path};
use super::pattern::is_pattern;
use kb_world::{is_name, is_version, is_word};
use std::alloc::{AllocError, Global};

#[derive(Clone, Copy, Debug)]
pub enum Rule {
    Name,
    Word,
    Version,
    Location,
    Destination,
    Pattern,
}

/// Whether the value keeps the rule.
#[tactic(auto, unfolding(crate::specs::Rule::keeps))]
pub fn keeps(alloc: Global, rule: Rule, value: &str) -> Result<bool, AllocError>
    ensures { IfOk result (λ good. good ≡ keeps rule value.now) }
{
    match rule {
        Rule::Name => Ok(is_name(value)),
        Rule::Word => Ok(is_word(value)),
        Rule::Version => Ok(is_version(value)),
        Rule::Location => is_path(alloc, value),
        Rule::Destination => is_destination(alloc, value),
        Rule::Pattern => is_pattern(alloc, value),
    }
}
