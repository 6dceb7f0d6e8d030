//! The first value that is missing or bad.
ghost use Rattle.std.specs.Prelude.{◌≡◌, IfOk};
ghost use Rattle.kb_conf.specs.Bad.{bad_alone_unless};
ghost use Rattle.kb_conf.specs.Checks as spec;
ghost use Rattle.kb_conf.specs.Values.{value_of};

use super::bad::{bad_alone_unless, bad_unless};
use super::rule::{Rule, keeps};
use super::targets::{bad_targets, target_numbers};
use super::values::{Values, is_given};
use kb_world::{Refusal, Text};
use std::alloc::{AllocError, Global};

// The first value of this name that breaks its rule, by rising number.
fn bad_numbered(
    alloc: Global,
    values: &Values<'_>,
    name: &str,
    rule: Rule,
) -> Result<Option<Text>, AllocError>
    ensures { IfOk result (λ bad. bad ≡ spec.bad_numbered values.now name.now rule) }
{
    for number in &values.numbers(alloc, name)? {
        let good = keeps(alloc, rule, values.value(name, *number))?;
        if let Some(bad) = bad_unless(alloc, good, name, *number)? {
            return Ok(Some(bad));
        }
    }
    Ok(None)
}

fn bad_alone(
    alloc: Global,
    values: &Values<'_>,
    name: &str,
    rule: Rule,
) -> Result<Option<Text>, AllocError>
    ensures { IfOk result (λ bad. bad ≡ spec.bad_alone values.now name.now rule) }
{
    let good = keeps(alloc, rule, values.value(name, 0))?;
    bad_alone_unless(alloc, good, name)
}

fn bad_pattern_alone(
    alloc: Global,
    values: &Values<'_>,
    name: &str,
) -> Result<Option<Text>, AllocError>
    ensures { IfOk result (λ bad. bad
        ≡ bad_alone_unless (spec.may_be_pattern (value_of values.now name.now 0)) name.now) }
{
    let value = values.value(name, 0);
    let good = !is_given(value) || keeps(alloc, Rule::Pattern, value)?;
    bad_alone_unless(alloc, good, name)
}

fn bad_package(alloc: Global, values: &Values<'_>) -> Result<Option<Text>, AllocError>
    ensures { IfOk result (λ bad. bad ≡ spec.bad_package values.now) }
{
    if let Some(bad) = bad_alone(alloc, values, "PACKAGE_NAME", Rule::Word)? {
        return Ok(Some(bad));
    }
    bad_alone(alloc, values, "PACKAGE_VERSION", Rule::Version)
}

fn bad_pattern(alloc: Global, values: &Values<'_>) -> Result<Option<Text>, AllocError>
    ensures { IfOk result (λ bad. bad ≡ spec.bad_pattern values.now) }
{
    if let Some(bad) = bad_numbered(alloc, values, "PATCH_MATCH", Rule::Pattern)? {
        return Ok(Some(bad));
    }
    if let Some(bad) = bad_numbered(alloc, values, "MAKE_MATCH", Rule::Pattern)? {
        return Ok(Some(bad));
    }
    if let Some(bad) = bad_pattern_alone(alloc, values, "BUILD_EXCLUSIVE_KERNEL")? {
        return Ok(Some(bad));
    }
    bad_pattern_alone(alloc, values, "BUILD_EXCLUSIVE_ARCH")
}

fn bad_value(alloc: Global, values: &Values<'_>) -> Result<Option<Text>, AllocError>
    ensures { IfOk result (λ bad. bad ≡ spec.bad_value values.now) }
{
    if let Some(bad) = bad_package(alloc, values)? {
        return Ok(Some(bad));
    }
    let numbers = target_numbers(alloc, values)?;
    if let Some(bad) = bad_targets(alloc, values, &numbers)? {
        return Ok(Some(bad));
    }
    if let Some(bad) = bad_numbered(alloc, values, "PATCH", Rule::Name)? {
        return Ok(Some(bad));
    }
    if let Some(bad) = bad_pattern(alloc, values)? {
        return Ok(Some(bad));
    }
    bad_numbered(alloc, values, "BUILD_DEPENDS", Rule::Word)
}

fn missing(alloc: Global, values: &Values<'_>) -> Result<Option<Text>, AllocError>
    ensures { IfOk result (λ name. name ≡ spec.missing values.now) }
{
    if !is_given(values.value("PACKAGE_NAME", 0)) {
        return Ok(Some(Text::of(alloc, "PACKAGE_NAME")?));
    }
    if !is_given(values.value("PACKAGE_VERSION", 0)) {
        return Ok(Some(Text::of(alloc, "PACKAGE_VERSION")?));
    }
    Ok(None)
}

/// The refusal for the first value that is missing, or else the first that is bad.
#[tactic(auto, unfolding(crate::specs::Checks::value_refusal))]
pub fn value_refusal(alloc: Global, values: &Values<'_>) -> Result<Option<Refusal>, AllocError>
    ensures { IfOk result (λ due. due ≡ spec.value_refusal values.now) }
{
    if let Some(name) = missing(alloc, values)? {
        return Ok(Some(Refusal::ConfMissing { name }));
    }
    match bad_value(alloc, values)? {
        Some(name) => Ok(Some(Refusal::ConfValue { name })),
        None => Ok(None),
    }
}
