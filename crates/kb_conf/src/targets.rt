//! The targets of a conf.
ghost use Rattle.std.specs.Prelude.{◌≡◌, IfOk, map, [], slice_get};
ghost use Rattle.std.specs.List.{list_any};
ghost use Rattle.std.specs.Str.{byte};
ghost use Rattle.kb_conf.specs.PathValue.{path_parts};
ghost use Rattle.kb_conf.specs.Placed.{target_number, IsPlaced, ArePlaced, is_that_name};
ghost use Rattle.kb_conf.specs.Targets as rule;
ghost use Rattle.kb_world.specs.Path.{is_under};
ghost use Rattle.kb_conf.specs.declared.targets.Placed.{Placed};
ghost use Rattle.kb_conf.specs.Values.{or_else};

use super::bad::bad_unless;
use super::conf::{Target, Targets};
use super::path_value::{path_parts, texts_of};
use super::rule::{Rule, keeps};
use super::values::{Values, is_given};
use kb_world::{Text, Texts};
use std::alloc::{AllocError, Global};

fn or_else<'v>(value: &'v str, other: &'v str) -> &'v str
    ensures { result.now ≡ or_else value.now other.now }
{
    if is_given(value) { value } else { other }
}

/// The numbers of the targets.
pub fn target_numbers(alloc: Global, values: &Values<'_>) -> Result<Vec<u8>, AllocError>
    ensures { IfOk result (λ numbers. numbers.items ≡ rule.target_numbers values.now) }
{
    let mut numbers = values.numbers(alloc, "BUILT_MODULE_NAME")?;
    if numbers.is_empty() {
        numbers.push(0)?;
    }
    Ok(numbers)
}

fn built_name<'v>(values: &'v Values<'_>, number: u8) -> &'v str
    ensures { result.now ≡ rule.built_name values.now number }
{
    or_else(
        values.value("BUILT_MODULE_NAME", number),
        values.value("PACKAGE_NAME", 0),
    )
}

fn dest_name<'v>(values: &'v Values<'_>, number: u8) -> &'v str
    ensures { result.now ≡ rule.dest_name values.now number }
{
    or_else(
        values.value("DEST_MODULE_NAME", number),
        built_name(values, number),
    )
}

fn built_location<'v>(values: &'v Values<'_>, number: u8) -> &'v str
    ensures { result.now ≡ rule.built_location values.now number }
{
    values.value("BUILT_MODULE_LOCATION", number)
}

fn dest_location<'v>(values: &'v Values<'_>, number: u8) -> &'v str
    ensures { result.now ≡ rule.dest_location values.now number }
{
    or_else(
        values.value("DEST_MODULE_LOCATION", number),
        "/updates/dkms",
    )
}

/// Whether the text begins with the letter, small or large.
pub fn begins_with(small: u8, large: u8, text: &str) -> bool
    ensures { result ≡ rule.begins_with small large text.now }
{
    match text.as_bytes() {
        [] => false,
        [first, ..] => *first == small || *first == large,
    }
}

fn strips(values: &Values<'_>, number: u8) -> bool
    ensures { result ≡ rule.strips values.now number }
{
    let value = or_else(values.value("STRIP", number), values.value("STRIP", 0));
    !begins_with(b'n', b'N', value)
}

fn parts_as_texts(alloc: Global, value: &str) -> Result<Texts, AllocError>
    ensures { IfOk result (λ texts. texts ≡ path_parts value.now) }
{
    let parts = path_parts(alloc, value)?;
    texts_of(alloc, &parts)
}

// Where the target is installed, below the kernel's module directory.
fn target_place(alloc: Global, values: &Values<'_>, number: u8) -> Result<Texts, AllocError>
    ensures { IfOk result (λ place. place ≡ rule.target_place values.now number) }
{
    let mut place = parts_as_texts(alloc, dest_location(values, number))?;
    let mut file = Text::of(alloc, dest_name(values, number))?;
    file.push_str(".ko")?;
    place.push(file)?;
    Ok(place)
}

// A target with its place, which is made once: it may have thousands of names.
#[derive(Drop)]
struct Placed {
    number: u8,
    place: Texts,
}

fn placed_targets(
    alloc: Global,
    values: &Values<'_>,
    numbers: &[u8],
) -> Result<Vec<Placed>, AllocError>
    ensures numbers { IfOk result (λ targets. map target_number targets.items ≡ numbers.now) }
    ensures places { IfOk result (λ targets. ArePlaced values.now targets.items) }
{
    let mut targets = Vec::new(alloc);
    for number in numbers {
        let place = target_place(alloc, values, *number)?;
        targets.push(Placed {
            number: *number,
            place,
        })?;
    }
    Ok(targets)
}

// Whether this name stands at the index.
fn has_name(place: &[Text], index: usize, name: &Text) -> bool
    ensures { result ≡ is_that_name name.now (slice_get place.now index) }
{
    match place.get(index) {
        Some(other) => name == other,
        None => false,
    }
}

// Whether the place is the other or lies below it. The other's last name is compared first: it mostly decides.
#[tactic(auto, using(crate::proofs::PlacedLaws::under_child))]
fn is_below_or_at(place: &[Text], other: &[Text]) -> bool
    ensures { result ≡ is_under place.now other.now }
{
    match other.split_last() {
        Some((last, front)) => has_name(place, front.len(), last) && place.starts_with(front),
        None => true,
    }
}

fn collide(place: &[Text], other: &[Text]) -> bool
    ensures { result ≡ rule.collide place.now other.now }
{
    is_below_or_at(place, other) || is_below_or_at(other, place)
}

fn is_place_taken(target: &Placed, earlier: &[Placed]) -> bool
    ensures { result ≡ list_any (λ (other : Placed). rule.collide target.now.place other.place) earlier.now }
{
    earlier.iter().any(|other| collide(target.place.as_slice(), other.place.as_slice()))
}

fn is_name_taken(values: &Values<'_>, target: &Placed, earlier: &[Placed]) -> bool
    ensures { result ≡ list_any (λ (other : Placed). rule.same_name values.now target.now.number other.number) earlier.now }
{
    earlier.iter().any(|other| dest_name(values, other.number) == dest_name(values, target.number))
}

// The first bad value of a target, behind the targets before it.
fn bad_target(
    alloc: Global,
    values: &Values<'_>,
    earlier: &[Placed],
    target: &Placed,
) -> Result<Option<Text>, AllocError>
    requires placed { IsPlaced values.now target.now }
    requires earlier_placed { ArePlaced values.now earlier.now }
    ensures { IfOk result (λ bad. bad ≡ rule.bad_target values.now (map target_number earlier.now) target.now.number) }
{
    let number = target.number;
    let good = keeps(alloc, Rule::Word, built_name(values, number))?;
    if let Some(bad) = bad_unless(alloc, good, "BUILT_MODULE_NAME", number)? {
        return Ok(Some(bad));
    }
    let good = keeps(alloc, Rule::Location, built_location(values, number))?;
    if let Some(bad) = bad_unless(alloc, good, "BUILT_MODULE_LOCATION", number)? {
        return Ok(Some(bad));
    }
    let good = keeps(alloc, Rule::Word, dest_name(values, number))?
        && !is_name_taken(values, target, earlier);
    if let Some(bad) = bad_unless(alloc, good, "DEST_MODULE_NAME", number)? {
        return Ok(Some(bad));
    }
    let good = keeps(alloc, Rule::Destination, dest_location(values, number))?
        && !is_place_taken(target, earlier);
    bad_unless(alloc, good, "DEST_MODULE_LOCATION", number)
}

/// The first bad value of the targets.
pub fn bad_targets(
    alloc: Global,
    values: &Values<'_>,
    numbers: &[u8],
) -> Result<Option<Text>, AllocError>
    ensures { IfOk result (λ bad. bad ≡ rule.bad_targets values.now [] numbers.now) }
{
    let targets = placed_targets(alloc, values, numbers)?;
    for (index, target) in targets.iter().enumerate() {
        let (earlier, _) = targets.split_at(index);
        if let Some(bad) = bad_target(alloc, values, earlier, target)? {
            return Ok(Some(bad));
        }
    }
    Ok(None)
}

fn target_at(alloc: Global, values: &Values<'_>, number: u8) -> Result<Target, AllocError>
    ensures { IfOk result (λ target. target ≡ rule.target_at values.now number) }
{
    Ok(Target {
        index: u64::from(number),
        built: Text::of(alloc, built_name(values, number))?,
        location: parts_as_texts(alloc, built_location(values, number))?,
        dest: Text::of(alloc, dest_name(values, number))?,
        dest_location: parts_as_texts(alloc, dest_location(values, number))?,
        strip: strips(values, number),
    })
}

/// The targets.
pub fn targets_at(alloc: Global, values: &Values<'_>, numbers: &[u8]) -> Result<Targets, AllocError>
    ensures { IfOk result (λ targets. targets ≡ map (rule.target_at values.now) numbers.now) }
{
    let mut targets = Targets::new(alloc);
    for number in numbers {
        targets.push(target_at(alloc, values, *number)?)?;
    }
    Ok(targets)
}
