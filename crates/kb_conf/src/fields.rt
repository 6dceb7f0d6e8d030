//! The fields of a conf whose values are good.
ghost use Rattle.std.specs.Prelude.{◌≡◌, IfOk, OnOk, bytes_eq, map};
ghost use Rattle.std.specs.List.{list_any};
ghost use Rattle.kb_conf.specs.Fields as rule;

use super::conf::{Conf, Patch, Patches, Scripts};
use super::given::Given;
use super::pattern::matches;
use super::targets::{begins_with, target_numbers, targets_at};
use super::values::{Values, is_given};
use kb_world::{Key, Text, Texts};
use std::alloc::{AllocError, Global};

fn patch_at(
    alloc: Global,
    given: &Given,
    values: &Values<'_>,
    number: u8,
) -> Result<Option<Patch>, AllocError>
    ensures { IfOk result (λ patch. patch ≡ rule.patch_at given.now values.now number) }
{
    let pattern = values.value("PATCH_MATCH", number);
    if !is_given(pattern) || matches(alloc, pattern, given.kernel.as_str())? {
        Ok(Some(Patch {
            index: u64::from(number),
            file: Text::of(alloc, values.value("PATCH", number))?,
        }))
    } else {
        Ok(None)
    }
}

#[tactic(auto, unfolding(crate::specs::Fields::patches_of))]
fn patches_of(alloc: Global, given: &Given, values: &Values<'_>) -> Result<Patches, AllocError>
    ensures { IfOk result (λ patches. patches ≡ rule.patches_of given.now values.now) }
{
    let mut patches = Patches::new(alloc);
    for number in &values.numbers(alloc, "PATCH")? {
        match patch_at(alloc, given, values, *number)? {
            Some(patch) => patches.push(patch)?,
            None => {}
        }
    }
    Ok(patches)
}

fn make_matches(
    alloc: Global,
    given: &Given,
    values: &Values<'_>,
    number: u8,
) -> Result<bool, AllocError>
    ensures { IfOk result (λ found. found ≡ rule.make_matches given.now values.now number) }
{
    let pattern = values.value("MAKE_MATCH", number);
    Ok(is_given(pattern) && matches(alloc, pattern, given.kernel.as_str())?)
}

// The greatest of the rising numbers whose pattern matches the kernel.
fn last_make(
    alloc: Global,
    given: &Given,
    values: &Values<'_>,
    numbers: &[u8],
) -> Result<Option<u8>, AllocError>
    ensures { IfOk result (λ last. last ≡ rule.last_that (rule.make_matches given.now values.now) numbers.now) }
{
    let mut last = None;
    for number in numbers {
        if make_matches(alloc, given, values, *number)? {
            last = Some(*number);
        }
    }
    Ok(last)
}

// The MAKE line of a conf that has none for this kernel.
fn default_make(alloc: Global, given: &Given, values: &Values<'_>) -> Result<Text, AllocError>
    ensures { IfOk result (λ make. make ≡ rule.default_make given.now values.now) }
{
    let name = values.value("PACKAGE_NAME", 0);
    let version = values.value("PACKAGE_VERSION", 0);
    Ok(Text::from_string(format!(in alloc;
        "make -C {} M={}/{name}/{version}/build",
        given.kernel_source_dir, given.dkms_tree
    )?))
}

fn plain_make(alloc: Global, given: &Given, values: &Values<'_>) -> Result<Text, AllocError>
    ensures { IfOk result (λ make. make ≡ rule.plain_make given.now values.now) }
{
    let make = values.value("MAKE", 0);
    if is_given(make) && !is_given(values.value("MAKE_MATCH", 0)) {
        return Text::of(alloc, make);
    }
    default_make(alloc, given, values)
}

#[tactic(auto, unfolding(crate::specs::Fields::make_of))]
fn make_of(alloc: Global, given: &Given, values: &Values<'_>) -> Result<Text, AllocError>
    ensures { IfOk result (λ make. make ≡ rule.make_of given.now values.now) }
{
    let numbers = values.numbers(alloc, "MAKE")?;
    match last_make(alloc, given, values, &numbers)? {
        Some(number) => Text::of(alloc, values.value("MAKE", number)),
        None => plain_make(alloc, given, values),
    }
}

fn script(alloc: Global, values: &Values<'_>, name: &str) -> Result<Option<Text>, AllocError>
    ensures { IfOk result (λ script. script ≡ rule.script values.now name.now) }
{
    let value = values.value(name, 0);
    if is_given(value) {
        Ok(Some(Text::of(alloc, value)?))
    } else {
        Ok(None)
    }
}

fn scripts_of(alloc: Global, values: &Values<'_>) -> Result<Scripts, AllocError>
    ensures { IfOk result (λ scripts. scripts ≡ rule.scripts_of values.now) }
{
    Ok(Scripts {
        pre_build: script(alloc, values, "PRE_BUILD")?,
        post_build: script(alloc, values, "POST_BUILD")?,
        pre_install: script(alloc, values, "PRE_INSTALL")?,
        post_install: script(alloc, values, "POST_INSTALL")?,
        post_add: script(alloc, values, "POST_ADD")?,
        post_remove: script(alloc, values, "POST_REMOVE")?,
    })
}

fn has(texts: &[Text], text: &str) -> bool
    ensures { result ≡ list_any (bytes_eq text.now) texts.now }
{
    texts.iter().any(|other| other.as_str() == text)
}

// Adds the text where it isn't there yet.
fn push_new(alloc: Global, texts: &mut Texts, text: &str) -> Result<(), AllocError>
    ensures { OnOk result (texts.new ≡ rule.with_new texts.old text.now) }
{
    if has(texts.as_slice(), text) {
        return Ok(());
    }
    texts.push(Text::of(alloc, text)?)
}

#[tactic(auto, unfolding(crate::specs::Fields::each_once))]
fn depends_of(alloc: Global, values: &Values<'_>) -> Result<Texts, AllocError>
    ensures { IfOk result (λ depends. depends ≡ rule.depends_of values.now) }
{
    let mut depends = Texts::new(alloc);
    for number in &values.numbers(alloc, "BUILD_DEPENDS")? {
        push_new(alloc, &mut depends, values.value("BUILD_DEPENDS", *number))?;
    }
    Ok(depends)
}

fn shuts_out(alloc: Global, pattern: &str, text: &str) -> Result<bool, AllocError>
    ensures { IfOk result (λ out. out ≡ rule.shuts_out pattern.now text.now) }
{
    Ok(is_given(pattern) && !matches(alloc, pattern, text)?)
}

fn is_excluded(alloc: Global, given: &Given, values: &Values<'_>) -> Result<bool, AllocError>
    ensures { IfOk result (λ out. out ≡ rule.is_excluded given.now values.now) }
{
    let kernels = values.value("BUILD_EXCLUSIVE_KERNEL", 0);
    let arches = values.value("BUILD_EXCLUSIVE_ARCH", 0);
    Ok(
        shuts_out(alloc, kernels, given.kernel.as_str())?
            || shuts_out(alloc, arches, given.arch.as_str())?,
    )
}

#[tactic(auto, unfolding(crate::specs::Fields::names_package))]
fn names_package(name: &str) -> bool
    ensures { result ≡ rule.names_package name.now }
{
    name == "PACKAGE_NAME"
        || name == "PACKAGE_VERSION"
        || name == "AUTOINSTALL"
        || name == "BUILD_DEPENDS"
}

#[tactic(auto, unfolding(crate::specs::Fields::names_exclusion))]
fn names_exclusion(name: &str) -> bool
    ensures { result ≡ rule.names_exclusion name.now }
{
    name == "BUILD_EXCLUSIVE_KERNEL" || name == "BUILD_EXCLUSIVE_ARCH"
}

#[tactic(auto, unfolding(crate::specs::Fields::names_target))]
fn names_target(name: &str) -> bool
    ensures { result ≡ rule.names_target name.now }
{
    name == "BUILT_MODULE_NAME"
        || name == "BUILT_MODULE_LOCATION"
        || name == "DEST_MODULE_NAME"
        || name == "DEST_MODULE_LOCATION"
        || name == "STRIP"
}

#[tactic(auto, unfolding(crate::specs::Fields::names_build))]
fn names_build(name: &str) -> bool
    ensures { result ≡ rule.names_build name.now }
{
    name == "PATCH"
        || name == "PATCH_MATCH"
        || name == "MAKE"
        || name == "MAKE_MATCH"
        || name == "CLEAN"
}

#[tactic(auto, unfolding(crate::specs::Fields::names_script))]
fn names_script(name: &str) -> bool
    ensures { result ≡ rule.names_script name.now }
{
    name == "PRE_BUILD"
        || name == "POST_BUILD"
        || name == "PRE_INSTALL"
        || name == "POST_INSTALL"
        || name == "POST_ADD"
        || name == "POST_REMOVE"
}

fn is_used(name: &str) -> bool
    ensures { result ≡ rule.is_used name.now }
{
    names_package(name)
        || names_exclusion(name)
        || names_target(name)
        || names_build(name)
        || names_script(name)
}

#[tactic(auto, unfolding(crate::specs::Fields::each_once))]
fn unused_of(alloc: Global, values: &Values<'_>) -> Result<Texts, AllocError>
    ensures { IfOk result (λ unused. unused ≡ rule.unused_of values.now) }
{
    let mut unused = Texts::new(alloc);
    for name in &values.names(alloc)? {
        if !is_used(name) {
            push_new(alloc, &mut unused, name)?;
        }
    }
    Ok(unused)
}

fn package_key(alloc: Global, values: &Values<'_>) -> Result<Key, AllocError>
    ensures { IfOk result (λ key. key ≡ rule.package_key values.now) }
{
    Ok(Key {
        module: Text::of(alloc, values.value("PACKAGE_NAME", 0))?,
        version: Text::of(alloc, values.value("PACKAGE_VERSION", 0))?,
    })
}

/// The fields.
#[tactic(auto, unfolding(crate::specs::Fields::fields_of))]
pub fn fields_of(alloc: Global, given: &Given, values: &Values<'_>) -> Result<Conf, AllocError>
    ensures { IfOk result (λ conf. conf ≡ rule.fields_of given.now values.now) }
{
    let numbers = target_numbers(alloc, values)?;
    Ok(Conf {
        key: package_key(alloc, values)?,
        targets: targets_at(alloc, values, &numbers)?,
        patches: patches_of(alloc, given, values)?,
        make: make_of(alloc, given, values)?,
        clean: script(alloc, values, "CLEAN")?,
        scripts: scripts_of(alloc, values)?,
        depends: depends_of(alloc, values)?,
        excluded: is_excluded(alloc, given, values)?,
        autoinstall: begins_with(b'y', b'Y', values.value("AUTOINSTALL", 0)),
        unused: unused_of(alloc, values)?,
    })
}
