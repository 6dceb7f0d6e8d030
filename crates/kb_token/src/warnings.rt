// The warnings of the sources.
ghost use Rattle.std.specs.Prelude.{◌≡◌, ◌++◌, OnOk, IfOk};
ghost use Rattle.kb_token.specs.Facts as rule;
ghost use Rattle.kb_token.specs.Sources.{contents_of};

use crate::lines::lines_of;
use crate::sources::{SOURCES, Source, Sources};
use crate::tries::tries_of;
use crate::variable::{Variable, read_variable};
use kb_world::{Roots, Text, Texts};
use std::alloc::{AllocError, Global};

fn is_unused_key(key: &str) -> bool
    ensures { result ≡ rule.is_unused_key key.now }
{
    key == "BOOT_ROOT" || key == "MACHINE_ID"
}

fn unused_warning(alloc: Global, told: Option<Variable>) -> Result<Option<Text>, AllocError>
    ensures { IfOk result (λ warning. warning ≡ rule.unused_warning told) }
{
    match told {
        Some(variable) => {
            if !is_unused_key(variable.key.as_str()) {
                return Ok(None);
            }
            let key = &variable.key;
            Ok(Some(Text::from_string(format!(in alloc;
                "warning: install.conf: {key} is not used"
            )?)))
        }
        None => Ok(None),
    }
}

// Adds a warning for each line of an install.conf with a key that isn't used.
fn warn_of_conf(alloc: Global, text: &str, warnings: &mut Texts) -> Result<(), AllocError>
    ensures { OnOk result (warnings.new ≡ warnings.old ++ rule.conf_warnings text.now) }
{
    for line in &lines_of(alloc, text)? {
        if let Some(warning) = unused_warning(alloc, read_variable(alloc, line)?)? {
            warnings.push(warning)?;
        }
    }
    Ok(())
}

fn warn_of_text(
    alloc: Global,
    source: Source,
    text: &str,
    warnings: &mut Texts,
) -> Result<(), AllocError>
    ensures { OnOk result (warnings.new ≡ warnings.old ++ rule.text_warnings source text.now) }
{
    match source {
        Source::InstallConf | Source::VendorInstallConf => warn_of_conf(alloc, text, warnings),
        Source::Tries => match tries_of(text) {
            Some(_) => Ok(()),
            None => warnings.push(Text::of(alloc, "warning: tries is not used")?),
        },
        _ => Ok(()),
    }
}

// Adds the warnings of one source.
fn warn_of_source(
    alloc: Global,
    roots: &Roots,
    sources: &Sources,
    source: Source,
    warnings: &mut Texts,
) -> Result<(), AllocError>
    ensures { OnOk result (warnings.new
        ≡ warnings.old ++ rule.source_warnings roots.now (contents_of sources.now) source) }
{
    if sources.is_not_text(source) {
        let path = source.path(alloc, roots)?;
        let warning = format!(in alloc; "warning: {path} is not text")?;
        return warnings.push(Text::from_string(warning));
    }
    match sources.text(source) {
        Some(text) => warn_of_text(alloc, source, text, warnings),
        None => Ok(()),
    }
}

/// The warnings of all sources, in the order of reading.
pub fn warnings_of(alloc: Global, roots: &Roots, sources: &Sources) -> Result<Texts, AllocError>
    ensures { IfOk result (λ warnings.
        warnings ≡ rule.warnings roots.now (contents_of sources.now)) }
{
    let mut warnings = Texts::new(alloc);
    for source in SOURCES {
        warn_of_source(alloc, roots, sources, source, &mut warnings)?;
    }
    Ok(warnings)
}
