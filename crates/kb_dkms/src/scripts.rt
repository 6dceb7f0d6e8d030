// The scripts of a package, and what is said of a child that failed without ending the command.
ghost use Rattle.std.specs.Prelude.{◌≡◌, ◌++◌, IfOk, OnOk};
ghost use Rattle.std.specs.Option.{option_copied};
ghost use Rattle.kb_world.specs.Store.{source_path};
ghost use Rattle.kb_dkms.specs.Commit.{endings, script_asked};
ghost use Rattle.kb_dkms.specs.Places.{package_places};
ghost use Rattle.kb_dkms.specs.Scripts as rule;

use crate::places::Places;
use kb_conf::Given;
use kb_world::{Area, Bytes, Job, Key, Reply, Request, Sequence, Text, Texts};
use std::alloc::{AllocError, Global};

/// Adds the line of a warning.
pub(crate) fn push_warning(alloc: Global, err: &mut Bytes, text: &str) -> Result<(), AllocError>
    ensures { OnOk result (err.new ≡ err.old ++ rule.warning_line text.now) }
{
    let line = format!(in alloc; "warning: {text}\n")?;
    err.push(line.as_bytes())
}

// Adds the warning of a child that ended with a code other than 0.
fn push_ended(alloc: Global, err: &mut Bytes, which: &str, code: u8) -> Result<(), AllocError>
    ensures { OnOk result (err.new ≡ err.old ++ rule.ended_line which.now code) }
{
    if code == 0 {
        return Ok(());
    }
    let text = format!(in alloc; "{which} ended with {code}")?;
    push_warning(alloc, err, &text)
}

/// Adds the warnings of the script of this name.
pub(crate) fn push_endings(
    alloc: Global,
    err: &mut Bytes,
    which: &str,
    replies: &[Reply],
) -> Result<(), AllocError>
    ensures { OnOk result (err.new ≡ err.old ++ endings which.now replies.now) }
{
    for reply in replies {
        push_ended(alloc, err, which, reply.code)?;
    }
    Ok(())
}

/// The source of a package that a job is about: its places, and what its conf is read for.
#[derive(Clone, Copy)]
pub(crate) struct Source<'a> {
    pub(crate) job: &'a Job,
    pub(crate) key: &'a Key,
    pub(crate) given: &'a Given,
    pub(crate) places: &'a Places,
}

fn arguments_of(alloc: Global, script: &Text) -> Result<Texts, AllocError>
    ensures { IfOk result (λ args. args ≡ rule.script_args script.now) }
{
    let mut args = Sequence::new(alloc);
    args.push(Text::of(alloc, "-c")?)?;
    args.push(Text::from_string(format!(in alloc; "./{script}")?))?;
    Ok(args)
}

// A script of the package, which runs in the directory of its source and sees what is there.
fn script_request(alloc: Global, source: Source<'_>, script: &Text) -> Result<Request, AllocError>
    requires { source.places.now.source ≡ source_path source.job.now.host.roots source.key.now }
    ensures { IfOk result (λ request. request
        ≡ rule.script_request source.entry.job.now.host.roots source.entry.given.now
        source.entry.key.now script.now) }
{
    let dir = &source.places.source;
    let mut seen = Sequence::new(alloc);
    seen.push(dir.clone()?)?;
    Ok(Request {
        program: Text::of(alloc, "/bin/sh")?,
        args: arguments_of(alloc, script)?,
        env: source.given.environment(alloc, source.key)?,
        dir: dir.clone()?,
        area: Area::Nothing,
        seen,
    })
}

/// The request for a script of the package, where there is one.
pub(crate) fn find_script(
    alloc: Global,
    source: Source<'_>,
    script: Option<&Text>,
) -> Result<Option<Request>, AllocError>
    requires given { source.given.now ≡ rule.host_given source.job.now.host }
    requires places { source.places.now ≡ package_places source.job.now.host.roots source.key.now }
    ensures { IfOk result (λ request. request
        ≡ script_asked source.entry.job.now.host source.entry.key.now
        (option_copied script.entry)) }
{
    match script {
        None => Ok(None),
        Some(words) => Ok(Some(script_request(alloc, source, words)?)),
    }
}
