// A command, from its words to its report.
ghost use Rattle.std.specs.Prelude.{◌≡◌, Err, IfOk, IsTrue, None, true};
ghost use Rattle.std.specs.Option.{ForSome};
ghost use Rattle.kb_world.specs.Public.{intent_path};
ghost use Rattle.kb_world.specs.Roots.{AreApart};
ghost use Rattle.kb_world.specs.Tree.{node_at};
ghost use Rattle.kb_world.specs.declared.refusal.Refusal.{Refusal};
ghost use Rattle.kb_machine.specs.Across.{DoesAcrossCrashes};
ghost use Rattle.kb_dkms.specs.Host.{host_keeps_rules};
ghost use Rattle.kb_words.specs.Reading.{reading};
ghost use Rattle.kb_words.specs.Words as words;
ghost use Rattle.kb_top.specs.Machine.{help_text, known_kernel, known_arch, known_host, perform, machine};
ghost use Rattle.kb_top.specs.Serve.{RefusesUnread, Serves};
ghost use Rattle.kb_top.specs.Telling.{words_found};

use crate::adding::{Addition, perform_add};
use crate::recovery::tell_recovery;
use crate::status::perform_status;
use kb_intent::{Recovered, recover};
use kb_words::{Command, read_words};
use kb_world::{Host, Job, Report, Sequence, Stop, Text, World, is_arch, is_kernel};
use std::alloc::{AllocError, Global};

#[tactic(auto, unfolding(crate::specs::Machine::help_text))]
fn help() -> &'static str
    ensures { result.now ≡ help_text }
{
    "usage: kmodboot COMMAND\ncommands: dkms, kernel-install, kernel-hook, recover, selftest, help\n"
}

// The kernel, where it is known and keeps its rule.
fn kernel_of(kernel: &Option<Text>) -> Result<Option<Text>, AllocError>
    ensures { IfOk result (λ known. known ≡ known_kernel kernel.now) }
{
    match kernel {
        Some(kernel) => {
            if is_kernel(kernel.as_str()) {
                Ok(Some(kernel.clone()?))
            } else {
                Ok(None)
            }
        }
        None => Ok(None),
    }
}

// The architecture, where it keeps its rule.
fn arch_of(alloc: Global, arch: &Text) -> Result<Text, AllocError>
    ensures { IfOk result (λ known. known ≡ known_arch arch.now) }
{
    if is_arch(arch.as_str()) {
        arch.clone()
    } else {
        Text::of(alloc, "unknown")
    }
}

// The words, and what is known of the machine that they run on.
fn job_of(alloc: Global, words: &[Text], host: &Host) -> Result<Job, AllocError>
    ensures { IfOk result (λ job. job.host ≡ known_host host.now) }
{
    let mut copies = Vec::new(alloc);
    for word in words {
        copies.push(word.clone()?)?;
    }
    Ok(Job {
        host: Host {
            kernel: kernel_of(&host.kernel)?,
            arch: arch_of(alloc, &host.arch)?,
            roots: host.roots.clone()?,
        },
        words: Sequence::from_items(copies),
    })
}

// Does a command whose names keep their rules, where no journal stands.
fn perform<W: World>(
    alloc: Global,
    world: &mut W,
    job: &Job,
    report: &mut Report,
    command: &Command,
) -> Result<(), Stop>
    requires named { words.names_keep_rules command.now ≡ true }
    requires known { IsTrue (host_keeps_rules job.now.host) }
    requires apart { AreApart job.now.host.roots }
    requires rooted { ForSome (W.state world.old).tree (λ tree.
        (W.state world.old).roots ≡ job.now.host.roots) }
    requires bare { ForSome (W.state world.old).tree (λ tree. node_at tree
        (intent_path job.now.host.roots) ≡ None) }
    ensures { DoesAcrossCrashes job.now.host.roots (perform job.now.host
        (W.state world.old).script command.now) (W.state world.old)
        (W.state world.new) report.old report.new result }
{
    match command {
        Command::Help => match report.out.push(help().as_bytes()) {
            Ok(()) => Ok(()),
            Err(_) => Err(Stop::NoMemory),
        },
        // That is done by now, and told.
        Command::Recover => Ok(()),
        Command::Add { key } => perform_add(alloc, world, job, report, Addition::Package(key)),
        Command::AddTree { path } => {
            perform_add(alloc, world, job, report, Addition::Directory(path))
        }
        Command::Status { filter } => {
            perform_status(alloc, world, &job.host.roots, report, filter)
        }
    }
}

// Tells of the recovery that came first, and does what the words say.
fn serve_words<W: World>(
    alloc: Global,
    words: &[Text],
    host: &Host,
    world: &mut W,
    report: &mut Report,
    found: &Option<Recovered>,
) -> Result<(), Stop>
    requires apart { AreApart host.now.roots }
    requires rooted { ForSome (W.state world.old).tree (λ tree.
        (W.state world.old).roots ≡ host.now.roots) }
    requires bare { ForSome (W.state world.old).tree (λ tree. node_at tree
        (intent_path host.now.roots) ≡ None) }
    ensures does { DoesAcrossCrashes host.now.roots (machine host.now
        (W.state world.old).script words.now (words_found found.now)) (W.state world.old)
        (W.state world.new) report.old report.new result }
    ensures unread { (why : Refusal) → reading words.now ≡ Err why
        → RefusesUnread host.now.roots why result }
{
    let read = read_words(alloc, words, host);
    match tell_recovery(report, &read, found) {
        Ok(()) => {}
        Err(_) => return Err(Stop::NoMemory),
    }
    let command = match read {
        Ok(command) => command,
        Err(stop) => return Err(stop),
    };
    let job = match job_of(alloc, words, host) {
        Ok(job) => job,
        Err(_) => return Err(Stop::NoMemory),
    };
    perform(alloc, world, &job, report, &command)
}

/// Ends the transaction of a journal that stands, and then does what the words say. A damaged journal
/// is refused before the words are read.
pub fn serve<W: World>(
    alloc: Global,
    words: &[Text],
    host: &Host,
    world: &mut W,
    report: &mut Report,
) -> Result<(), Stop>
    requires apart { AreApart host.now.roots }
    requires rooted { ForSome (W.state world.old).tree (λ tree.
        (W.state world.old).roots ≡ host.now.roots) }
    ensures { Serves host.now words.now (W.state world.old)
        (W.state world.new) report.old report.new result }
{
    match recover(alloc, world, &host.roots) {
        Ok(found) => serve_words(alloc, words, host, world, report, &found),
        Err(stop) => Err(stop),
    }
}
