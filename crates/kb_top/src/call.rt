// The top call.
ghost use Rattle.std.specs.Prelude.{◌≡◌};
ghost use Rattle.std.specs.Option.{ForSome};
ghost use Rattle.kb_world.specs.Roots.{AreApart};
ghost use Rattle.kb_world.specs.declared.job.Host.{Host as AHost};
ghost use Rattle.kb_top.specs.Run.{RunsCommand};
ghost use Rattle.kb_top.specs.Setting.{IsHostOf};
ghost use Rattle.kb_top.specs.Start.{Starts};

use crate::end::End;
use crate::serve::serve;
use crate::setting::{Setting, SettingError, host_of};
use crate::tell::{tell, write_last};
use kb_world::{
    Bytes, Host, Report, Sink, Text, World, bad_boot_line, bad_root_line, no_memory_line,
};
use std::alloc::Global;

/// Ends the transaction of a journal that stands, and then does the command that the words are. What
/// it has to say goes to `out` and `err`, each written once and only where there is anything, after
/// all its work is done. Refusals come in this order: what stands at the journal's path is damaged,
/// the words are no command line, a name breaks its rule, a root that the command needs isn't a
/// directory, the store is damaged or too large to be read, and then the command's own. Whenever a
/// crash comes, the next call begins with one of the command's stores.
pub fn run<W: World, O: Sink, E: Sink>(
    alloc: Global,
    words: &[Text],
    host: &Host,
    world: &mut W,
    out: &mut O,
    err: &mut E,
) -> End
    requires apart { AreApart host.now.roots }
    requires rooted { ForSome (W.state world.old).tree (λ tree.
        (W.state world.old).roots ≡ host.now.roots) }
    ensures { RunsCommand host.now words.now
        (record { world = W.state world.old; out = O.state out.old; err = E.state err.old })
        (record { world = W.state world.new; out = O.state out.new; err = E.state err.new }) result }
{
    let mut report = Report {
        out: Bytes::new(alloc),
        err: Bytes::new(alloc),
    };
    let answer = serve(alloc, words, host, world, &mut report);
    tell(alloc, answer, report, out, err)
}

/// The call that the program makes: `run` on the machine that the setting tells of. A root that isn't the text of a
/// path, and then a boot that isn't one or is at, under or above another root, end with a fixed line, before the world
/// is asked anything. Want of memory before `run` ends with the fixed line for it.
pub fn start<W: World, O: Sink, E: Sink>(
    alloc: Global,
    words: &[Text],
    setting: &Setting,
    world: &mut W,
    out: &mut O,
    err: &mut E,
) -> End
    requires { (host : AHost) → IsHostOf setting.now host → ForSome (W.state world.old).tree
        (λ tree. (W.state world.old).roots ≡ host.roots) }
    ensures { Starts setting.now words.now
        (record { world = W.state world.old; out = O.state out.old; err = E.state err.old })
        (record { world = W.state world.new; out = O.state out.new; err = E.state err.new }) result }
{
    match host_of(alloc, setting) {
        Ok(host) => run(alloc, words, &host, world, out, err),
        Err(SettingError::BadRoot) => {
            write_last(err, bad_root_line());
            End::BadRoot
        }
        Err(SettingError::BadBoot) => {
            write_last(err, bad_boot_line());
            End::BadBoot
        }
        Err(SettingError::NoMemory) => {
            write_last(err, no_memory_line());
            End::NoMemory
        }
    }
}
