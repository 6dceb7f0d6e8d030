// The transaction of a journal that stands is ended.
ghost use Rattle.std.specs.Prelude.{◌≡◌, Some, true};
ghost use Rattle.std.specs.Option.{ForSome};
ghost use Rattle.kb_world.specs.Public.{intent_path};
ghost use Rattle.kb_world.specs.Roots.{AreApart};
ghost use Rattle.kb_world.specs.Tree.{node_at, is_file, file_bytes};
ghost use Rattle.kb_changes.specs.declared.change.Intent.{Intent as AnIntent};
ghost use Rattle.kb_intent.specs.Finish.{HasJournal};
ghost use Rattle.kb_intent.specs.Recover.{Recovers};

use crate::finishing::{finish, journal_path};
use kb_changes::{Intent, Recovered};
use kb_journal::{IntentError, read_intent};
use kb_world::{Kind, Path, Refusal, Roots, Stop, World};
use std::alloc::Global;

// Ends the transaction of this intent, whose journal stands.
fn recover_intent<W: World>(
    alloc: Global,
    world: &mut W,
    roots: &Roots,
    intent: Intent,
) -> Result<Option<Recovered>, Stop>
    requires rooted { ForSome (W.state world.old).tree (λ tree.
        (W.state world.old).roots ≡ roots.now) }
    requires apart { AreApart roots.now }
    requires journal { ForSome (W.state world.old).tree (HasJournal roots.now intent) }
    requires only { ForSome (W.state world.old).tree (λ tree. (other : AnIntent)
        → HasJournal roots.now other tree → other ≡ intent) }
    ensures { Recovers roots.now (W.state world.old) (W.state world.new) result }
{
    match finish(alloc, world, roots, intent.changes.as_slice()) {
        Ok(ran) => Ok(Some(Recovered {
            words: intent.words,
            requests: ran.requests,
            replies: ran.replies,
        })),
        Err(error) => Err(Stop::from(error)),
    }
}

// Ends the transaction of the journal with this text, which stands at the path.
fn recover_text<W: World>(
    alloc: Global,
    world: &mut W,
    roots: &Roots,
    path: Path,
    text: &[u8],
) -> Result<Option<Recovered>, Stop>
    requires rooted { ForSome (W.state world.old).tree (λ tree.
        (W.state world.old).roots ≡ roots.now) }
    requires apart { AreApart roots.now }
    requires path { path ≡ intent_path roots.now }
    requires text { ForSome (W.state world.old).tree (λ tree.
        file_bytes (node_at tree (intent_path roots.now)) ≡ Some text.now) }
    ensures { Recovers roots.now (W.state world.old) (W.state world.new) result }
{
    match read_intent(alloc, text, roots) {
        Ok(intent) => recover_intent(alloc, world, roots, intent),
        Err(IntentError::Damaged) => Err(Stop::Refused(Refusal::Damaged { path })),
        Err(IntentError::NoMemory) => Err(Stop::NoMemory),
    }
}

// Ends the transaction of the file at the journal's path.
fn recover_file<W: World>(
    alloc: Global,
    world: &mut W,
    roots: &Roots,
    path: Path,
) -> Result<Option<Recovered>, Stop>
    requires rooted { ForSome (W.state world.old).tree (λ tree.
        (W.state world.old).roots ≡ roots.now) }
    requires apart { AreApart roots.now }
    requires path { path ≡ intent_path roots.now }
    requires file { ForSome (W.state world.old).tree (λ tree.
        is_file (node_at tree (intent_path roots.now)) ≡ true) }
    ensures { Recovers roots.now (W.state world.old) (W.state world.new) result }
{
    match world.read(alloc, &path) {
        Ok(text) => recover_text(alloc, world, roots, path, text.as_slice()),
        Err(error) => Err(Stop::from(error)),
    }
}

/// Ends the transaction whose journal stands, and tells what it did: the words of the command that
/// began it, and the requests and replies of its children. Where no journal stands it does nothing.
/// What stands at the journal's path and isn't one is refused, and then nothing is changed.
pub fn recover<W: World>(
    alloc: Global,
    world: &mut W,
    roots: &Roots,
) -> Result<Option<Recovered>, Stop>
    requires rooted { ForSome (W.state world.old).tree (λ tree.
        (W.state world.old).roots ≡ roots.now) }
    requires apart { AreApart roots.now }
    ensures { Recovers roots.now (W.state world.old) (W.state world.new) result }
{
    let path = match journal_path(alloc, roots) {
        Ok(path) => path,
        Err(_) => return Err(Stop::NoMemory),
    };
    match world.look(alloc, &path) {
        Ok(Kind::Absent) => Ok(None),
        Ok(Kind::File { .. }) => recover_file(alloc, world, roots, path),
        Ok(Kind::Dir | Kind::Link) => Err(Stop::Refused(Refusal::Damaged { path })),
        Err(error) => Err(Stop::from(error)),
    }
}
