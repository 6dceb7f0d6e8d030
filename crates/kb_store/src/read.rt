// The store is read.
ghost use Rattle.std.specs.Prelude.{◌≡◌, ℕ, Some, None, IfOk, IfSome, OnOk, IsErrOf, IsTrue, is_some, true, map, Ok};
ghost use Rattle.std.specs.Option.{ForSome};
ghost use Rattle.kb_world.specs.Damage.{hurt};
ghost use Rattle.kb_world.specs.Read.{Gives, IsRead};
ghost use Rattle.kb_world.specs.Public.{is_private, public_tree};
ghost use Rattle.kb_world.specs.Roots.{AreApart};
ghost use Rattle.kb_world.specs.State.{Looks};
ghost use Rattle.kb_world.specs.Tree.{Tree, node_at, is_dir};
ghost use Rattle.kb_world.specs.declared.stop.Stop.TheVariants.{Refused};
ghost use Rattle.kb_world.specs.declared.refusal.Refusal.{Refusal};
ghost use Rattle.kb_store.specs.Contents.{store_of};
ghost use Rattle.kb_store.specs.Notes.{version_above, version_entries, noted_all, notes_of};
ghost use Rattle.kb_store.specs.Read as rule;
ghost use Rattle.kb_store.specs.Read.{IsReading, IsWholeReading, read_of, entries_over};
ghost use Rattle.kb_walk.specs.Walking.{entries, met_at};

use crate::chests::chests_of;
use crate::notes::{Notes, note_all};
use crate::private::Shallow;
use crate::store::Store;
use kb_walk::{LIMITS, Met, Walk, walk_all, walk_below};
use kb_world::{Path, Refusal, Roots, Stop, World, WorldError};
use std::alloc::{AllocError, Global};

// What a walk of the store met, and what that tells.
struct Reading {
    walk: Walk,
    notes: Notes,
}

// The directory MODULE/VERSION below the dkms root that the path lies below, if there is one.
fn version_above(alloc: Global, roots: &Roots, path: &Path) -> Result<Option<Path>, AllocError>
    ensures { IfOk result (λ directory. directory ≡ version_above roots.now path.now) }
{
    match path.below(&roots.dkms) {
        Some([module, version, _, ..]) => Ok(Some(
            roots
                .dkms
                .child(alloc, module.as_str())?
                .child(alloc, version.as_str())?,
        )),
        _ => Ok(None),
    }
}

// Notes what stands in the version that the walk ended in, down to where its files `targets` may be: one behind that path
// may tell of damage before it.
fn note_version<W: World>(
    alloc: Global,
    world: &mut W,
    roots: &Roots,
    over: &Path,
    notes: &mut Notes,
) -> Result<(), WorldError>
    requires { ForSome (W.state world.old).tree (λ tree. is_some (node_at tree over.now) ≡ true) }
    ensures noted { OnOk result (ForSome (W.state world.old).tree (λ tree.
        notes.new ≡ noted_all roots.now tree notes.old (version_entries roots.now tree over.now))) }
    ensures same { Looks (W.state world.old) (W.state world.new) result }
{
    match version_above(alloc, roots, over)? {
        Some(directory) => {
            let shallow = Shallow {
                roots,
                directory: &directory,
            };
            let met = walk_all(alloc, world, &shallow, &directory)?;
            note_all(alloc, world, roots, met.as_slice(), notes)
        }
        None => Ok(()),
    }
}

// Walks over the store, and notes what that tells.
fn read_entries<W: World>(
    alloc: Global,
    world: &mut W,
    roots: &Roots,
) -> Result<Reading, WorldError>
    requires { ForSome (W.state world.old).tree (λ tree. is_dir (node_at tree roots.now.dkms) ≡ true) }
    ensures read { IfOk result (λ reading. ForSome (W.state world.old).tree (λ tree. IsReading roots.now tree reading)) }
    ensures same { Looks (W.state world.old) (W.state world.new) result }
{
    let walk = walk_below(alloc, world, roots, &roots.dkms, LIMITS)?;
    let mut notes = Notes::new(alloc);
    note_all(alloc, world, roots, walk.met.as_slice(), &mut notes)?;
    match &walk.over {
        Some(over) => note_version(alloc, world, roots, over, &mut notes)?,
        None => {}
    }
    Ok(Reading { walk, notes })
}

// The refusal whose path stands first, of a damaged path and one that passes a limit.
fn first_refusal(hurt: Option<Path>, over: Option<Path>) -> Option<Refusal>
    ensures { result ≡ rule.first_refusal hurt over }
{
    match (hurt, over) {
        (None, None) => None,
        (Some(path), None) => Some(Refusal::Damaged { path }),
        (None, Some(path)) => Some(Refusal::TooMany { path }),
        (Some(hurt), Some(over)) => {
            if hurt < over {
                Some(Refusal::Damaged { path: hurt })
            } else {
                Some(Refusal::TooMany { path: over })
            }
        }
    }
}

// The store that was noted, where the walk met all of it and nothing is damaged.
fn store_from(alloc: Global, roots: &Roots, notes: Notes, met: &[Met]) -> Result<Store, AllocError>
    ensures { IfOk result (λ store. AreApart roots.now → (tree : Tree) → hurt roots.now tree ≡ None → IsWholeReading roots.now tree met.now notes
        → store ≡ store_of roots.now tree) }
{
    let chests = chests_of(alloc, roots, met)?;
    Ok(Store::of(notes.added, notes.builds, notes.installed, chests))
}

// What the reading says of the store.
fn answer(alloc: Global, roots: &Roots, reading: Reading) -> Result<Store, Stop>
    requires { AreApart roots.now }
    ensures read { (tree : Tree) → IsReading roots.now tree reading → IsRead result (read_of roots.now tree) }
    ensures faultless { IsErrOf result Stop.Fault → ⊥ }
{
    let Reading { walk, mut notes } = reading;
    match first_refusal(notes.hurt.take(), walk.over) {
        Some(refusal) => Err(Stop::Refused(refusal)),
        None => Ok(store_from(alloc, roots, notes, walk.met.as_slice())?),
    }
}

impl Store {
    /// Reads what stands below the dkms root. Refused for the first damaged path, or the first at which the walk
    /// passes a limit, whichever stands first in the order of paths; of two at one path it is the limit.
    pub fn read<W: World>(alloc: Global, world: &mut W, roots: &Roots) -> Result<Store, Stop>
        requires apart { AreApart roots.now }
        requires root { ForSome (W.state world.old).tree (λ tree. is_dir (node_at tree roots.now.dkms) ≡ true) }
        ensures { Gives (λ tree. read_of roots.now (public_tree roots.now tree)) (W.state world.old) (W.state world.new) result }
    {
        let reading = read_entries(alloc, world, roots)?;
        answer(alloc, roots, reading)
    }

    /// Reads what stands below the dkms root, however much it is, where nothing is damaged. It is never refused. Over
    /// a world that doesn't tell its tree it passes over what is damaged.
    pub fn reread<W: World>(alloc: Global, world: &mut W, roots: &Roots) -> Result<Store, Stop>
        requires apart { AreApart roots.now }
        requires root { ForSome (W.state world.old).tree (λ tree. is_dir (node_at tree roots.now.dkms) ≡ true) }
        requires sound { ForSome (W.state world.old).tree (λ tree. hurt roots.now (public_tree roots.now tree) ≡ None) }
        ensures store { Gives (λ tree. Ok (store_of roots.now (public_tree roots.now tree))) (W.state world.old) (W.state world.new) result }
        ensures unrefused { (refusal : Refusal) → IsErrOf result (Refused refusal) → ⊥ }
    {
        let met = walk_all(alloc, world, roots, &roots.dkms)?;
        let mut notes = Notes::new(alloc);
        note_all(alloc, world, roots, met.as_slice(), &mut notes)?;
        Ok(store_from(alloc, roots, notes, met.as_slice())?)
    }
}
