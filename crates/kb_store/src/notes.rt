// What the entries below the dkms root tell, gathered.
ghost use Rattle.std.specs.Prelude.{◌≡◌, ◌∷◌, [], List, ℕ, not, map, filter, OnOk, IsTrue};
ghost use Rattle.std.specs.List.{list_all};
ghost use Rattle.std.specs.Option.{ForSome};
ghost use Rattle.kb_world.specs.Names.{is_word};
ghost use Rattle.kb_world.specs.Tree.{node_at, is_file};
ghost use Rattle.kb_world.specs.Path.{child};
ghost use Rattle.kb_world.specs.State.{Looks};
ghost use Rattle.kb_world.specs.StorePath.{is_key, is_spot, is_ruled, path_of};
ghost use Rattle.kb_world.specs.Store.{link_path};
ghost use Rattle.kb_world.specs.Targets.{is_place};
ghost use Rattle.kb_world.specs.Targets as targets;
ghost use Rattle.kb_store.specs.Notes.{IsKindOf, AreKinds, no_notes, harmed, source_noted, link_noted, absence_noted, box_noted, place_noted, noted, noted_all};

use crate::entries::{is_added, linked_at, places_at};
use crate::place::last_name;
use crate::store::{Build, Installation};
use kb_walk::Met;
use kb_world::{
    Key, Kind, Path, RelPath, Roots, Sequence, Spot, StorePath, Text, World, WorldError,
};
use std::alloc::{AllocError, Global};

/// What the entries so far told of a store: its parts, where it isn't damaged, and the first damaged path.
#[derive(Debug, Drop)]
pub struct Notes {
    pub added: Sequence<Key>,
    pub builds: Sequence<Build>,
    pub installed: Sequence<Installation>,
    pub hurt: Option<Path>,
}

impl Notes {
    /// Nothing is noted yet.
    pub(crate) fn new(alloc: Global) -> Notes
        ensures { result ≡ no_notes }
    {
        Notes {
            added: Sequence::new(alloc),
            builds: Sequence::new(alloc),
            installed: Sequence::new(alloc),
            hurt: None,
        }
    }

    // Notes that the path is damaged.
    fn add_harm(&mut self, path: &Path) -> Result<(), AllocError>
        ensures { OnOk result (self.new ≡ harmed self.old (path.now ∷ [])) }
    {
        match &self.hurt {
            Some(first) => {
                if path < first {
                    self.hurt = Some(path.clone()?);
                }
            }
            None => self.hurt = Some(path.clone()?),
        }
        Ok(())
    }
}

// Notes what stands at a version's link.
fn note_source<W: World>(
    alloc: Global,
    world: &mut W,
    roots: &Roots,
    key: Key,
    link: &Met,
    notes: &mut Notes,
) -> Result<(), WorldError>
    requires named { IsTrue (is_key key) }
    requires there { link.now.path ≡ link_path roots.now key }
    requires kind { ForSome (W.state world.old).tree (λ tree. IsKindOf tree link.now) }
    ensures noted { OnOk result (ForSome (W.state world.old).tree (λ tree. notes.new ≡ source_noted roots.now tree notes.old key)) }
    ensures same { Looks (W.state world.old) (W.state world.new) result }
{
    if is_added(alloc, world, roots, &key, link)? {
        notes.added.push(key)?;
    } else {
        notes.add_harm(&link.path)?;
    }
    Ok(())
}

// Notes what stands at a module's link for a spot.
fn note_link<W: World>(
    alloc: Global,
    world: &mut W,
    roots: &Roots,
    module: Text,
    spot: Spot,
    notes: &mut Notes,
) -> Result<(), WorldError>
    requires worded { IsTrue (is_word «module») }
    requires spotted { IsTrue (is_spot spot) }
    ensures noted { OnOk result (ForSome (W.state world.old).tree (λ tree. notes.new ≡ link_noted roots.now tree notes.old «module» spot)) }
    ensures same { Looks (W.state world.old) (W.state world.new) result }
{
    match linked_at(alloc, world, roots, &module, &spot)? {
        Some(version) => notes.installed.push(Installation {
            module,
            spot,
            version,
        })?,
        None => {
            let link = roots.kernel_link(alloc, &module, &spot)?;
            notes.add_harm(&link)?;
        }
    }
    Ok(())
}

// Notes a version's link, where nothing stands there.
fn note_absence<W: World>(
    alloc: Global,
    world: &mut W,
    roots: &Roots,
    key: &Key,
    notes: &mut Notes,
) -> Result<(), WorldError>
    requires { IsTrue (is_key key.now) }
    ensures noted { OnOk result (ForSome (W.state world.old).tree (λ tree. notes.new ≡ absence_noted roots.now tree notes.old key.now)) }
    ensures same { Looks (W.state world.old) (W.state world.new) result }
{
    let link = roots.source_link(alloc, key)?;
    match world.look(alloc, &link)? {
        Kind::Absent => Ok(notes.add_harm(&link)?),
        _ => Ok(()),
    }
}

// Notes the module's file of a place, where it is no file.
fn note_file<W: World>(
    alloc: Global,
    world: &mut W,
    modules: &Path,
    place: &RelPath,
    notes: &mut Notes,
) -> Result<(), WorldError>
    requires { IsTrue (is_place place.now) }
    ensures noted { OnOk result (ForSome (W.state world.old).tree (λ tree.
        notes.new ≡ harmed notes.old (filter (λ file. not (is_file (node_at tree file))) (child modules.now (targets.last_name place.now) ∷ [])))) }
    ensures same { Looks (W.state world.old) (W.state world.new) result }
{
    let file = modules.child(alloc, last_name(place))?;
    match world.look(alloc, &file)? {
        Kind::File { .. } => Ok(()),
        _ => Ok(notes.add_harm(&file)?),
    }
}

// Notes the modules' files of these places that are no files.
fn note_files<W: World>(
    alloc: Global,
    world: &mut W,
    modules: &Path,
    places: &[RelPath],
    notes: &mut Notes,
) -> Result<(), WorldError>
    requires { IsTrue (list_all is_place places.now) }
    ensures noted { OnOk result (ForSome (W.state world.old).tree (λ tree.
        notes.new ≡ harmed notes.old (filter (λ file. not (is_file (node_at tree file))) (map (λ place. child modules.now (targets.last_name place)) places.now)))) }
    ensures same { Looks (W.state world.old) (W.state world.new) result }
{
    for place in places {
        note_file(alloc, world, modules, place, notes)?;
    }
    Ok(())
}

// Notes what stands at a build's `targets`.
fn note_box<W: World>(
    alloc: Global,
    world: &mut W,
    roots: &Roots,
    key: Key,
    spot: Spot,
    notes: &mut Notes,
) -> Result<(), WorldError>
    requires named { IsTrue (is_key key) }
    requires spotted { IsTrue (is_spot spot) }
    ensures noted { OnOk result (ForSome (W.state world.old).tree (λ tree. notes.new ≡ box_noted roots.now tree notes.old key spot)) }
    ensures same { Looks (W.state world.old) (W.state world.new) result }
{
    note_absence(alloc, world, roots, &key, notes)?;
    let path = roots.targets(alloc, &key, &spot)?;
    match places_at(alloc, world, &path)? {
        Some(targets) => {
            let modules = roots.modules_dir(alloc, &key, &spot)?;
            note_files(alloc, world, &modules, targets.as_slice(), notes)?;
            notes.builds.push(Build { key, spot, targets })?;
        }
        None => notes.add_harm(&path)?,
    }
    Ok(())
}

// Notes what stands at the entry's path, which is for this.
fn note_place<W: World>(
    alloc: Global,
    world: &mut W,
    roots: &Roots,
    place: StorePath,
    entry: &Met,
    notes: &mut Notes,
) -> Result<(), WorldError>
    requires ruled { IsTrue (is_ruled place) }
    requires there { entry.now.path ≡ path_of roots.now place }
    requires kind { ForSome (W.state world.old).tree (λ tree. IsKindOf tree entry.now) }
    ensures noted { OnOk result (ForSome (W.state world.old).tree (λ tree. notes.new ≡ place_noted roots.now tree notes.old place)) }
    ensures same { Looks (W.state world.old) (W.state world.new) result }
{
    match place {
        StorePath::SourceLink(key) => note_source(alloc, world, roots, key, entry, notes),
        StorePath::Targets(key, spot) => note_box(alloc, world, roots, key, spot, notes),
        StorePath::KernelLink(module, spot) => {
            note_link(alloc, world, roots, module, spot, notes)
        }
        _ => Ok(()),
    }
}

/// Notes what stands at the entry's path.
pub(crate) fn note<W: World>(
    alloc: Global,
    world: &mut W,
    roots: &Roots,
    entry: &Met,
    notes: &mut Notes,
) -> Result<(), WorldError>
    requires { ForSome (W.state world.old).tree (λ tree. IsKindOf tree entry.now) }
    ensures noted { OnOk result (ForSome (W.state world.old).tree (λ tree. notes.new ≡ noted roots.now tree notes.old entry.now.path)) }
    ensures same { Looks (W.state world.old) (W.state world.new) result }
{
    match StorePath::of(alloc, roots, &entry.path)? {
        Some(place) => note_place(alloc, world, roots, place, entry, notes),
        None => Ok(()),
    }
}

/// Notes what stands at the paths of these entries, in order.
pub(crate) fn note_all<W: World>(
    alloc: Global,
    world: &mut W,
    roots: &Roots,
    met: &[Met],
    notes: &mut Notes,
) -> Result<(), WorldError>
    requires { ForSome (W.state world.old).tree (λ tree. AreKinds tree met.now) }
    ensures noted { OnOk result (ForSome (W.state world.old).tree (λ tree.
        notes.new ≡ noted_all roots.now tree notes.old (map (λ entry. entry.path) met.now))) }
    ensures same { Looks (W.state world.old) (W.state world.new) result }
{
    for entry in met {
        note(alloc, world, roots, entry, notes)?;
    }
    Ok(())
}
