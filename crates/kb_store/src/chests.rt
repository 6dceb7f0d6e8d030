// The chests of a store, read from what a walk met.
ghost use Rattle.std.specs.Prelude.{◌≡◌, ◌++◌, ℕ, List, Some, IfOk, OnOk, map, filter_map};
ghost use Rattle.kb_world.specs.Path.{IsPath};
ghost use Rattle.kb_world.specs.Public.{is_private};
ghost use Rattle.kb_world.specs.Roots.{AreApart};
ghost use Rattle.kb_world.specs.Tree.{Tree};
ghost use Rattle.kb_store.specs.Chests as told;
ghost use Rattle.kb_store.specs.Contents.{at_place, chest_by, chest_files};
ghost use Rattle.kb_store.specs.Notes.{list_of};
ghost use Rattle.kb_walk.specs.Walking.{entries, met_at};

use crate::place::Places;
use crate::store::Chest;
use kb_walk::Met;
use kb_world::{Kind, Path, RelPath, Roots, Sequence, StorePath, Text};
use std::alloc::{AllocError, Global};

// The path with these names.
fn path_of(alloc: Global, names: &[Text]) -> Result<RelPath, AllocError>
    requires { IsPath names.now }
    ensures { IfOk result (λ path. path ≡ names.now) }
{
    Ok(RelPath::new(names.to_vec(alloc)?))
}

// The files under a directory that were met first, by their names below it.
fn files_in(alloc: Global, directory: &Path, met: &[Met]) -> Result<Places, AllocError>
    ensures { IfOk result (λ files. files ≡ told.files_in directory.now met.now) }
{
    let mut files = Sequence::new(alloc);
    for entry in met {
        match entry.path.below(directory) {
            Some(names) => {
                if matches!(entry.kind, Kind::File { .. }) {
                    files.push(path_of(alloc, names)?)?;
                }
            }
            None => return Ok(files),
        }
    }
    Ok(files)
}

// The chest whose directory is for this and has this path, and was met before these.
fn placed_chest(
    alloc: Global,
    place: StorePath,
    path: &Path,
    rest: &[Met],
) -> Result<Option<Chest>, AllocError>
    ensures { IfOk result (λ chest. chest ≡ chest_by (λ word spot. Some (told.files_in path.now rest.now)) place) }
{
    match place {
        StorePath::InChest(module, spot, names) => {
            if names.names().is_empty() {
                let files = files_in(alloc, path, rest)?;
                Ok(Some(Chest {
                    module,
                    spot,
                    files,
                }))
            } else {
                Ok(None)
            }
        }
        _ => Ok(None),
    }
}

// The chest whose directory was met, before these.
fn chest_met(
    alloc: Global,
    roots: &Roots,
    entry: &Met,
    rest: &[Met],
) -> Result<Option<Chest>, AllocError>
    ensures { IfOk result (λ chest. chest ≡ told.chest_met roots.now entry.now rest.now) }
{
    if !matches!(entry.kind, Kind::Dir) {
        return Ok(None);
    }
    match StorePath::of(alloc, roots, &entry.path)? {
        Some(place) => placed_chest(alloc, place, &entry.path, rest),
        None => Ok(None),
    }
}

// Adds the chest, if there is one.
fn push_some(chests: &mut Sequence<Chest>, chest: Option<Chest>) -> Result<(), AllocError>
    ensures { OnOk result (chests.new ≡ chests.old ++ list_of chest) }
{
    match chest {
        Some(chest) => chests.push(chest),
        None => Ok(()),
    }
}

// The chests of what was met.
fn chests_met(alloc: Global, roots: &Roots, met: &[Met]) -> Result<Sequence<Chest>, AllocError>
    ensures { IfOk result (λ chests. chests ≡ told.chests_met roots.now met.now) }
{
    let mut chests = Sequence::new(alloc);
    for (i, entry) in met.iter().enumerate() {
        let chest = chest_met(alloc, roots, entry, &met[i + 1..])?;
        push_some(&mut chests, chest)?;
    }
    Ok(chests)
}

/// The chests below the dkms root of a tree, from what a walk over all of it met.
pub(crate) fn chests_of(
    alloc: Global,
    roots: &Roots,
    met: &[Met],
) -> Result<Sequence<Chest>, AllocError>
    ensures { IfOk result (λ chests. AreApart roots.now → (tree : Tree) → met.now ≡ map (met_at tree) (entries tree (is_private roots.now) roots.now.dkms)
        → chests ≡ filter_map (at_place roots.now (chest_by (chest_files roots.now tree))) (entries tree (is_private roots.now) roots.now.dkms)) }
{
    chests_met(alloc, roots, met)
}
