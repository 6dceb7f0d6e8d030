// A disk in memory with its past.
ghost use Rattle.std.specs.Prelude.{◌≡◌, ℕ, ◌∷◌, None, is_some, not, filter, bytes_eq, take, IfOk, OnOk, OnErr, IsTrue};
ghost use Rattle.std.specs.List.{list_all, list_any};
ghost use Rattle.kb_world.specs.Area.{is_settled_by};
ghost use Rattle.kb_world.specs.Tree.{IsFormed, CanMake, node_at, moved, edited};

use crate::nodes::{Nodes, is_among};
use kb_world::{Area, Bytes, Edit, Node, Path, Sequence, Text};
use std::alloc::{AllocError, Global};

/// What undoes a change.
#[derive(Debug, Drop)]
pub enum Undo {
    /// A file was being put here, where nothing stood.
    Put(Path),
    /// This stood here.
    Was(Path, Option<Node>),
    /// It was moved from the first path to the second, at which this stood.
    Moved(Path, Path, Option<Node>),
    /// A child was given an area.
    Given,
    /// An area was settled, and before that these were soft.
    Settled(Sequence<Area>),
}

/// What stands where, which areas are soft, and what undoes each change so far, the oldest first. It tells what a crash
/// might have left at each moment before.
#[derive(Debug, Drop)]
pub struct Disk {
    nodes: Nodes,
    soft: Sequence<Area>,
    changes: Vec<Undo>,
    ghost formed: { IsFormed nodes },
}

// A copy of what stands at a path.
fn copy_at(nodes: &Nodes, path: &Path) -> Result<Option<Node>, AllocError>
    ensures { IfOk result (λ made. made ≡ node_at nodes.now path.now) }
{
    match nodes.get(path) {
        Some(node) => Ok(Some(node.clone()?)),
        None => Ok(None),
    }
}

fn copy_areas(alloc: Global, areas: &[Area]) -> Result<Sequence<Area>, AllocError>
    ensures { IfOk result (λ made. made ≡ areas.now) }
{
    let mut made = Sequence::new(alloc);
    for area in areas {
        made.push(area.clone()?)?;
    }
    Ok(made)
}

// The areas behind another one.
fn with_first(alloc: Global, first: &Area, areas: &[Area]) -> Result<Sequence<Area>, AllocError>
    ensures { IfOk result (λ made. made ≡ first.now ∷ areas.now) }
{
    let mut made = Sequence::new(alloc);
    made.push(first.clone()?)?;
    for area in areas {
        made.push(area.clone()?)?;
    }
    Ok(made)
}

fn are_among(others: &[Text], names: &[Text]) -> bool
    ensures { result ≡ list_all (λ name. list_any (bytes_eq name) names.now) others.now }
{
    others.iter().all(|name| is_among(name, names))
}

fn is_settled_by(area: &Area, other: &Area) -> bool
    ensures { result ≡ is_settled_by area.now other.now }
{
    match (area, other) {
        (_, Area::Nothing) => true,
        (Area::Under(outer), Area::Under(directory)) => directory.is_under(outer),
        (Area::Under(outer), Area::Names(directory, _)) => directory.is_under(outer),
        (Area::Names(outer, names), Area::Names(directory, others)) => {
            outer == directory && are_among(others.as_slice(), names.as_slice())
        }
        _ => false,
    }
}

// The areas that are still soft once this one is settled.
fn without_settled(alloc: Global, area: &Area, areas: &[Area]) -> Result<Sequence<Area>, AllocError>
    ensures { IfOk result (λ made. made ≡ filter (λ other. not (is_settled_by area.now other)) areas.now) }
{
    let mut made = Sequence::new(alloc);
    for other in areas {
        if !is_settled_by(area, other) {
            made.push(other.clone()?)?;
        }
    }
    Ok(made)
}

impl Disk {
    ghost use Rattle.kb_disk.specs.Stored.{stored_of, new_stored, restarted, with_change, with_put, with_failed_put, with_area, with_settled, with_effect, with_effects};

    /// The root directory alone.
    pub fn new(alloc: Global) -> Disk
        ensures { stored_of result ≡ new_stored }
    {
        Disk {
            nodes: Nodes::root_alone(alloc),
            soft: Sequence::new(alloc),
            changes: Vec::new(alloc),
        }
    }

    /// The same nodes, nothing soft, and nothing before.
    pub fn restarted(self, alloc: Global) -> Disk
        ensures { stored_of result ≡ restarted (stored_of self) }
    {
        Disk {
            nodes: self.nodes,
            soft: Sequence::new(alloc),
            changes: Vec::new(alloc),
        }
    }

    /// What stands where.
    pub fn nodes(&self) -> &Nodes
        ensures { result.now ≡ (stored_of self.now).tree }
    {
        &self.nodes
    }

    /// The areas that are soft, the last given first.
    pub fn soft(&self) -> &[Area]
        ensures { result.now ≡ (stored_of self.now).history.soft }
    {
        self.soft.as_slice()
    }

    /// Puts a node at the path, or takes away what is there. An error changes nothing.
    pub fn edit(&mut self, alloc: Global, path: &Path, node: Option<Node>) -> Result<(), AllocError>
        requires { IsFormed (edited path.now node (stored_of self.old).tree) }
        ensures ok { OnOk result (stored_of self.new ≡ with_change (edited path.now node) (stored_of self.old)) }
        ensures err { OnErr result (stored_of self.new ≡ stored_of self.old) }
    {
        let was = copy_at(&self.nodes, path)?;
        self.changes.push(Undo::Was(path.clone()?, was))?;
        match self.nodes.edit(alloc, path, node) {
            Ok(()) => Ok(()),
            Err(error) => {
                self.changes.pop();
                Err(error)
            }
        }
    }

    /// Puts a file of these bytes at the path. An error changes nothing.
    pub fn put(
        &mut self,
        alloc: Global,
        path: &Path,
        bytes: &[u8],
        exec: bool,
    ) -> Result<(), AllocError>
        requires { CanMake (stored_of self.old).tree path.now }
        ensures ok { OnOk result (stored_of self.new ≡ with_put path.now bytes.now exec (stored_of self.old)) }
        ensures err { OnErr result (stored_of self.new ≡ stored_of self.old) }
    {
        let bytes = Bytes::of(alloc, bytes)?;
        self.changes.push(Undo::Put(path.clone()?))?;
        let node = Some(Node::File { bytes, exec });
        match self.nodes.edit(alloc, path, node) {
            Ok(()) => Ok(()),
            Err(error) => {
                self.changes.pop();
                Err(error)
            }
        }
    }

    /// A file was being put at the path when the put failed, and none is there. An error changes nothing.
    pub fn fail_put(&mut self, path: &Path) -> Result<(), AllocError>
        requires { node_at (stored_of self.old).tree path.now ≡ None }
        ensures ok { OnOk result (stored_of self.new ≡ with_failed_put path.now (stored_of self.old)) }
        ensures err { OnErr result (stored_of self.new ≡ stored_of self.old) }
    {
        self.changes.push(Undo::Put(path.clone()?))?;
        Ok(())
    }

    /// Moves a node to another path, in place of what is there. An error changes nothing.
    pub fn rename(&mut self, alloc: Global, from: &Path, to: &Path) -> Result<(), AllocError>
        requires source { IsTrue (is_some (node_at (stored_of self.old).tree from.now)) }
        requires formed { IsFormed (moved from.now to.now (stored_of self.old).tree) }
        ensures ok { OnOk result (stored_of self.new ≡ with_change (moved from.now to.now) (stored_of self.old)) }
        ensures err { OnErr result (stored_of self.new ≡ stored_of self.old) }
    {
        let was = copy_at(&self.nodes, to)?;
        self.changes
            .push(Undo::Moved(from.clone()?, to.clone()?, was))?;
        match self.nodes.rename(alloc, from, to) {
            Ok(()) => Ok(()),
            Err(error) => {
                self.changes.pop();
                Err(error)
            }
        }
    }

    /// A child is given the area. An error changes nothing.
    pub fn give(&mut self, alloc: Global, area: &Area) -> Result<(), AllocError>
        ensures ok { OnOk result (stored_of self.new ≡ with_area area.now (stored_of self.old)) }
        ensures err { OnErr result (stored_of self.new ≡ stored_of self.old) }
    {
        let soft = with_first(alloc, area, self.soft.as_slice())?;
        self.changes.push(Undo::Given)?;
        self.soft = soft;
        Ok(())
    }

    /// What children left in the area is on the disk. An error changes nothing.
    pub fn settle(&mut self, alloc: Global, area: &Area) -> Result<(), AllocError>
        ensures ok { OnOk result (stored_of self.new ≡ with_settled area.now (stored_of self.old)) }
        ensures err { OnErr result (stored_of self.new ≡ stored_of self.old) }
    {
        let soft = without_settled(alloc, area, self.soft.as_slice())?;
        let was = copy_areas(alloc, self.soft.as_slice())?;
        self.changes.push(Undo::Settled(was))?;
        self.soft = soft;
        Ok(())
    }

    // Makes a child's edit where it can be made. An error changes nothing.
    fn edit_within(
        &mut self,
        alloc: Global,
        area: &Area,
        edit: Option<Edit>,
    ) -> Result<(), AllocError>
        ensures ok { OnOk result (stored_of self.new ≡ with_effect area.now (stored_of self.old) edit) }
        ensures err { OnErr result (stored_of self.new ≡ stored_of self.old) }
    {
        match edit {
            Some(Edit { path, at }) => {
                if self.nodes.can_edit(area, &path)? {
                    self.edit(alloc, &path, at)?;
                }
                Ok(())
            }
            None => Ok(()),
        }
    }

    /// Makes a child's edits in their order, each where it can be made. At an error those before it are made.
    pub fn edit_all(
        &mut self,
        alloc: Global,
        area: &Area,
        edits: Vec<Option<Edit>>,
    ) -> Result<(), AllocError>
        ensures ok { OnOk result (stored_of self.new ≡ with_effects area.now (stored_of self.old) edits.items) }
        ensures err { OnErr result ((n : ℕ) × (stored_of self.new ≡ with_effects area.now (stored_of self.old) (take n edits.items))) }
    {
        for edit in edits {
            self.edit_within(alloc, area, edit)?;
        }
        Ok(())
    }
}
