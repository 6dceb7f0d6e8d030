// The nodes of a tree, by their paths.
ghost use Rattle.std.specs.Prelude.{◌≡◌, ℕ, Some, None, is_some, take, bytes_eq, IfOk, OnOk, OnErr, IsTrue};
ghost use Rattle.std.specs.List.{list_all, list_any};
ghost use Rattle.std.specs.Option.{option_copied};
ghost use Rattle.kb_world.specs.Names.{is_name};
ghost use Rattle.kb_world.specs.Area.{holds, is_named};
ghost use Rattle.kb_world.specs.Script.{can_edit};
ghost use Rattle.kb_world.specs.Tree.{node_at, with_node, without, moved, edited, kind_of, link_text, children, is_dir};
ghost use Rattle.kb_disk.specs.Edits.{root_alone, tree_from, tree_with};

use kb_world::{Area, Kind, Node, Path, Text};
use std::alloc::{AllocError, Global};
use std::collections::BTreeMap;
use std::marker::Model;
use std::ops::Bound;

/// A tree, as a map that finds a path in time that grows with the logarithm of its size.
#[derive(Debug, Drop)]
pub struct Nodes {
    /// What stands at the root, where nothing else stands: the map has no entry then, and so wants no memory.
    alone: Option<Node>,
    map: BTreeMap<Path, Node>,
}

impl Model for Nodes {
    ghost use Rattle.kb_world.specs.Tree.{Tree};
    ghost use Rattle.kb_disk.specs.Coded.{tree_code};
    ghost use Rattle.kb_disk.specs.Edits.{tree_with};

    ghost Value = { Tree };

    ghost coded = { tree_code };

    ghost view = { λ nodes. tree_with nodes.alone nodes.map.entries };
}

// Gives the root an entry of its own in the map. An error changes nothing.
fn spread(
    alloc: Global,
    alone: &mut Option<Node>,
    map: &mut BTreeMap<Path, Node>,
) -> Result<(), AllocError>
    ensures ok { OnOk result (tree_from map.new.entries ≡ tree_with alone.old map.old.entries) }
    ensures none { OnOk result (alone.new ≡ None) }
    ensures err { OnErr result (alone.new ≡ alone.old) }
    ensures kept { OnErr result (map.new.entries ≡ map.old.entries) }
{
    if let Some(node) = alone {
        let mut entries = BTreeMap::new(alloc);
        entries.insert(Path::root(alloc), node.clone()?)?;
        *map = entries;
        *alone = None;
    }
    Ok(())
}

impl Nodes {
    /// The root directory alone.
    pub fn root_alone(alloc: Global) -> Nodes
        ensures { result ≡ root_alone }
    {
        Nodes {
            alone: Some(Node::Dir),
            map: BTreeMap::new(alloc),
        }
    }

    /// What stands at the path.
    pub fn get(&self, path: &Path) -> Option<&Node>
        ensures { option_copied result ≡ node_at self.now path.now }
    {
        match &self.alone {
            Some(node) => {
                if path.names().is_empty() {
                    Some(node)
                } else {
                    None
                }
            }
            None => self.map.get(path),
        }
    }

    /// What a look at the path tells.
    pub fn kind(&self, path: &Path) -> Kind
        ensures { result ≡ kind_of (node_at self.now path.now) }
    {
        match self.get(path) {
            None => Kind::Absent,
            Some(Node::Dir) => Kind::Dir,
            Some(Node::File { bytes, exec }) => Kind::File {
                len: bytes.as_slice().len() as u64,
                exec: *exec,
            },
            Some(Node::Link { .. }) => Kind::Link,
        }
    }

    /// What the link at the path says, if a link stands there.
    pub fn link_text(&self, path: &Path) -> Option<&Text>
        ensures { option_copied result ≡ link_text (node_at self.now path.now) }
    {
        match self.get(path) {
            Some(Node::Link { text }) => Some(text),
            Some(Node::Dir) | Some(Node::File { .. }) | None => None,
        }
    }

    /// Puts a node at the path, and answers what stood there. An error changes nothing.
    fn put(&mut self, alloc: Global, path: &Path, node: Node) -> Result<Option<Node>, AllocError>
        ensures before { IfOk result (λ before. before ≡ node_at self.old path.now) }
        ensures ok { OnOk result (self.new ≡ with_node path.now node self.old) }
        ensures err { OnErr result (self.new ≡ self.old) }
    {
        let key = path.clone()?;
        spread(alloc, &mut self.alone, &mut self.map)?;
        Ok(self.map.insert(key, node)?)
    }

    // Takes away what stands at the path. An error changes nothing.
    fn take(&mut self, alloc: Global, path: &Path) -> Result<(), AllocError>
        ensures ok { OnOk result (self.new ≡ without path.now self.old) }
        ensures err { OnErr result (self.new ≡ self.old) }
    {
        spread(alloc, &mut self.alone, &mut self.map)?;
        self.map.remove(path);
        Ok(())
    }

    /// Puts a node at the path, or takes away what is there. An error changes nothing.
    pub fn edit(&mut self, alloc: Global, path: &Path, node: Option<Node>) -> Result<(), AllocError>
        ensures ok { OnOk result (self.new ≡ edited path.now node self.old) }
        ensures err { OnErr result (self.new ≡ self.old) }
    {
        match node {
            Some(node) => {
                self.put(alloc, path, node)?;
                Ok(())
            }
            None => self.take(alloc, path),
        }
    }

    /// The names of the directory's entries, by bytes. What is below a path stands behind it in the map, and so what
    /// isn't ends the search.
    pub fn children(&self, alloc: Global, path: &Path) -> Result<Vec<Text>, AllocError>
        ensures names { IfOk result (λ names. names.items ≡ children self.now path.now) }
        ensures named { IfOk result (λ names. IsTrue (list_all is_name names.items)) }
    {
        let mut names = Vec::new(alloc);
        if self.alone.is_some() {
            return Ok(names);
        }
        for (entry, _) in self.map.range((Bound::Excluded(path), Bound::Unbounded)) {
            if !entry.is_under(path) {
                return Ok(names);
            }
            if let Some(name) = entry.name_in(path) {
                names.push(name.clone()?)?;
            }
        }
        Ok(names)
    }

    /// Moves a node to another path, in place of what is there. An error changes nothing.
    pub fn rename(&mut self, alloc: Global, from: &Path, to: &Path) -> Result<(), AllocError>
        requires { IsTrue (is_some (node_at self.old from.now)) }
        ensures ok { OnOk result (self.new ≡ moved from.now to.now self.old) }
        ensures err { OnErr result (self.new ≡ self.old) }
    {
        if from == to {
            return Ok(());
        }
        let node = match self.get(from) {
            Some(node) => node.clone()?,
            None => unreachable!(),
        };
        let key = to.clone()?;
        spread(alloc, &mut self.alone, &mut self.map)?;
        self.map.insert(key, node)?;
        self.map.remove(from);
        Ok(())
    }

    fn is_dir(&self, path: &Path) -> bool
        ensures { result ≡ is_dir (node_at self.now path.now) }
    {
        matches!(self.get(path), Some(Node::Dir))
    }

    // Whether the path is in the area.
    fn holds(&self, area: &Area, path: &Path) -> bool
        ensures { result ≡ holds area.now self.now path.now }
    {
        match area {
            Area::Nothing => false,
            Area::Under(directory) => path.is_under(directory),
            Area::Names(directory, names) => {
                is_named(directory, names.as_slice(), path) && !self.is_dir(path)
            }
        }
    }

    /// Whether an edit can be done at the path by a child that was given the area.
    pub fn can_edit(&self, area: &Area, path: &Path) -> Result<bool, AllocError>
        ensures { IfOk result (λ can. can ≡ can_edit area.now self.now path.now) }
    {
        Ok(self.holds(area, path) && !self.is_dir(path) && self.is_dir(&path.parent()?))
    }
}

// Whether the path is that of one of these names in the directory.
fn is_named(directory: &Path, names: &[Text], path: &Path) -> bool
    ensures { result ≡ is_named directory.now names.now path.now }
{
    match path.name_in(directory) {
        Some(name) => is_among(name, names),
        None => false,
    }
}

pub fn is_among(name: &Text, names: &[Text]) -> bool
    ensures { result ≡ list_any (bytes_eq name.now) names.now }
{
    names.iter().any(|other| name == other)
}
