// The outside: a tree of files, and child programs.
ghost use Rattle.std.specs.Prelude.{◌≡◌, Some, IfOk, IsTrue};
ghost use Rattle.std.specs.List.{list_all};
ghost use Rattle.std.specs.Option.{ForSome};
ghost use Rattle.kb_world.specs.Moves.{CanMove};
ghost use Rattle.kb_world.specs.Names.{is_name};
ghost use Rattle.kb_world.specs.Tree.{node_at, with_node, without, moved, kind_of, link_text, file_bytes, children, is_dir, is_file, is_leaf, CanMake, IsEmptyDir, IsFormed};
ghost use Rattle.kb_world.specs.State.{State, Looks, Changes, Puts, Runs, Settles};
ghost use Rattle.kb_world.specs.declared.tree.Node.TheVariants.{Dir, Link};
ghost use Rattle.kb_world.specs.declared.world.WorldError.TheVariants.{NoMemory};

use crate::child::{Area, Reply, Request};
use crate::path::Path;
use crate::text::{Bytes, Text};
use crate::tree::Kind;
use std::alloc::{AllocError, AllocFailed, Global};

/// Why a call of a world didn't do its work.
#[derive(Clone, Copy, Debug, PartialEq, Eq)]
pub enum WorldError {
    /// The outside failed, or didn't meet the call's condition.
    Failed,
    NoMemory,
}

impl From<AllocError> for WorldError {
    ghost from_gives = { λ _ e. e ≡ NoMemory };

    fn from(_: AllocError) -> Self {
        WorldError::NoMemory
    }
}

impl<T: Drop> From<AllocFailed<T>> for WorldError {
    ghost from_gives = { λ _ e. e ≡ NoMemory };

    fn from(_: AllocFailed<T>) -> Self {
        WorldError::NoMemory
    }
}

/// A tree of files, what may be done to it, and child programs that read and change it. A world may tell its tree; the
/// conditions of calls bind their callers where it does. What a file operation left stands, whether it answered Ok or
/// failed.
pub trait World {
    /// All that the world means: its tree, its roots, its script, the requests so far, its count of faults, and whether
    /// it is steady.
    ghost state: { Self → State };

    /// What stands at the path: a link at its end isn't followed. Absent also where the parent isn't a directory.
    fn look(&mut self, alloc: Global, path: &Path) -> Result<Kind, WorldError>
        ensures kind { IfOk result (λ kind. ForSome (state self.old).tree (λ tree. kind ≡ kind_of (node_at tree path.now))) }
        ensures same { Looks (state self.old) (state self.new) result };

    /// The names of a directory's entries, each once, by bytes.
    fn list(&mut self, alloc: Global, path: &Path) -> Result<Vec<Text>, WorldError>
        requires { ForSome (state self.old).tree (λ tree. kind_of (node_at tree path.now) ≡ Kind.Dir) }
        ensures names { IfOk result (λ names. ForSome (state self.old).tree (λ tree. names.items ≡ children tree path.now)) }
        ensures named { IfOk result (λ names. IsTrue (list_all is_name names.items)) }
        ensures same { Looks (state self.old) (state self.new) result };

    /// All that the file at the path holds.
    fn read(&mut self, alloc: Global, path: &Path) -> Result<Bytes, WorldError>
        requires { ForSome (state self.old).tree (λ tree. IsTrue (is_file (node_at tree path.now))) }
        ensures bytes { IfOk result (λ bytes. ForSome (state self.old).tree (λ tree. file_bytes (node_at tree path.now) ≡ Some bytes)) }
        ensures same { Looks (state self.old) (state self.new) result };

    /// What the link at the path says.
    fn read_link(&mut self, alloc: Global, path: &Path) -> Result<Text, WorldError>
        requires { ForSome (state self.old).tree (λ tree. kind_of (node_at tree path.now) ≡ Kind.Link) }
        ensures text { IfOk result (λ text. ForSome (state self.old).tree (λ tree. link_text (node_at tree path.now) ≡ Some text)) }
        ensures same { Looks (state self.old) (state self.new) result };

    /// Makes a directory.
    fn make_dir(&mut self, alloc: Global, path: &Path) -> Result<(), WorldError>
        requires { ForSome (state self.old).tree (λ tree. CanMake tree path.now) }
        ensures made { Changes (with_node path.now Dir) (state self.old) (state self.new) result };

    /// Makes a file of these bytes, with or without the execute bit.
    fn put(
        &mut self,
        alloc: Global,
        path: &Path,
        bytes: &[u8],
        exec: bool,
    ) -> Result<(), WorldError>
        requires { ForSome (state self.old).tree (λ tree. CanMake tree path.now) }
        ensures made { Puts path.now bytes.now exec (state self.old) (state self.new) result };

    /// Makes a link with this text.
    fn put_link(&mut self, alloc: Global, path: &Path, text: &str) -> Result<(), WorldError>
        requires { ForSome (state self.old).tree (λ tree. CanMake tree path.now) }
        ensures made { Changes (with_node path.now (Link text.now)) (state self.old) (state self.new) result };

    /// Moves a file or a link to another path below the same root, in place of nothing, a file or a link.
    fn rename(&mut self, alloc: Global, from: &Path, to: &Path) -> Result<(), WorldError>
        requires { ForSome (state self.old).tree (λ tree. CanMove (state self.old).roots tree from.now to.now) }
        ensures moved { Changes (moved from.now to.now) (state self.old) (state self.new) result };

    /// Takes a file or a link away.
    fn unlink(&mut self, alloc: Global, path: &Path) -> Result<(), WorldError>
        requires { ForSome (state self.old).tree (λ tree. IsTrue (is_leaf (node_at tree path.now))) }
        ensures gone { Changes (without path.now) (state self.old) (state self.new) result };

    /// Takes an empty directory away.
    fn remove_dir(&mut self, alloc: Global, path: &Path) -> Result<(), WorldError>
        requires { ForSome (state self.old).tree (λ tree. IsEmptyDir tree path.now) }
        ensures gone { Changes (without path.now) (state self.old) (state self.new) result };

    /// Runs a child program to its end.
    fn run(&mut self, alloc: Global, request: &Request) -> Result<Reply, WorldError>
        requires { ForSome (state self.old).tree (λ tree. IsTrue (is_dir (node_at tree request.now.dir))) }
        ensures { Runs request.now (state self.old) (state self.new) result };

    /// Waits until what children left in the area is on the disk.
    fn settle(&mut self, alloc: Global, area: &Area) -> Result<(), WorldError>
        ensures settled { Settles area.now (state self.old) (state self.new) result };

    /// A tree that is told is formed: what stands there stands in a directory.
    ghost formed: { (world : Self) → ForSome (state world).tree IsFormed };
}
