// A world in memory.
ghost use Rattle.std.specs.Prelude.{◌≡◌, ◌≤◌, ◌^◌, length, false, [], Some, None, IfOk, OnOk, OnErr, IsErrOf, IsTrue};
ghost use Rattle.std.specs.List.{list_all};
ghost use Rattle.std.specs.Option.{option_copied, ForSome};
ghost use Rattle.kb_world.specs.Area.{IsLeft};
ghost use Rattle.kb_world.specs.Moves.{CanMove};
ghost use Rattle.kb_world.specs.Names.{is_name};
ghost use Rattle.kb_world.specs.Script.{tree_after};
ghost use Rattle.kb_world.specs.Tree.{IsFormed, IsEmptyDir, CanMake, node_at, with_node, without, moved, edited, kind_of, link_text, file_bytes, children, is_dir, is_file, is_leaf};
ghost use Rattle.kb_world.specs.State.{Looks, Changes, Puts, Runs, Settles};
ghost use Rattle.kb_world.specs.declared.tree.Node.TheVariants.{Dir, Link};
ghost use Rattle.kb_world.specs.declared.world.WorldError.TheVariants.{Failed, NoMemory};
ghost use Rattle.kb_disk.specs.Edits.{CanPlace};
ghost use Rattle.kb_disk.specs.Stored.{with_change};
ghost use Rattle.kb_memory.specs.Calls.{halted, halted_put, fate_of};
ghost use Rattle.kb_memory.specs.Lost.{effects_of, lost_state};
ghost use Rattle.kb_memory.specs.Plan.{is_over};

use crate::calls::{Calls, Fate};
use crate::lose::lose_in;
use crate::script::perform;
use kb_disk::Disk;
use kb_world::{
    Area, Bytes, EffectRow, Kind, Node, Path, Reply, Request, Roots, Text, World, WorldError,
};
use std::alloc::{AllocError, Global};

/// A tree that is kept in memory, with the script of its children and what is planned for its calls. It tells its tree,
/// and what a crash may leave of it.
#[derive(Debug, Drop)]
pub struct MemoryWorld {
    disk: Disk,
    roots: Roots,
    script: Vec<EffectRow>,
    ran: Vec<Request>,
    calls: Calls,
}

impl MemoryWorld {
    ghost use Rattle.kb_memory.specs.World.{state_of, tree_of, disk_of, plan_of, no_plan, new_state, FollowsPlan, Begins, uncut};

    /// A world with these roots, whose children do what the script says: the root directory alone, no request so far,
    /// and no call that is to fail.
    pub fn new(alloc: Global, roots: Roots, script: Vec<EffectRow>) -> MemoryWorld
        requires { length (effects_of script.items) ≤ 2 ^ 31 }
        ensures state { state_of result ≡ new_state roots script.items }
        ensures plan { plan_of result ≡ no_plan }
    {
        MemoryWorld {
            disk: Disk::new(alloc),
            roots,
            script,
            ran: Vec::new(alloc),
            calls: Calls::none(alloc),
        }
    }

    /// An edit from outside: this node at the path, or none. It is no call of the world, so it doesn't count as one. A
    /// crash afterwards finds it done.
    pub fn place(
        &mut self,
        alloc: Global,
        path: &Path,
        node: Option<Node>,
    ) -> Result<(), AllocError>
        requires { CanPlace (tree_of self.old) path.now }
        ensures ok { OnOk result (disk_of self.new ≡ with_change (edited path.now node) (disk_of self.old)) }
        ensures err { OnErr result (disk_of self.new ≡ disk_of self.old) }
        ensures others { state_of self.new ≡ record (state_of self.old) { tree = Some (tree_of self.new); history = (state_of self.new).history } }
        ensures plan { plan_of self.new ≡ plan_of self.old }
    {
        self.disk.edit(alloc, path, node)
    }

    /// Makes the calls with these numbers fail, counted from 1 from the next call on. What was planned before is
    /// forgotten.
    pub fn fail_at(&mut self, calls: Vec<u64>)
        ensures state { state_of self.new ≡ record (state_of self.old) { steady = is_over calls.items } }
        ensures plan { plan_of self.new ≡ record { due = calls.items; halt = None } }
    {
        self.calls.fail(calls);
    }

    /// Lets so many calls pass, and makes each later one fail. The first that fails is cut off, and leaves what the
    /// choice says. What was planned before is forgotten.
    pub fn halt_after(&mut self, alloc: Global, passed: u64, choice: u64)
        ensures state { state_of self.new ≡ record (state_of self.old) { steady = false } }
        ensures plan { plan_of self.new ≡ record { due = []; halt = Some (record { left = passed; choice = Some choice }) } }
    {
        self.calls.halt(alloc, passed, choice);
    }

    /// The world after a crash at this moment, of which the choice says what it leaves.
    pub fn lose(self, alloc: Global, choice: u64) -> Result<MemoryWorld, AllocError>
        ensures state { IfOk result (λ made. state_of made ≡ lost_state choice (state_of self)) }
        ensures plan { IfOk result (λ made. plan_of made ≡ no_plan) }
        ensures image { IfOk result (λ made. IsLeft (state_of self).history.soft (tree_of self) (tree_of made)) }
    {
        let MemoryWorld {
            mut disk,
            roots,
            script,
            ran,
            mut calls,
        } = self;
        lose_in(alloc, &mut disk, &script, choice)?;
        calls.fail(Vec::new(alloc));
        Ok(MemoryWorld {
            disk: disk.restarted(alloc),
            roots,
            script,
            ran,
            calls,
        })
    }

    /// What stands at the path. It is no call of the world.
    pub fn node(&self, path: &Path) -> Option<&Node>
        ensures { option_copied result ≡ node_at (tree_of self.now) path.now }
    {
        self.disk.nodes().get(path)
    }

    /// The requests for children so far, in order.
    pub fn requests(&self) -> &[Request]
        ensures { result.now ≡ (state_of self.now).ran }
    {
        &self.ran
    }

    // A call that only looks begins so: it fails where it is to.
    fn begin(&mut self) -> Result<(), WorldError>
        ensures disk { disk_of self.new ≡ disk_of self.old }
        ensures looks { Looks (state_of self.old) (state_of self.new) result }
        ensures plan { FollowsPlan uncut self.old self.new result }
        ensures goes_on { OnErr result (IsErrOf result Failed) }
    {
        self.calls.next().end()
    }

    // A call that puts a node at the path, or takes away what is there.
    fn edit(&mut self, alloc: Global, path: &Path, node: Option<Node>) -> Result<(), WorldError>
        requires { IsFormed (edited path.now node (tree_of self.old)) }
        ensures changes { Changes (edited path.now node) (state_of self.old) (state_of self.new) result }
        ensures plan { FollowsPlan (halted (edited path.now node)) self.old self.new result }
    {
        let fate = self.calls.next();
        if fate.is_done() {
            self.disk.edit(alloc, path, node)?;
        }
        fate.end()
    }

    // A call that finds no memory before anything is done.
    fn give_up(&mut self) -> Result<(), WorldError>
        ensures looks { Looks (state_of self.old) (state_of self.new) result }
        ensures plan { FollowsPlan uncut self.old self.new result }
        ensures no_memory { IsErrOf result NoMemory }
    {
        self.calls.next();
        Err(WorldError::NoMemory)
    }

    // A run begins so: it counts as a call, its request is recorded, and its area is soft from now on, also where it
    // fails. It answers what is to become of the call.
    fn begin_run(&mut self, alloc: Global, request: &Request) -> Result<Fate, AllocError>
        ensures fate { IfOk result (λ fate. fate ≡ fate_of (plan_of self.old)) }
        ensures begins { Begins request.now self.old self.new result }
    {
        let fate = self.calls.next();
        self.ran.push(request.clone()?)?;
        self.disk.give(alloc, &request.area)?;
        Ok(fate)
    }
}

impl World for MemoryWorld {
    ghost use Rattle.kb_memory.specs.World.{state_of, plan_of, told_formed, FollowsPlan, uncut};

    ghost state = { state_of };

    ghost formed = { told_formed };

    fn look(&mut self, _alloc: Global, path: &Path) -> Result<Kind, WorldError>
        ensures kind { IfOk result (λ kind. ForSome (state_of self.old).tree (λ tree. kind ≡ kind_of (node_at tree path.now))) }
        ensures same { Looks (state_of self.old) (state_of self.new) result }
        ensures plan { FollowsPlan uncut self.old self.new result }
    {
        self.begin()?;
        Ok(self.disk.nodes().kind(path))
    }

    fn list(&mut self, alloc: Global, path: &Path) -> Result<Vec<Text>, WorldError>
        requires { ForSome (state_of self.old).tree (λ tree. kind_of (node_at tree path.now) ≡ Kind.Dir) }
        ensures names { IfOk result (λ names. ForSome (state_of self.old).tree (λ tree. names.items ≡ children tree path.now)) }
        ensures named { IfOk result (λ names. IsTrue (list_all is_name names.items)) }
        ensures same { Looks (state_of self.old) (state_of self.new) result }
        ensures plan { FollowsPlan uncut self.old self.new result }
    {
        self.begin()?;
        Ok(self.disk.nodes().children(alloc, path)?)
    }

    fn read(&mut self, _alloc: Global, path: &Path) -> Result<Bytes, WorldError>
        requires { ForSome (state_of self.old).tree (λ tree. IsTrue (is_file (node_at tree path.now))) }
        ensures bytes { IfOk result (λ bytes. ForSome (state_of self.old).tree (λ tree. file_bytes (node_at tree path.now) ≡ Some bytes)) }
        ensures same { Looks (state_of self.old) (state_of self.new) result }
        ensures plan { FollowsPlan uncut self.old self.new result }
    {
        self.begin()?;
        match self.disk.nodes().get(path) {
            Some(Node::File { bytes, .. }) => Ok(bytes.clone()?),
            _ => unreachable!(),
        }
    }

    fn read_link(&mut self, _alloc: Global, path: &Path) -> Result<Text, WorldError>
        requires { ForSome (state_of self.old).tree (λ tree. kind_of (node_at tree path.now) ≡ Kind.Link) }
        ensures text { IfOk result (λ text. ForSome (state_of self.old).tree (λ tree. link_text (node_at tree path.now) ≡ Some text)) }
        ensures same { Looks (state_of self.old) (state_of self.new) result }
        ensures plan { FollowsPlan uncut self.old self.new result }
    {
        self.begin()?;
        match self.disk.nodes().link_text(path) {
            Some(text) => Ok(text.clone()?),
            None => unreachable!(),
        }
    }

    fn make_dir(&mut self, alloc: Global, path: &Path) -> Result<(), WorldError>
        requires { ForSome (state_of self.old).tree (λ tree. CanMake tree path.now) }
        ensures made { Changes (with_node path.now Dir) (state_of self.old) (state_of self.new) result }
        ensures plan { FollowsPlan (halted (with_node path.now Dir)) self.old self.new result }
    {
        self.edit(alloc, path, Some(Node::Dir))
    }

    fn put(
        &mut self,
        alloc: Global,
        path: &Path,
        bytes: &[u8],
        exec: bool,
    ) -> Result<(), WorldError>
        requires { ForSome (state_of self.old).tree (λ tree. CanMake tree path.now) }
        ensures made { Puts path.now bytes.now exec (state_of self.old) (state_of self.new) result }
        ensures plan { FollowsPlan (halted_put path.now bytes.now exec) self.old self.new result }
    {
        let fate = self.calls.next();
        match fate.written(bytes) {
            Some(bytes) => self.disk.put(alloc, path, bytes, exec)?,
            None => self.disk.fail_put(path)?,
        }
        fate.end()
    }

    fn put_link(&mut self, alloc: Global, path: &Path, text: &str) -> Result<(), WorldError>
        requires { ForSome (state_of self.old).tree (λ tree. CanMake tree path.now) }
        ensures made { Changes (with_node path.now (Link text.now)) (state_of self.old) (state_of self.new) result }
        ensures plan { FollowsPlan (halted (with_node path.now (Link text.now))) self.old self.new result }
    {
        match Text::of(alloc, text) {
            Ok(text) => self.edit(alloc, path, Some(Node::Link { text })),
            Err(_) => self.give_up(),
        }
    }

    fn rename(&mut self, alloc: Global, from: &Path, to: &Path) -> Result<(), WorldError>
        requires { ForSome (state_of self.old).tree (λ tree. CanMove (state_of self.old).roots tree from.now to.now) }
        ensures moved { Changes (moved from.now to.now) (state_of self.old) (state_of self.new) result }
        ensures plan { FollowsPlan (halted (moved from.now to.now)) self.old self.new result }
    {
        let fate = self.calls.next();
        if fate.is_done() {
            self.disk.rename(alloc, from, to)?;
        }
        fate.end()
    }

    fn unlink(&mut self, alloc: Global, path: &Path) -> Result<(), WorldError>
        requires { ForSome (state_of self.old).tree (λ tree. IsTrue (is_leaf (node_at tree path.now))) }
        ensures gone { Changes (without path.now) (state_of self.old) (state_of self.new) result }
        ensures plan { FollowsPlan (halted (without path.now)) self.old self.new result }
    {
        self.edit(alloc, path, None)
    }

    fn remove_dir(&mut self, alloc: Global, path: &Path) -> Result<(), WorldError>
        requires { ForSome (state_of self.old).tree (λ tree. IsEmptyDir tree path.now) }
        ensures gone { Changes (without path.now) (state_of self.old) (state_of self.new) result }
        ensures plan { FollowsPlan (halted (without path.now)) self.old self.new result }
    {
        self.edit(alloc, path, None)
    }

    fn run(&mut self, alloc: Global, request: &Request) -> Result<Reply, WorldError>
        requires { ForSome (state_of self.old).tree (λ tree. IsTrue (is_dir (node_at tree request.now.dir))) }
        ensures ran { Runs request.now (state_of self.old) (state_of self.new) result }
        ensures plan { FollowsPlan (halted (tree_after (state_of self.old).roots (state_of self.old).script request.now)) self.old self.new result }
    {
        let fate = self.begin_run(alloc, request)?;
        if !fate.is_done() {
            return Err(WorldError::Failed);
        }
        let reply = perform(alloc, &mut self.disk, &self.roots, &self.script, request)?;
        if fate.passes() {
            Ok(reply)
        } else {
            Err(WorldError::Failed)
        }
    }

    fn settle(&mut self, alloc: Global, area: &Area) -> Result<(), WorldError>
        ensures settled { Settles area.now (state_of self.old) (state_of self.new) result }
        ensures plan { FollowsPlan uncut self.old self.new result }
    {
        let fate = self.calls.next();
        if fate.passes() {
            self.disk.settle(alloc, area)?;
        }
        fate.end()
    }
}
