// The calls of the world in memory and of what works over it, none of which says what it did:
// nothing is promised of what is printed, so no clause has to be carried from one call to the next.
// Nothing else calls that world.
ghost use Rattle.std.specs.Option.{ForSome};
ghost use Rattle.std.specs.Prelude.{◌≡◌, ◌≤◌, ◌^◌, true, length, IfOk, IsTrue};
ghost use Rattle.kb_world.specs.Roots.{AreApart};
ghost use Rattle.kb_world.specs.Tree.{IsEmptyDir, node_at, is_dir};
ghost use Rattle.kb_world.specs.declared.job.Host.{Host};
ghost use Rattle.kb_memory.specs.World.{state_of, tree_of};
ghost use Rattle.kb_top.specs.Setting.{IsHostOf};

use crate::error::LineError;
use crate::line::{Halted, Target};
use kb_conf::{Conf, Given, load_conf};
use kb_memory::{MemorySink, MemoryWorld, has_few_effects};
use kb_store::Store;
use kb_token::{BootFacts, boot_facts};
use kb_top::{Setting, start};
use kb_walk::{Met, copy_tree, walk_all, wipe};
use kb_world::{
    EffectRow, Node, Path, Refusal, Request, Roots, Sequence, Stop, Text, TokenChoice, World,
    WorldError,
};
use std::alloc::{AllocError, Global};
use std::mem;

/// The calls that are to fail in the next run.
#[derive(Drop)]
pub struct Failures {
    world: Vec<u64>,
    out: Vec<u64>,
    err: Vec<u64>,
}

impl Failures {
    pub fn none(alloc: Global) -> Failures {
        Failures {
            world: Vec::new(alloc),
            out: Vec::new(alloc),
            err: Vec::new(alloc),
        }
    }

    /// Adds calls that are to fail.
    pub fn add(&mut self, target: Target, calls: &[u64]) -> Result<(), AllocError> {
        match target {
            Target::World => self.world.extend_from_slice(calls),
            Target::Out => self.out.extend_from_slice(calls),
            Target::Err => self.err.extend_from_slice(calls),
        }
    }
}

/// What a run wrote, and its status.
#[derive(Drop)]
pub struct Ended {
    out: MemorySink,
    err: MemorySink,
    pub status: u8,
}

impl Ended {
    pub fn out(&self) -> &[u8] {
        self.out.bytes()
    }

    pub fn err(&self) -> &[u8] {
        self.err.bytes()
    }
}

// A sink of which the writes with these numbers fail.
fn sink(alloc: Global, calls: Vec<u64>) -> MemorySink {
    let mut sink = MemorySink::new(alloc);
    sink.fail_at(calls);
    sink
}

// Runs the program's call with these words, and answers its status. The world keeps its roots.
fn status_of(
    alloc: Global,
    words: &[Text],
    setting: &Setting,
    world: &mut MemoryWorld,
    out: &mut MemorySink,
    err: &mut MemorySink,
) -> u8
    requires { (host : Host) → IsHostOf setting.now host
        → (state_of world.old).roots ≡ host.roots }
    ensures { (state_of world.new).roots ≡ (state_of world.old).roots }
{
    start(alloc, words, setting, world, out, err).code()
}

// Runs the program's call with these words, of which the writes with these numbers fail.
fn play(
    alloc: Global,
    words: &[Text],
    setting: &Setting,
    world: &mut MemoryWorld,
    out_writes: Vec<u64>,
    err_writes: Vec<u64>,
) -> Ended
    requires { (host : Host) → IsHostOf setting.now host
        → (state_of world.old).roots ≡ host.roots }
    ensures { (state_of world.new).roots ≡ (state_of world.old).roots }
{
    let mut out = sink(alloc, out_writes);
    let mut err = sink(alloc, err_writes);
    let status = status_of(alloc, words, setting, world, &mut out, &mut err);
    Ended { out, err, status }
}

// Puts what a crash leaves by the choice in place of the world.
fn lose(
    alloc: Global,
    world: &mut MemoryWorld,
    roots: &Roots,
    choice: u64,
) -> Result<(), AllocError>
    requires { (state_of world.old).roots ≡ roots.now }
    ensures { (state_of world.new).roots ≡ (state_of world.old).roots }
{
    let none = MemoryWorld::new(alloc, roots.clone()?, Vec::new(alloc));
    let lost = mem::replace(world, none).lose(alloc, choice)?;
    *world = lost;
    Ok(())
}

fn is_dir(world: &MemoryWorld, path: &Path) -> bool
    ensures { result ≡ is_dir (node_at (tree_of world.now) path.now) }
{
    matches!(world.node(path), Some(Node::Dir))
}

// Whether an empty directory stands at the path.
fn is_empty_dir(alloc: Global, world: &mut MemoryWorld, path: &Path) -> Result<bool, WorldError>
    ensures empty { IfOk result (λ empty. IsTrue empty → IsEmptyDir (tree_of world.new) path.now) }
    ensures roots { (state_of world.new).roots ≡ (state_of world.old).roots }
{
    if !is_dir(world, path) {
        return Ok(false);
    }
    Ok(world.list(alloc, path)?.is_empty())
}

// Copies a directory to where nothing stands, and answers how that stopped, if it did.
fn copy(
    alloc: Global,
    world: &mut MemoryWorld,
    from: &Path,
    to: &Path,
) -> Result<Option<Stop>, LineError>
    ensures { (state_of world.new).roots ≡ (state_of world.old).roots }
{
    if from.is_under(to) || to.is_under(from) {
        return Err(LineError::NoCopy);
    }
    let parent = to.parent()?;
    if !is_dir(world, from) || world.node(to).is_some() || !is_dir(world, &parent) {
        return Err(LineError::NoCopy);
    }
    Ok(copy_tree(alloc, world, from, to).err())
}

// The store as it is read inside a command, once it was read without a refusal.
fn read_again(alloc: Global, world: &mut MemoryWorld, roots: &Roots) -> Result<Store, Stop>
    requires apart { AreApart roots.now }
    requires root { ForSome (state_of world.old).tree (λ tree. is_dir (node_at tree roots.now.dkms) ≡ true) }
    ensures { (state_of world.new).roots ≡ (state_of world.old).roots }
{
    let _first = Store::read(alloc, world, roots)?;
    Store::reread(alloc, world, roots)
}

/// The world of a scene, and the setting that the program is told in it. The world's roots are those
/// of which the setting tells, if it tells of any.
#[derive(Drop)]
pub struct SceneWorld {
    world: MemoryWorld,
    roots: Roots,
    setting: Setting,
    ghost rooted: { (state_of world).roots ≡ roots },
    ghost told: { (host : Host) → IsHostOf setting host → roots ≡ host.roots },
}

impl SceneWorld {
    /// A world with these roots, whose children do what the rows say. A text with more effects than
    /// a world can have finds no memory.
    pub fn new(
        alloc: Global,
        setting: Setting,
        roots: &Roots,
        rows: Vec<EffectRow>,
    ) -> Result<SceneWorld, AllocError>
        requires { (host : Host) → IsHostOf setting host → roots.now ≡ host.roots }
    {
        if !has_few_effects(&rows) {
            return Err(AllocError);
        }
        Ok(SceneWorld {
            world: MemoryWorld::new(alloc, roots.clone()?, rows),
            roots: roots.clone()?,
            setting,
        })
    }

    /// What stands at the path.
    pub fn node(&self, path: &Path) -> Option<&Node> {
        self.world.node(path)
    }

    /// Whether a directory stands at the path.
    pub fn is_dir(&self, path: &Path) -> bool {
        is_dir(&self.world, path)
    }

    /// The requests for children so far, in order.
    pub fn requests(&self) -> &[Request] {
        self.world.requests()
    }

    /// The names of the entries of a directory; none where no directory stands.
    pub fn names(&mut self, alloc: Global, path: &Path) -> Result<Vec<Text>, WorldError> {
        if !is_dir(&self.world, path) {
            return Ok(Vec::new(alloc));
        }
        self.world.list(alloc, path)
    }

    /// Puts a node where nothing stands and its directory does.
    pub fn put(&mut self, alloc: Global, path: &Path, node: Node) -> Result<(), LineError> {
        match (self.world.node(&path.parent()?), self.world.node(path)) {
            (Some(Node::Dir), None) => Ok(self.world.place(alloc, path, Some(node))?),
            _ => Err(LineError::NoDirectory),
        }
    }

    /// Takes away the file or link at the path, if one stands there.
    pub fn take_leaf(&mut self, alloc: Global, path: &Path) -> Result<(), LineError> {
        match (self.world.node(&path.parent()?), self.world.node(path)) {
            (Some(Node::Dir), Some(Node::File { .. } | Node::Link { .. })) => {
                Ok(self.world.place(alloc, path, None)?)
            }
            _ => Ok(()),
        }
    }

    /// Takes away an empty directory, but not the root.
    pub fn remove_dir(&mut self, alloc: Global, path: &Path) -> Result<(), LineError> {
        if path.names().is_empty() || !is_empty_dir(alloc, &mut self.world, path)? {
            return Err(LineError::NotEmpty);
        }
        Ok(self.world.remove_dir(alloc, path)?)
    }

    /// Runs the program's call with these words, while the calls with these numbers fail. No call
    /// is to fail behind it.
    pub fn run(&mut self, alloc: Global, words: &[Text], failures: Failures) -> Ended {
        let Failures { world, out, err } = failures;
        self.world.fail_at(world);
        let ended = play(alloc, words, &self.setting, &mut self.world, out, err);
        self.world.fail_at(Vec::new(alloc));
        ended
    }

    /// Runs the program's call over the world, which is halted, and goes on with what a crash leaves
    /// of it by the same choice. No call is to fail behind it.
    pub fn halt(&mut self, alloc: Global, halted: &Halted) -> Result<Ended, AllocError> {
        let words = halted.words.as_slice();
        self.world.halt_after(alloc, halted.after, halted.choice);
        let none = Vec::new(alloc);
        let ended = play(
            alloc,
            words,
            &self.setting,
            &mut self.world,
            none,
            Vec::new(alloc),
        );
        lose(alloc, &mut self.world, &self.roots, halted.choice)?;
        Ok(ended)
    }

    /// Wipes the path. No call is to fail behind it.
    pub fn wipe(
        &mut self,
        alloc: Global,
        path: &Path,
        failures: Failures,
    ) -> Result<(), WorldError> {
        self.world.fail_at(failures.world);
        let end = wipe(alloc, &mut self.world, path);
        self.world.fail_at(Vec::new(alloc));
        end
    }

    /// Copies a directory to where nothing stands, and answers how that stopped, if it did. No call is
    /// to fail behind it.
    pub fn copy(
        &mut self,
        alloc: Global,
        from: &Path,
        to: &Path,
        failures: Failures,
    ) -> Result<Option<Stop>, LineError> {
        self.world.fail_at(failures.world);
        let end = copy(alloc, &mut self.world, from, to);
        self.world.fail_at(Vec::new(alloc));
        end
    }

    /// The store below the dkms root, or why it can't be read.
    pub fn store(&mut self, alloc: Global, roots: &Roots) -> Result<Store, Stop>
        requires { AreApart roots.now }
    {
        if !is_dir(&self.world, &roots.dkms) {
            return Err(Stop::Refused(Refusal::NoRoot {
                path: roots.dkms.clone()?,
            }));
        }
        read_again(alloc, &mut self.world, roots)
    }

    /// What stands below the dkms root, where that is a directory.
    pub fn walk(&mut self, alloc: Global, roots: &Roots) -> Result<Sequence<Met>, WorldError> {
        if !is_dir(&self.world, &roots.dkms) {
            return Ok(Sequence::new(alloc));
        }
        walk_all(alloc, &mut self.world, roots, &roots.dkms)
    }

    /// The conf in the directory.
    pub fn conf(&mut self, alloc: Global, directory: &Path, given: &Given) -> Result<Conf, Stop> {
        load_conf(alloc, &mut self.world, directory, None, given)
    }

    /// The boot facts.
    pub fn facts(
        &mut self,
        alloc: Global,
        roots: &Roots,
        choice: &TokenChoice,
    ) -> Result<BootFacts, Stop> {
        boot_facts(alloc, &mut self.world, roots, choice)
    }
}
