// A transaction is put together.
ghost use Rattle.std.specs.Prelude.{◌≡◌, ◌+◌, ◌++◌, ◌<◌, ◌^◌, true, IfOk, OnErr, OnOk};
ghost use Rattle.std.specs.Option.{ForSome};
ghost use Rattle.kb_world.specs.Patch.{Patch};
ghost use Rattle.kb_world.specs.Roots.{AreApart};
ghost use Rattle.kb_world.specs.Tree.{node_at, is_dir};
ghost use Rattle.kb_world.specs.declared.tree.Node.TheVariants as nodes;
ghost use Rattle.kb_changes.specs.Change.{root_path};
ghost use Rattle.kb_changes.specs.Changes as changes_rule;
ghost use Rattle.kb_changes.specs.Counts.{count_below};
ghost use Rattle.kb_changes.specs.PatchPaths.{ArePathsOf};
ghost use Rattle.kb_intent.specs.Staging.{staged_node};
ghost use Rattle.kb_intent.specs.Txn.{BeginsTransaction, IsNewTransaction, IsStagedFor, Stages};
ghost use Rattle.kb_intent.specs.Txn.{with_change_behind, with_changes};

use crate::staging::{Content, left_places, put_staged_content, wipe_each};
use kb_changes::{Change, Counts, Intent, PatchPaths, RootName, changes_of, staged_path};
use kb_world::{Job, Roots, Sequence, Stop, Text, Texts, World};
use std::alloc::{AllocError, Global};

/// A transaction that is put together: files and links are staged for it, changes are added, and
/// then it is committed.
#[derive(Debug, Drop)]
pub struct Txn {
    pub(crate) roots: Roots,
    pub(crate) intent: Intent,
    staged: Counts,
}

// A copy of the words.
fn copied(alloc: Global, words: &[Text]) -> Result<Texts, AllocError>
    ensures { IfOk result (λ made. made ≡ words.now) }
{
    Ok(Sequence::from_items(words.to_vec(alloc)?))
}

impl Txn {
    // A transaction of the job without changes.
    fn new(alloc: Global, job: &Job) -> Result<Txn, AllocError>
        ensures { IfOk result (IsNewTransaction job.now) }
    {
        Ok(Txn {
            roots: job.host.roots.clone()?,
            intent: Intent {
                words: copied(alloc, job.words.as_slice())?,
                changes: Sequence::new(alloc),
            },
            staged: Counts::none(),
        })
    }

    /// Begins a transaction of the job: what an earlier one left staged goes, and a journal that it
    /// began.
    pub fn begin<W: World>(alloc: Global, world: &mut W, job: &Job) -> Result<Txn, Stop>
        requires { AreApart job.now.host.roots }
        ensures { BeginsTransaction job.now (W.state world.old) (W.state world.new) result }
    {
        let txn = match Txn::new(alloc, job) {
            Ok(txn) => txn,
            Err(_) => return Err(Stop::NoMemory),
        };
        let places = match left_places(alloc, &txn.roots) {
            Ok(places) => places,
            Err(_) => return Err(Stop::NoMemory),
        };
        match wipe_each(alloc, world, &places) {
            Ok(()) => Ok(txn),
            Err(error) => Err(error.into()),
        }
    }

    // Stages what is given below the root, under the next number.
    fn stage<W: World>(
        &mut self,
        alloc: Global,
        world: &mut W,
        root: RootName,
        content: &Content<'_>,
    ) -> Result<u64, Stop>
        requires apart { AreApart self.old.roots }
        requires there { ForSome (W.state world.old).tree (λ tree.
            is_dir (node_at tree (root_path self.old.roots root)) ≡ true) }
        requires staged { ForSome (W.state world.old).tree (IsStagedFor self.old) }
        requires room { count_below self.old.staged root + 1 < 2 ^ 64 }
        ensures { Stages root (staged_node content.now) self.old self.new (W.state world.old)
            (W.state world.new) result }
    {
        let number = self.staged.below(root);
        let path = match staged_path(alloc, &self.roots, root, number) {
            Ok(path) => path,
            Err(_) => return Err(Stop::NoMemory),
        };
        match put_staged_content(alloc, world, &path, content) {
            Ok(()) => {}
            Err(error) => return Err(error.into()),
        }
        self.staged.count(root);
        Ok(number)
    }

    /// Stages a file of these bytes below the root. Its number is what a Put names it by.
    pub fn stage_file<W: World>(
        &mut self,
        alloc: Global,
        world: &mut W,
        root: RootName,
        bytes: &[u8],
        exec: bool,
    ) -> Result<u64, Stop>
        requires apart { AreApart self.old.roots }
        requires there { ForSome (W.state world.old).tree (λ tree.
            is_dir (node_at tree (root_path self.old.roots root)) ≡ true) }
        requires staged { ForSome (W.state world.old).tree (IsStagedFor self.old) }
        requires room { count_below self.old.staged root + 1 < 2 ^ 64 }
        ensures { Stages root (nodes.File bytes.now exec) self.old self.new (W.state world.old)
            (W.state world.new) result }
    {
        let content = Content::File { bytes, exec };
        self.stage(alloc, world, root, &content)
    }

    /// Stages a link with this text below the root. Its number is what a Put names it by.
    pub fn stage_link<W: World>(
        &mut self,
        alloc: Global,
        world: &mut W,
        root: RootName,
        text: &str,
    ) -> Result<u64, Stop>
        requires apart { AreApart self.old.roots }
        requires there { ForSome (W.state world.old).tree (λ tree.
            is_dir (node_at tree (root_path self.old.roots root)) ≡ true) }
        requires staged { ForSome (W.state world.old).tree (IsStagedFor self.old) }
        requires room { count_below self.old.staged root + 1 < 2 ^ 64 }
        ensures { Stages root (nodes.Link text.now) self.old self.new (W.state world.old)
            (W.state world.new) result }
    {
        let content = Content::Link { text };
        self.stage(alloc, world, root, &content)
    }

    /// Adds a change behind the others. An error changes nothing. That the changes are valid
    /// together is asked where they are committed.
    pub fn add(&mut self, change: Change) -> Result<(), AllocError>
        ensures ok { OnOk result (self.new ≡ with_change_behind change self.old) }
        ensures err { OnErr result (self.new ≡ self.old) }
    {
        self.intent.changes.push(change)
    }

    /// Adds the changes of a patch with these paths behind the others. An error changes nothing.
    /// The Puts below a root are numbered from 0: what they put has to be staged before all else.
    pub fn add_all(&mut self, alloc: Global, paths: &PatchPaths) -> Result<(), AllocError>
        ensures changes { OnOk result ((patch : Patch) → ArePathsOf patch paths.now
            → self.new.intent.changes
            ≡ self.old.intent.changes ++ changes_rule.changes_of self.old.roots patch) }
        ensures others { self.new ≡ with_changes self.new.intent.changes self.old }
        ensures err { OnErr result (self.new ≡ self.old) }
    {
        let mut made = changes_of(alloc, &self.roots, paths)?;
        let mut all = self.intent.changes.as_slice().to_vec(alloc)?;
        all.append(&mut made)?;
        self.intent.changes = Sequence::from_items(all);
        Ok(())
    }
}
