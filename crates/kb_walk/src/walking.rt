// A walk: every entry below a directory, in the order of paths.
ghost use Rattle.std.specs.Prelude.{◌≡◌, ◌<◌, ◌≤◌, ◌||◌, ◌&&◌, nat_le, nat_eq, ◌+◌, ◌++◌, List, ℕ, Bool, true, false, length, map, IfOk, IfSome, OnOk, IsTrue};
ghost use Rattle.std.specs.Option.{ForSome};
ghost use Rattle.kb_world.specs.Names.{is_name};
ghost use Rattle.kb_world.specs.Tree.{node_at, is_dir};
ghost use Rattle.kb_world.specs.State.{Looks};
ghost use Rattle.kb_walk.specs.Walking.{entries, entry_block, met_at, walk_on, walked, is_dir_kind};

use kb_world::{Kind, Path, Sequence, Text, World, WorldError};
use std::alloc::Global;

/// How many entries a walk meets at most, and how many names deeper than its start a directory may stand.
#[derive(Clone, Copy, Debug)]
pub struct Limits {
    pub entries: usize,
    pub depth: u64,
}

/// The limits of a walk that has any: of a store, of a tree that is copied, of a kernel's modules.
pub const LIMITS: Limits = Limits {
    entries: 65_536,
    depth: 64,
};

/// An entry that a walk met.
#[derive(Debug, Drop)]
pub struct Met {
    pub path: Path,
    pub kind: Kind,
}

/// What a walk met: the entries before the first one that passes a limit, and that one's path.
#[derive(Debug, Drop)]
pub struct Walk {
    pub met: Sequence<Met>,
    pub over: Option<Path>,
}

/// Which entries a walk neither counts nor enters.
pub trait Skips {
    ghost skips: { Self → List (List ℕ) → Bool };

    /// Whether the entry at the path is skipped.
    fn skips(&self, path: &Path) -> bool
        ensures { result ≡ skips self.now path.now };

    /// What is below a skipped entry is skipped.
    ghost deeper: { (it : Self) (path more : List (List ℕ)) → skips it path ≡ true → skips it (path ++ more) ≡ true };
}

/// A walk over everything skips nothing.
#[derive(Clone, Copy, Debug)]
pub struct Everything;

impl Skips for Everything {
    ghost skips = { λ it path. false };

    fn skips(&self, _: &Path) -> bool {
        false
    }

    ghost deeper = { λ it path more skipped. skipped };
}

// Limits that no walk passes, since memory holds fewer items than a number can count.
const NO_LIMITS: Limits = Limits {
    entries: usize::MAX,
    depth: u64::MAX,
};

impl Walk {
    // No walk meets as many entries as a number can count, or a path of more names.
    fn is_countable(&self)
        ensures met { length self.now.met < usize.MAX }
        ensures over { IfSome self.now.over (λ far. length far ≤ u64.MAX) }
    {
        let _count = self.met.as_slice().len();
        if let Some(far) = &self.over {
            let _count = far.names().len();
        }
    }

    // Whether an entry of this kind passes a limit, where directories may stand so much deeper.
    fn is_passed(&self, kind: Kind, most: usize, depth: u64) -> bool
        ensures { result ≡ (nat_le most (length self.now.met) || nat_eq depth 0 && is_dir_kind kind) }
    {
        self.met.as_slice().len() >= most || (depth == 0 && matches!(kind, Kind::Dir))
    }
}

#[cycle(walk)]
fn visit<W: World, S: Skips>(
    alloc: Global,
    world: &mut W,
    skips: &S,
    directory: &Path,
    most: usize,
    depth: u64,
    walk: &mut Walk,
) -> Result<(), WorldError>
    requires { ForSome (W.state world.old).tree (λ tree. is_dir (node_at tree directory.now) ≡ true) }
    ensures met { OnOk result (ForSome (W.state world.old).tree (λ tree.
        walk.new ≡ walk_on tree most (length directory.now + depth) walk.old (entries tree (S.skips skips.now) directory.now))) }
    ensures same { Looks (W.state world.old) (W.state world.new) result }
{
    let names = world.list(alloc, directory)?;
    for name in &names {
        visit_entry(alloc, world, skips, directory, name, most, depth, walk)?;
    }
    Ok(())
}

#[cycle(walk)]
fn visit_entry<W: World, S: Skips>(
    alloc: Global,
    world: &mut W,
    skips: &S,
    directory: &Path,
    name: &Text,
    most: usize,
    depth: u64,
    walk: &mut Walk,
) -> Result<(), WorldError>
    requires { IsTrue (is_name name.now) }
    ensures met { OnOk result (ForSome (W.state world.old).tree (λ tree.
        walk.new ≡ walk_on tree most (length directory.now + depth) walk.old (entry_block tree (S.skips skips.now) directory.now name.now))) }
    ensures same { Looks (W.state world.old) (W.state world.new) result }
{
    let path = directory.child(alloc, name.as_str())?;
    if walk.over.is_some() {
        return Ok(());
    }
    if skips.skips(&path) {
        return Ok(());
    }
    let kind = world.look(alloc, &path)?;
    if walk.is_passed(kind, most, depth) {
        walk.over = Some(path);
        return Ok(());
    }
    walk.met.push(Met {
        path: path.clone()?,
        kind,
    })?;
    match kind {
        Kind::Dir => visit(alloc, world, skips, &path, most, depth - 1, walk),
        _ => Ok(()),
    }
}

/// Walks over every entry below a directory, in the order of paths, but for those that are skipped. It keeps the
/// limits: the first path that is one too many, or that of a directory one too deep, ends it.
pub fn walk_below<W: World, S: Skips>(
    alloc: Global,
    world: &mut W,
    skips: &S,
    start: &Path,
    limits: Limits,
) -> Result<Walk, WorldError>
    requires { ForSome (W.state world.old).tree (λ tree. is_dir (node_at tree start.now) ≡ true) }
    ensures met { IfOk result (λ walk. ForSome (W.state world.old).tree (λ tree. walk ≡ walked limits tree (S.skips skips.now) start.now)) }
    ensures same { Looks (W.state world.old) (W.state world.new) result }
{
    let mut walk = Walk {
        met: Sequence::new(alloc),
        over: None,
    };
    visit(
        alloc,
        world,
        skips,
        start,
        limits.entries,
        limits.depth,
        &mut walk,
    )?;
    Ok(walk)
}

/// Walks over every entry below a directory, in the order of paths, but for those that are skipped, however many there
/// are and however deep.
pub fn walk_all<W: World, S: Skips>(
    alloc: Global,
    world: &mut W,
    skips: &S,
    start: &Path,
) -> Result<Sequence<Met>, WorldError>
    requires { ForSome (W.state world.old).tree (λ tree. is_dir (node_at tree start.now) ≡ true) }
    ensures met { IfOk result (λ met. ForSome (W.state world.old).tree (λ tree. met ≡ map (met_at tree) (entries tree (S.skips skips.now) start.now))) }
    ensures same { Looks (W.state world.old) (W.state world.new) result }
{
    let walk = walk_below(alloc, world, skips, start, NO_LIMITS)?;
    walk.is_countable();
    Ok(walk.met)
}
