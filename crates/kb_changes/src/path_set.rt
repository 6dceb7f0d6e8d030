// Sets of paths.
ghost use Rattle.std.specs.Prelude.{◌≡◌, ◌++◌, not, IfOk, OnOk, [], ◌∷◌};
ghost use Rattle.std.specs.List.{list_any};
ghost use Rattle.kb_world.specs.Patch.{in_order};
ghost use Rattle.kb_world.specs.Path.{is_under};
ghost use Rattle.kb_world.specs.Roots.{is_below};
ghost use Rattle.kb_changes.specs.Valid.{is_among_paths, HoldSame};

use kb_world::Path;
use std::alloc::{AllocError, Global};
use std::collections::BTreeSet;
use std::marker::Model;

/// A set of paths, which finds one in time that grows with the logarithm of its size.
#[derive(Drop)]
pub(crate) struct PathSet {
    set: BTreeSet<Path>,
}

impl Model for PathSet {
    ghost use Rattle.std.specs.Prelude.{List, ℕ};

    ghost Value = { List (List (List ℕ)) };

    ghost view = { λ paths. paths.set.keys };
}

impl PathSet {
    /// No paths.
    pub fn new(alloc: Global) -> PathSet
        ensures { result ≡ [] }
    {
        PathSet {
            set: BTreeSet::new(alloc),
        }
    }

    /// Whether the path is in the set.
    pub fn has(&self, path: &Path) -> bool
        ensures { result ≡ is_among_paths self.now path.now }
    {
        self.set.contains(path)
    }

    /// Adds a path, and answers whether it is new.
    pub fn add(&mut self, path: &Path) -> Result<bool, AllocError>
        ensures fresh { IfOk result (λ fresh. fresh ≡ not (is_among_paths self.old path.now)) }
        ensures added { OnOk result (HoldSame self.new (path.now ∷ self.old)) }
    {
        let key = path.clone()?;
        Ok(self.set.insert(key)?)
    }

    /// Adds each of these paths.
    pub fn add_all(&mut self, paths: &[Path]) -> Result<(), AllocError>
        ensures { OnOk result (HoldSame self.new (paths.now ++ self.old)) }
    {
        for path in paths {
            self.add(path)?;
        }
        Ok(())
    }

    /// The set of these paths.
    pub fn of(alloc: Global, paths: &[Path]) -> Result<PathSet, AllocError>
        ensures { IfOk result (λ set. HoldSame set paths.now) }
    {
        let mut set = PathSet::new(alloc);
        set.add_all(paths)?;
        Ok(set)
    }

    /// The paths, each before those below it.
    pub fn in_order(self, alloc: Global) -> Result<Vec<Path>, AllocError>
        ensures { IfOk result (λ paths. paths.items ≡ in_order self) }
    {
        self.set.into_iter().collect(alloc)
    }

    /// Whether a path of the set is above this one.
    pub fn has_above(&self, path: &Path) -> Result<bool, AllocError>
        ensures { IfOk result (λ found. found ≡ list_any (is_below path.now) self.now) }
    {
        let mut above = path.clone()?;
        for _ in 0..path.names().len() {
            above = above.parent()?;
            if self.has(&above) {
                return Ok(true);
            }
        }
        Ok(false)
    }

    /// Whether the path or one above it is in the set.
    pub fn has_at_or_above(&self, path: &Path) -> Result<bool, AllocError>
        ensures { IfOk result (λ found. found ≡ list_any (is_under path.now) self.now) }
    {
        if self.has(path) {
            return Ok(true);
        }
        self.has_above(path)
    }
}
