// Laws of patches and their changes: each is the contract of a function that does nothing, so that its proof is asked
// for.
ghost use Rattle.std.specs.Prelude.{◌≡◌, ◌++◌, List, map, None, true, false};
ghost use Rattle.std.specs.List.{AllByRecursion};
ghost use Rattle.kb_world.specs.Path.{Path};
ghost use Rattle.kb_world.specs.Patch.{Patch, dirs_of, patched, is_listed};
ghost use Rattle.kb_world.specs.Public.{public_tree, foreign_tree};
ghost use Rattle.kb_world.specs.Roots.{AreApart};
ghost use Rattle.kb_world.specs.Script.{Script};
ghost use Rattle.kb_world.specs.Steps.{add_blocked, add_patch};
ghost use Rattle.kb_world.specs.Store.{is_key, link_path};
ghost use Rattle.kb_world.specs.Tree.{Tree, node_at, is_dir, IsFormed};
ghost use Rattle.kb_world.specs.declared.child.Request.{Request};
ghost use Rattle.kb_world.specs.declared.job.Key.{Key};
ghost use Rattle.kb_world.specs.declared.roots.Roots.{Roots};
ghost use Rattle.kb_changes.specs.Change.{done};
ghost use Rattle.kb_changes.specs.Changes.{changes_of, nodes_of, HasStaged};
ghost use Rattle.kb_changes.specs.Fit.{IsInOwnRoot, IsPlacedPath, coming_paths, IsFit, MayStand, IsFitRequest};
ghost use Rattle.kb_changes.specs.Valid.{is_initrd, is_valid};
ghost use Rattle.kb_changes.specs.declared.change.Change.TheVariants.{Run};

/// Where a patch fits a tree and its nodes are staged there, doing its changes makes of the public tree what the patch
/// makes of it, and leaves the foreign tree.
pub fn a_patch_is_done()
    ensures done { (roots : Roots) → AreApart roots → (script : Script) (patch : Patch) (tree : Tree) → IsFit roots patch tree →
        HasStaged roots (nodes_of roots patch) tree →
        public_tree roots (done roots script (changes_of roots patch) tree) ≡ patched roots patch (public_tree roots tree) }
    ensures foreign { (roots : Roots) → AreApart roots → (script : Script) (patch : Patch) (tree : Tree) → IsFit roots patch tree →
        HasStaged roots (nodes_of roots patch) tree →
        foreign_tree roots (done roots script (changes_of roots patch) tree) ≡ foreign_tree roots tree }
{}

/// The changes of a patch are valid by facts of its lists alone, also with children behind them that may change nothing
/// or make an index whose files go with the patch.
pub fn a_patch_is_valid()
    ensures { (roots : Roots) → AreApart roots → (patch : Patch) → MayStand roots patch → (requests : List Request) →
        AllByRecursion (IsFitRequest roots patch) requests → is_valid roots (changes_of roots patch ++ map Run requests) ≡ true }
{}

/// The patch of Add may stand, and fits where the dkms root is a directory, Add isn't blocked and no directory stands at
/// the version's link. And some roots, patch and tree meet all that the laws of patches ask for.
pub fn an_add_fits()
    ensures stands { (roots : Roots) → AreApart roots → (key : Key) → is_key key ≡ true → MayStand roots (add_patch roots key) }
    ensures fits { (roots : Roots) → AreApart roots → (key : Key) → is_key key ≡ true → (tree : Tree) → IsFormed tree →
        is_dir (node_at tree roots.dkms) ≡ true → add_blocked roots key tree ≡ None → is_dir (node_at tree (link_path roots key)) ≡ false →
        IsFit roots (add_patch roots key) tree }
    ensures met { (roots : Roots) × (patch : Patch) × (tree : Tree) × AreApart roots × IsFit roots patch tree
        × HasStaged roots (nodes_of roots patch) tree × MayStand roots patch }
{}

/// A public path below the roots dkms, src and modules may be changed, and has no name of an initrd. And where all that
/// comes of a patch is such, so is each directory that is made.
pub fn own_paths_may_stand()
    ensures placed { (roots : Roots) → AreApart roots → (path : Path) → IsInOwnRoot roots path → IsPlacedPath roots path }
    ensures no_initrd { (roots : Roots) → AreApart roots → (path : Path) → IsInOwnRoot roots path → is_initrd roots path ≡ false }
    ensures dirs { (roots : Roots) → AreApart roots → (patch : Patch) → AllByRecursion (IsInOwnRoot roots) (coming_paths patch) → (path : Path) →
        is_listed path (dirs_of roots patch) ≡ true → IsInOwnRoot roots path }
{}
