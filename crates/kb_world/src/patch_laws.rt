// Laws of patches: each is the contract of a function that does nothing, so that its proof is asked for.
ghost use Rattle.std.specs.Prelude.{◌≡◌, List, ℕ, Some, None, true, false, is_some};
ghost use Rattle.std.specs.FinMap.{keys};
ghost use Rattle.std.specs.List.{list_any};
ghost use Rattle.kb_world.specs.Path.{Path};
ghost use Rattle.kb_world.specs.Tree.{Tree, node_at, is_dir, is_leaf};
ghost use Rattle.kb_world.specs.Roots.{is_below};
ghost use Rattle.kb_world.specs.Index.{index_paths, indexing};
ghost use Rattle.kb_world.specs.Patch.{Patch, dirs_of, emptied_of, patched, is_listed, put_at, touches, left_at, come_at};
ghost use Rattle.kb_world.specs.declared.roots.Roots.{Roots};
ghost use Rattle.kb_world.specs.declared.tree.Node.{Node};
ghost use Rattle.kb_world.specs.declared.tree.Node.TheVariants as node;

/// What stands at each path after a patch: what it doesn't name stands as it stood; the last file or link that is put
/// at a path stands there; where nothing is left and nothing comes, nothing stands; and a directory that is made
/// stands where nothing is in its way, unless it is one of those that go once they are empty. Of these, those stand
/// afterwards in which something is left.
pub fn a_patch_names_its_paths()
    ensures apart { (roots : Roots) (patch : Patch) (tree : Tree) (path : Path) → touches roots patch path ≡ false →
        node_at (patched roots patch tree) path ≡ node_at tree path }
    ensures put { (roots : Roots) (patch : Patch) (tree : Tree) (path : Path) (at : Node) → put_at path patch.puts ≡ Some at → is_leaf (Some at) ≡ true →
        node_at (patched roots patch tree) path ≡ Some at }
    ensures gone { (roots : Roots) (patch : Patch) (tree : Tree) (path : Path) → left_at patch tree path ≡ None → put_at path patch.puts ≡ None →
        is_listed path (dirs_of roots patch) ≡ false → node_at (patched roots patch tree) path ≡ None }
    ensures dir { (roots : Roots) (patch : Patch) (tree : Tree) (path : Path) → is_listed path (dirs_of roots patch) ≡ true →
        is_leaf (left_at patch tree path) ≡ false → put_at path patch.puts ≡ None → is_listed path (emptied_of roots patch) ≡ false →
        node_at (patched roots patch tree) path ≡ Some node.Dir }
    ensures empty { (roots : Roots) (patch : Patch) (tree : Tree) (path : Path) → is_listed path (emptied_of roots patch) ≡ true →
        is_dir (come_at roots patch tree path) ≡ true →
        is_some (node_at (patched roots patch tree) path) ≡ list_any (λ other. is_below other path) (keys (patched roots patch tree)) }
{}

/// Where the old index of a kernel goes with a patch that puts nothing at its paths, no index file of the kernel is
/// left: those that stand later are depmod's.
pub fn an_old_index_goes()
    ensures { (roots : Roots) (kernel : List ℕ) (patch : Patch) (tree : Tree) (path : Path) → is_listed path (index_paths roots kernel) ≡ true →
        put_at path patch.puts ≡ None → is_leaf (node_at (patched roots (indexing roots kernel patch) tree) path) ≡ false }
{}
