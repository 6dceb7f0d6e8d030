// Laws of the definitions: each is the contract of a function that does nothing, so that its proof is asked for.
ghost use Rattle.std.specs.Prelude.{◌≡◌, ◌≢◌, ◌||◌, List, ℕ, None, true};
ghost use Rattle.kb_world.specs.Path.{Path};
ghost use Rattle.kb_world.specs.Tree.{Tree, node_at, is_dir};
ghost use Rattle.kb_world.specs.Store.{is_added, same_key, module_path, version_path, link_path};
ghost use Rattle.kb_world.specs.Steps.{add_step, add_blocked};
ghost use Rattle.kb_world.specs.declared.roots.Roots.{Roots};
ghost use Rattle.kb_world.specs.declared.job.Key.{Key};

/// What the step Add does to a store: this package is added, and no other; where it isn't blocked the directories
/// above its link are there; and what stands elsewhere stays.
pub fn add_adds_one_package()
    ensures added { (roots : Roots) (key other : Key) (store : Tree) →
        is_added roots other (add_step roots key store) ≡ (same_key other key || is_added roots other store) }
    ensures directories { (roots : Roots) (key : Key) (store : Tree) → add_blocked roots key store ≡ None →
        is_dir (node_at (add_step roots key store) (version_path roots key)) ≡ true }
    ensures elsewhere { (roots : Roots) (key : Key) (store : Tree) (path : Path) → path ≢ module_path roots key → path ≢ version_path roots key →
        path ≢ link_path roots key → node_at (add_step roots key store) path ≡ node_at store path }
{}
