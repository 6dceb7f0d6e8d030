// Laws of the store's definitions: each is the contract of a function that does nothing, so that its proof is asked for.
ghost use Rattle.std.specs.Prelude.{◌≡◌, ◌++◌, List, ℕ, Some, None, true, false, map};
ghost use Rattle.kb_world.specs.Path.{Path};
ghost use Rattle.kb_world.specs.Tree.{Tree};
ghost use Rattle.kb_world.specs.Roots.{AreApart};
ghost use Rattle.kb_world.specs.Store.{is_key, is_added};
ghost use Rattle.kb_world.specs.Layout.{layout};
ghost use Rattle.kb_world.specs.StorePath.{store_path, path_of, is_ruled};
ghost use Rattle.kb_world.specs.Targets.{are_targets, targets_text, targets_of};
ghost use Rattle.kb_world.specs.Boxes.{is_spot, is_built};
ghost use Rattle.kb_world.specs.Damage.{hurt};
ghost use Rattle.kb_world.specs.Steps.{Module, add_step, add_tree_step, build_step, install_step, uninstall_step, unbuild_step, unadd_step};
ghost use Rattle.kb_world.specs.declared.roots.Roots.{Roots};
ghost use Rattle.kb_world.specs.declared.job.Key.{Key};
ghost use Rattle.kb_world.specs.declared.job.Spot.{Spot};
ghost use Rattle.kb_world.specs.declared.store_path.StorePath.{StorePath};

/// A text is in the format of the file `targets` exactly where it is the text of places that a build may have, and
/// then it gives these: what is written is read back.
pub fn targets_are_read_back()
    ensures read { (text : List ℕ) (places : List Path) → targets_of text ≡ Some places → (are_targets places ≡ true) × (targets_text places ≡ text) }
    ensures printed { (places : List Path) → are_targets places ≡ true → targets_of (targets_text places) ≡ Some places }
{}

/// The map of the dkms root goes both ways: what a path is for has that path, and the path that is for something is read
/// as that.
pub fn store_paths_are_read_back()
    ensures told { (roots : Roots) (path : Path) (place : StorePath) → store_path roots path ≡ Some place → (is_ruled place ≡ true) × (path_of roots place ≡ path) }
    ensures made { (roots : Roots) (place : StorePath) → is_ruled place ≡ true → store_path roots (path_of roots place) ≡ Some place }
{}

/// The layout of a store, the union of its source links, its boxes, its kernel links, its chests and its rest, is the
/// public tree that the store is of.
pub fn layout_is_the_store()
    ensures { (roots : Roots) (store : Tree) → layout roots store ≡ store }
{}

/// No step from a store without damage gives one with damage: not Add, nor that of a directory; not Build, of an added version; not Install,
/// of a version that is built at the spot; not Drop, where the build stays or goes; not Unadd, of a version without
/// builds. This holds also where something blocks the step, and for whatever modules and log a build leaves.
pub fn no_step_damages()
    ensures add { (roots : Roots) (key : Key) (store : Tree) → is_key key ≡ true → hurt roots store ≡ None → hurt roots (add_step roots key store) ≡ None }
    ensures add_tree { (roots : Roots) → AreApart roots → (key : Key) (from : Path) (whole store : Tree) →
        is_key key ≡ true → hurt roots store ≡ None → hurt roots (add_tree_step roots key from whole store) ≡ None }
    ensures build { (roots : Roots) (key : Key) (spot : Spot) (modules : List Module) (log : List ℕ) (store : Tree) →
        is_key key ≡ true → is_spot spot ≡ true → is_added roots key store ≡ true → are_targets (map (λ built. built.0) modules) ≡ true →
        hurt roots store ≡ None → hurt roots (build_step roots key spot modules log store) ≡ None }
    ensures install { (roots : Roots) → AreApart roots → (key : Key) (spot : Spot) (store : Tree) →
        is_key key ≡ true → is_spot spot ≡ true → is_built roots store key spot ≡ true →
        hurt roots store ≡ None → hurt roots (install_step roots key spot store) ≡ None }
    ensures uninstall { (roots : Roots) → AreApart roots → (key : Key) (spot : Spot) (store : Tree) →
        is_key key ≡ true → is_spot spot ≡ true → hurt roots store ≡ None → hurt roots (uninstall_step roots key spot store) ≡ None }
    ensures unbuild { (roots : Roots) → AreApart roots → (key : Key) (spot : Spot) (store : Tree) →
        is_key key ≡ true → is_spot spot ≡ true → hurt roots store ≡ None → hurt roots (unbuild_step roots key spot store) ≡ None }
    ensures unadd { (roots : Roots) (key : Key) (store : Tree) →
        ((spot : Spot) → is_spot spot ≡ true → is_built roots store key spot ≡ false) →
        is_key key ≡ true → hurt roots store ≡ None → hurt roots (unadd_step roots key store) ≡ None }
{}
