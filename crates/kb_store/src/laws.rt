// Laws of the definitions: each is the contract of a function that does nothing, so that its proof is asked for.
ghost use Rattle.std.specs.Prelude.{◌≡◌, ◌&&◌, List, ℕ, true, map};
ghost use Rattle.std.specs.Option.{option_map};
ghost use Rattle.std.specs.List.{find, list_any};
ghost use Rattle.kb_world.specs.Names.{is_word};
ghost use Rattle.kb_world.specs.Tree.{Tree};
ghost use Rattle.kb_world.specs.Store.{is_key, is_added, same_key, link_path};
ghost use Rattle.kb_world.specs.Boxes.{is_spot, boxed, installed, targets_path, kernel_link_path, chest_path};
ghost use Rattle.kb_world.specs.Steps.{kept_files};
ghost use Rattle.kb_world.specs.declared.roots.Roots.{Roots};
ghost use Rattle.kb_world.specs.declared.job.Key.{Key};
ghost use Rattle.kb_world.specs.declared.job.Spot.{Spot};
ghost use Rattle.kb_store.specs.Contents.{store_of};
ghost use Rattle.kb_walk.specs.Walking.{rises};
ghost use Rattle.kb_store.specs.Accessors.{added_in, builds_in, installed_in, kept_in, claimant_in, is_build};
ghost use Rattle.kb_store.specs.Claims.{IsLeastClaim};

/// The lists of a store tell the parts of its tree: a package is among the added ones exactly where it is added; a
/// build is among the builds exactly where it is there, with its places; the version that is found installed is the
/// one that is installed; the files that are found kept are those that are kept; and the claimant to a file of a kernel
/// is the least of the installed targets with that name for that kernel, but for those of the given module and
/// architecture. This holds of every tree, with damage or without.
pub fn a_store_tells_its_parts()
    ensures added { (roots : Roots) (store : Tree) (key : Key) → list_any (same_key key) (added_in (store_of roots store)) ≡ (is_key key && is_added roots key store) }
    ensures builds { (roots : Roots) (store : Tree) (key : Key) (spot : Spot) → is_key key ≡ true → is_spot spot ≡ true →
        option_map (λ build. build.targets) (find (is_build key spot) (builds_in (store_of roots store))) ≡ boxed roots store key spot }
    ensures installed { (roots : Roots) (store : Tree) (word : List ℕ) (spot : Spot) → is_word word ≡ true → is_spot spot ≡ true →
        installed_in (store_of roots store) word spot ≡ installed roots store word spot }
    ensures kept { (roots : Roots) (store : Tree) (word : List ℕ) (spot : Spot) → is_word word ≡ true → is_spot spot ≡ true →
        kept_in (store_of roots store) word spot ≡ map (λ item. item.0) (kept_files roots store word spot) }
    ensures claimant { (roots : Roots) (store : Tree) (kernel file word arch : List ℕ) →
        IsLeastClaim roots store kernel file word arch (claimant_in (store_of roots store) kernel file word arch) }
{}

/// The entries of each of a store's lists stand in the order of the paths that they stand for, each once: packages by
/// their links, builds by their files `targets`, installations by their links, chests by their directories.
pub fn the_lists_of_a_store_rise()
    ensures added { (roots : Roots) (store : Tree) → rises (map (link_path roots) (added_in (store_of roots store))) ≡ true }
    ensures builds { (roots : Roots) (store : Tree) → rises (map (λ build. targets_path roots build.key build.spot) (builds_in (store_of roots store))) ≡ true }
    ensures installed { (roots : Roots) (store : Tree) →
        rises (map (λ installation. kernel_link_path roots installation.module installation.spot) (store_of roots store).installed) ≡ true }
    ensures chests { (roots : Roots) (store : Tree) → rises (map (λ chest. chest_path roots chest.module chest.spot) (store_of roots store).chests) ≡ true }
{}
