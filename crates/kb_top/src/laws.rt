// Laws of the definitions: each is the contract of a function that does nothing, so that its proof is asked for.
ghost use Rattle.std.specs.Prelude.{◌≡◌, ◌⊎◌, ◌∷◌, List, Option, Some};
ghost use Rattle.kb_world.specs.Public.{foreign_tree, public_tree};
ghost use Rattle.kb_world.specs.Script.{Script};
ghost use Rattle.kb_world.specs.State.{State};
ghost use Rattle.kb_world.specs.Tree.{Tree, IsFormed};
ghost use Rattle.kb_world.specs.declared.job.Host.{Host};
ghost use Rattle.kb_world.specs.declared.roots.Roots.{Roots};
ghost use Rattle.kb_changes.specs.declared.change.Intent.{Intent};
ghost use Rattle.kb_machine.specs.Opens.{IsReady};
ghost use Rattle.kb_machine.specs.Stands.{OpensOneOf, Stands};
ghost use Rattle.kb_words.specs.Reading.{reading};
ghost use Rattle.kb_words.specs.Words.{Word};
ghost use Rattle.kb_top.specs.Machine.{outcome_of};
ghost use Rattle.kb_top.specs.Repeat.{ComesToSameStore, KeepDirectory};
ghost use Rattle.kb_top.specs.declared.setting.Setting.{Setting};
ghost use Rattle.kb_top.specs.Setting.{IsHostOf, IsBadRoot, IsBadBoot};

/// Each setting tells of a machine, or has a bad root, or a bad boot, and only one of the three.
pub fn settings_are_good_or_bad()
    ensures one { (setting : Setting) → ((host : Host) × IsHostOf setting host) ⊎
        (IsBadRoot setting ⊎ IsBadBoot setting) }
    ensures good_root { (setting : Setting) (host : Host) → IsHostOf setting host
        → IsBadRoot setting → ⊥ }
    ensures good_boot { (setting : Setting) (host : Host) → IsHostOf setting host
        → IsBadBoot setting → ⊥ }
    ensures root_first { (setting : Setting) → IsBadRoot setting → IsBadBoot setting → ⊥ }
{}

/// The store that stands is the public tree of what is ready, from which the machine goes on.
pub fn what_stands_is_ready()
    ensures { (roots : Roots) (store : Tree) (state : State) (tree ready : Tree)
        (found : Option Intent) → state.tree ≡ Some tree → IsFormed tree
        → IsReady roots state.script tree ready found → Stands roots store state → public_tree roots ready ≡ store }
{}

/// The same words again, behind a call that a crash cut off at any moment, come to the store that the call comes to where
/// it isn't cut off: whatever opens one of its stores, as `survives` of `run` says of each image. The foreign tree is the
/// same, and where a directory is added it stays as it was.
pub fn repeating_comes_to_the_same_store()
    ensures { (host : Host) (script : Script) (words : List Word) (tree ready image : Tree) (found : Option Intent)
        → OpensOneOf host.roots script (public_tree host.roots ready ∷ (outcome_of host script words tree ready found).after) image
        → KeepDirectory (reading words) (foreign_tree host.roots ready) (public_tree host.roots ready) (outcome_of host script words tree ready found).after
        → ComesToSameStore host script words ready (outcome_of host script words tree ready found) image }
{}
