//! Laws alone: doing the changes of a valid intent again is doing them once, wherever they were cut
//! off, and what is left at areas that children were given and that weren't settled since does no
//! harm. No code is here: each law is the contract of a function that does nothing, so that its
//! proof is asked for.
#![tactic(auto)]

ghost use Rattle.std.specs.Prelude.{◌≡◌, ◌++◌, List, [], true};
ghost use Rattle.kb_world.specs.Area.{IsLeft};
ghost use Rattle.kb_world.specs.Public.{intent_path, public_tree, foreign_tree};
ghost use Rattle.kb_world.specs.Roots.{AreApart};
ghost use Rattle.kb_world.specs.Script.{Script};
ghost use Rattle.kb_world.specs.Tree.{Tree, node_at, IsFormed};
ghost use Rattle.kb_world.specs.declared.child.Area.{Area};
ghost use Rattle.kb_world.specs.declared.roots.Roots.{Roots};
ghost use Rattle.kb_changes.specs.Change.{done};
ghost use Rattle.kb_changes.specs.Valid.{is_valid};
ghost use Rattle.kb_changes.specs.declared.change.Change.{Change};
ghost use Rattle.kb_again.specs.Cases.{IsCase};
ghost use Rattle.kb_again.specs.Sparing.{AreSparing, areas_of, settled};
ghost use Rattle.kb_again.specs.Unseen.{AreAlike, HaveStaged, AreDoneAlike};
ghost use Rattle.kb_again.specs.Within.{IsWithin, IsBetween, IsUnstaged, IsDoneAlike, IsBetweenEach, last_image};

/// From what a crash leaves while valid changes are done, doing all of them gives the public tree
/// that doing them once gives, and the journal stands as it did: also where they are cut off again
/// and again, and once all are done, while what was staged is taken away.
pub fn twice_is_once()
    ensures between { (roots : Roots) (script : Script) (changes : List Change) (soft : List Area)
        (tree image : Tree) → AreApart roots → is_valid roots changes ≡ true → IsFormed tree
        → AreSparing roots (areas_of changes) soft → IsBetween roots script changes soft tree image
        → IsDoneAlike roots script changes tree image }
    ensures repeated { (roots : Roots) (script : Script) (changes : List Change) (tree : Tree)
        (images : List (List Area × Tree)) → AreApart roots → is_valid roots changes ≡ true
        → IsFormed tree → IsBetweenEach roots script changes tree images
        → IsDoneAlike roots script changes tree (last_image tree images) }
    ensures unstaged { (roots : Roots) (script : Script) (changes : List Change) (soft : List Area)
        (tree mid image : Tree) → AreApart roots → is_valid roots changes ≡ true → IsFormed tree
        → AreSparing roots (areas_of changes) soft
        → IsUnstaged roots (done roots script changes tree) mid → IsLeft soft mid image
        → IsDoneAlike roots script changes tree image }
{}

/// The areas of a valid intent's children are sparing. Once each of them is settled, what is still
/// soft of sparing areas is sparing without them.
pub fn settled_areas_are_sparing()
    ensures own { (roots : Roots) (changes : List Change) → AreApart roots
        → is_valid roots changes ≡ true → AreSparing roots (areas_of changes) (areas_of changes) }
    ensures left { (roots : Roots) (changes : List Change) (soft : List Area) → AreApart roots
        → is_valid roots changes ≡ true → AreSparing roots (areas_of changes) soft
        → AreSparing roots [] (settled (areas_of changes) soft) }
{}

/// No change of a valid intent touches what stands at the journal's path: it stays after any number
/// of them.
pub fn no_change_touches_the_journal()
    ensures { (roots : Roots) (script : Script) (changes front back : List Change) (tree : Tree)
        → AreApart roots → is_valid roots changes ≡ true → front ++ back ≡ changes
        → node_at (done roots script front tree) (intent_path roots)
        ≡ node_at tree (intent_path roots) }
{}

/// No change of a valid intent sees the journal: trees that are alike but for it are so after all
/// changes, and the children that are run, and what they say, are the same. Such trees have one
/// public and one foreign tree.
pub fn no_change_sees_the_journal()
    ensures after { (roots : Roots) (script : Script) (changes : List Change) (a b : Tree)
        → AreApart roots → is_valid roots changes ≡ true → IsFormed a → IsFormed b
        → AreAlike roots a b → HaveStaged roots changes a b
        → AreDoneAlike roots script changes a b }
    ensures parts { (roots : Roots) (a b : Tree) → AreAlike roots a b
        → (public_tree roots a ≡ public_tree roots b)
        × (foreign_tree roots a ≡ foreign_tree roots b) }
{}

/// A formed tree stays formed: behind any changes, and within one that is cut off.
pub fn trees_stay_formed()
    ensures done { (roots : Roots) (script : Script) (changes : List Change) (tree : Tree)
        → IsFormed tree → IsFormed (done roots script changes tree) }
    ensures within { (roots : Roots) (script : Script) (change : Change) (before image : Tree)
        → IsFormed before → IsWithin roots script change before image → IsFormed image }
{}

/// Some roots, changes, areas and trees meet all that these laws ask for.
pub fn some_changes_are_cut_off()
    ensures { (roots : Roots) × (script : Script) × (changes : List Change) × (soft : List Area)
        × (tree : Tree) × (image : Tree) × IsCase roots script changes soft tree image }
{}
