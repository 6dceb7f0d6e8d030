// A law of a journal's text: the contract of a function that does nothing, so that its proof is asked
// for.
ghost use Rattle.std.specs.Prelude.{◌≡◌, List, ℕ};
ghost use Rattle.kb_changes.specs.Text.{IsJournal};
ghost use Rattle.kb_changes.specs.declared.change.Intent.{Intent};
ghost use Rattle.kb_world.specs.declared.roots.Roots.{Roots};

/// A text is the journal of one intent at most, whatever the roots.
pub fn a_text_has_one_intent()
    ensures { (roots other : Roots) (text : List ℕ) (a b : Intent) → IsJournal roots text a
        → IsJournal other text b → a ≡ b }
{}
