//! What the grammar says of a text, whoever reads it.
ghost use Rattle.std.specs.Prelude.{◌≡◌, ℕ, List};
ghost use Rattle.std.specs.List.{AllByRecursion};
ghost use Rattle.kb_conf.specs.TextOf.{IsTextAssignment, IsTextGiven};
ghost use Rattle.kb_conf.specs.Assignment.{Assignment, Given};
ghost use Rattle.kb_conf.specs.Meaning.{Means, meaning_of};
ghost use Rattle.kb_conf.specs.Reading.{IsGood, IsBadLine};

/// A text has one list of assignments, or one bad line.
pub fn one_meaning()
    ensures one_list { (g : Given) (text : List ℕ) (first second : List Assignment) →
        IsGood g text first → IsGood g text second → first ≡ second }
    ensures good_or_bad { (g : Given) (text : List ℕ) (assignments : List Assignment) (line : ℕ) →
        IsGood g text assignments → IsBadLine g text line → ⊥ }
    ensures one_line { (g : Given) (text : List ℕ) (first second : ℕ) →
        IsBadLine g text first → IsBadLine g text second → first ≡ second }
{}

/// What a good text assigns is UTF-8, where what is given is.
pub fn assigns_text()
    ensures { (g : Given) (text : List ℕ) (assignments : List Assignment) →
        IsTextGiven g → IsGood g text assignments → AllByRecursion IsTextAssignment assignments }
{}

/// What is computed of a text is what the grammar says of it.
pub fn meaning_is_computed()
    ensures { (g : Given) (text : List ℕ) → Means g text (meaning_of g text) }
{}
