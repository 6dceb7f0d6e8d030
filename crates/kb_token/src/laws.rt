// That the reading of a line is what its relation says.
ghost use Rattle.std.specs.Prelude.{List, ℕ};
ghost use Rattle.kb_token.specs.Only.{IsOnly};
ghost use Rattle.kb_token.specs.Variable.{IsVariable, variable_of};

/// The variable of a line is the only one that its spellings give, and a line without one has no
/// spelling.
pub fn variables_are_spelled()
    ensures { (line : List ℕ) → IsOnly (IsVariable line) (variable_of line) }
{}
