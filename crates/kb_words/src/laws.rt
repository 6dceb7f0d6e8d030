// That the reading of words is what the relation of the command lines says.
ghost use Rattle.std.specs.Prelude.{◌≡◌, true, List, ℕ, Ok, Result};
ghost use Rattle.kb_world.specs.declared.refusal.Refusal as refusals;
ghost use Rattle.kb_words.specs.Words as spec;
ghost use Rattle.kb_words.specs.Reading.{reading};
ghost use Rattle.kb_words.specs.declared.command.Command as commands;

/// The reading of words is the relation of the command lines, and the only answer that the relation
/// allows. The names of a command that is read keep their rules.
pub fn words_are_their_command_line()
    ensures related { (words : List (List ℕ)) → spec.IsReadAs words (reading words) }
    ensures only { (words : List (List ℕ)) (answer : Result commands.Command refusals.Refusal) →
        spec.IsReadAs words answer → answer ≡ reading words }
    ensures named { (words : List (List ℕ)) (it : commands.Command) →
        reading words ≡ Ok it → spec.names_keep_rules it ≡ true }
{}
