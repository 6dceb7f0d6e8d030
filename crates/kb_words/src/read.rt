// The reading of words.
ghost use Rattle.std.specs.Prelude.{◌≡◌, ◌+◌, ◌-◌, ◌≤◌, length};
ghost use Rattle.kb_world.specs.Read.{IsRead};
ghost use Rattle.kb_words.specs.Reading.{reading};

use crate::command::Command;
use crate::parts::usage;
use crate::progress::Progress;
use kb_world::{Host, Stop, Text};
use std::alloc::Global;

// The place of the first word of the rest.
fn place_of(words: &[Text], rest: &[Text]) -> u64
    requires { length rest.now ≤ length words.now }
    ensures { result ≡ length words.now - length rest.now + 1 }
{
    (words.len() - rest.len()) as u64 + 1
}

/// The command that the words are. Refused where they are no command line, with the place of the
/// first word that none has, then for an action on archives, and then for the first name that
/// breaks its rule.
pub fn read_words(alloc: Global, words: &[Text], _host: &Host) -> Result<Command, Stop>
    ensures { IsRead result (reading words.now) }
{
    let mut state = Progress::Start;
    let mut rest = words;
    while let Some((word, behind)) = rest.split_first() {
        let Some(next) = state.after(alloc, word.as_str())? else {
            return Err(usage(place_of(words, rest)));
        };
        state = next;
        rest = behind;
    }
    state.end(place_of(words, rest))
}
