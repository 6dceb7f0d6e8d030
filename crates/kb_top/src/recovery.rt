// What is told of a recovery.
ghost use Rattle.std.specs.Prelude.{◌≡◌, ◌++◌, List, Option, option_map, codes, OnOk};
ghost use Rattle.std.specs.List.{join_by};
ghost use Rattle.kb_words.specs.Words.{Word};
ghost use Rattle.kb_top.specs.Machine.{is_recovery, recovered_line, recovery_printed};
ghost use Rattle.kb_top.specs.Machine.{recovery_warned};
ghost use Rattle.kb_top.specs.Telling.{words_found, told_to};

use kb_intent::Recovered;
use kb_words::Command;
use kb_world::{Bytes, Report, Stop, Text};
use std::alloc::AllocError;

// Adds a space and the word.
fn push_behind(text: &mut Bytes, word: &Text) -> Result<(), AllocError>
    ensures { OnOk result (text.new ≡ text.old ++ (codes " " ++ word.now)) }
{
    text.push(" ".as_bytes())?;
    text.push(word.as_str().as_bytes())
}

// Adds the words, with a space between each two.
fn push_words(text: &mut Bytes, words: &[Text]) -> Result<(), AllocError>
    ensures { OnOk result (text.new ≡ text.old ++ join_by (λ word. word) (codes " ") words.now) }
{
    let Some((first, rest)) = words.split_first() else {
        return Ok(());
    };
    text.push(first.as_str().as_bytes())?;
    for word in rest {
        push_behind(text, word)?;
    }
    Ok(())
}

// Adds the line of a journal's words.
fn push_line(text: &mut Bytes, words: &[Text]) -> Result<(), AllocError>
    ensures { OnOk result (text.new ≡ text.old ++ recovered_line words.now) }
{
    text.push("recovered: ".as_bytes())?;
    push_words(text, words)?;
    text.push("\n".as_bytes())
}

// Adds what standard output is told.
fn push_printed(text: &mut Bytes, found: &Option<Recovered>) -> Result<(), AllocError>
    ensures { OnOk result (text.new ≡ text.old ++ recovery_printed (words_found found.now)) }
{
    match found {
        Some(recovered) => push_line(text, recovered.words.as_slice()),
        None => text.push("nothing to recover\n".as_bytes()),
    }
}

// Adds what standard error is told.
fn push_warned(text: &mut Bytes, found: &Option<Recovered>) -> Result<(), AllocError>
    ensures { OnOk result (text.new ≡ text.old ++ recovery_warned (words_found found.now)) }
{
    match found {
        Some(recovered) => push_line(text, recovered.words.as_slice()),
        None => Ok(()),
    }
}

/// Tells what a recovery found: on standard output where the words ask for a recovery, else on
/// standard error.
pub fn tell_recovery(
    report: &mut Report,
    read: &Result<Command, Stop>,
    found: &Option<Recovered>,
) -> Result<(), AllocError>
    ensures { OnOk result (report.new ≡ told_to (words_found found.now)
        (is_recovery read.now) report.old) }
{
    match read {
        Ok(Command::Recover) => push_printed(&mut report.out, found),
        Ok(Command::Help | Command::Add { .. } | Command::AddTree { .. } | Command::Status { .. })
        | Err(_) => push_warned(&mut report.err, found),
    }
}
