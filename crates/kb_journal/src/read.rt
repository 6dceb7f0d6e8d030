// An intent is read.
ghost use Rattle.std.specs.Prelude.{◌≡◌, List, ℕ, ◌∷◌, ◌++◌, All, IfOk, IsErrOf, map};
ghost use Rattle.std.specs.Str.{IsUtf8};
ghost use Rattle.kb_changes.specs.Text as rule;
ghost use Rattle.kb_changes.specs.declared.change.Intent.{Intent as AnIntent};
ghost use Rattle.kb_journal.specs.Reads.{IsNoText, IsValueRead, ReadsBack};
ghost use Rattle.kb_journal.specs.declared.error.IntentError.TheVariants.{Damaged};

use crate::error::IntentError;
use crate::fields::{Fields, text_of};
use crate::read_change::read_changes;
use crate::write::write_intent;
use kb_changes::{Intent, is_valid};
use kb_world::{Roots, Sequence, Texts};
use std::alloc::Global;

// Reads texts up to the first field that is none.
fn read_words(alloc: Global, fields: &mut Fields) -> Result<Texts, IntentError>
    ensures { (words : List (List ℕ)) (end : List ℕ) (more : List (List ℕ)) → All IsUtf8 words
        → IsNoText end → fields.old ≡ map rule.text_field words ++ end ∷ more
        → ReadsBack words (end ∷ more) result fields.new }
{
    let mut words = Sequence::new(alloc);
    for _ in 0..fields.len() {
        let Some(field) = fields.next() else {
            return Err(IntentError::Damaged);
        };
        match text_of(alloc, field.as_slice()) {
            Ok(Some(word)) => words.push(word)?,
            Ok(None) => {
                fields.put_back(field)?;
                return Ok(words);
            }
            Err(error) => return Err(error),
        }
    }
    Err(IntentError::Damaged)
}

// The intent of a text that may be a journal. What stands between the fields isn't looked at, nor
// the digest.
fn read_loosely(alloc: Global, text: &[u8]) -> Result<Intent, IntentError>
    ensures { (intent : AnIntent) → rule.AreTexts intent → text.now ≡ rule.intent_text intent
        → IsValueRead intent result }
{
    let mut fields = Fields::of(alloc, text)?;
    // `kmodboot intent 1` and `words`
    fields.skip();
    fields.skip();
    fields.skip();
    fields.skip();
    let words = match read_words(alloc, &mut fields) {
        Ok(words) => words,
        Err(error) => return Err(error),
    };
    match read_changes(alloc, &mut fields) {
        Ok(changes) => Ok(Intent { words, changes }),
        Err(error) => Err(error),
    }
}

/// The intent of a journal: the only one that has this text. A text is damaged exactly where no
/// intent that is valid under these roots has it.
pub fn read_intent(alloc: Global, text: &[u8], roots: &Roots) -> Result<Intent, IntentError>
    ensures intent { IfOk result (λ intent. rule.IsJournal roots.now text.now intent) }
    ensures only { IfOk result (λ intent. (other : AnIntent)
        → rule.IsJournal roots.now text.now other → other ≡ intent) }
    ensures damaged { IsErrOf result Damaged → (other : AnIntent)
        → rule.IsJournal roots.now text.now other → ⊥ }
{
    let intent = match read_loosely(alloc, text) {
        Ok(intent) => intent,
        Err(error) => return Err(error),
    };
    let valid = is_valid(alloc, roots, intent.changes.as_slice())?;
    let spelled = write_intent(alloc, &intent)?;
    if valid && spelled.as_slice() == text {
        Ok(intent)
    } else {
        Err(IntentError::Damaged)
    }
}
