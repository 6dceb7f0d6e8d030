// An intent is written.
ghost use Rattle.std.specs.Prelude.{◌≡◌, ◌++◌, ◌∷◌, [], All, IfOk, OnOk, codes, flat_map, map};
ghost use Rattle.std.specs.Str.{IsUtf8};
ghost use Rattle.kb_changes.specs.Text as rule;

use crate::spell::{push_texts, push_word};
use crate::spell_change::change_fields;
use kb_changes::{Change, Intent};
use kb_world::{Bytes, Text};
use sha2::{Digest, Sha256};
use std::alloc::{AllocError, Global};

// Adds each field behind a space.
fn push_spaced(out: &mut Bytes, fields: &[Text]) -> Result<(), AllocError>
    ensures { OnOk result (out.new ≡ out.old ++ flat_map (λ field. 32 ∷ field) fields.now) }
{
    for field in fields {
        out.push(b" ")?;
        out.push(field.as_str().as_bytes())?;
    }
    Ok(())
}

// Adds a line.
fn push_line(out: &mut Bytes, fields: &[Text]) -> Result<(), AllocError>
    ensures { OnOk result (out.new ≡ out.old ++ rule.line_of_fields fields.now) }
{
    if let [first, rest @ ..] = fields {
        out.push(first.as_str().as_bytes())?;
        push_spaced(out, rest)?;
    }
    out.push(b"\n")
}

// Adds the line of the words.
fn push_words(alloc: Global, out: &mut Bytes, words: &[Text]) -> Result<(), AllocError>
    ensures line { OnOk result (out.new ≡ out.old ++ rule.words_line words.now) }
    ensures words { OnOk result (All IsUtf8 words.now) }
{
    let mut fields = Vec::new(alloc);
    push_word(alloc, &mut fields, "words")?;
    push_texts(alloc, &mut fields, words)?;
    push_line(out, &fields)
}

// Adds a line for each change.
fn push_changes(alloc: Global, out: &mut Bytes, changes: &[Change]) -> Result<(), AllocError>
    ensures lines { OnOk result (out.new ≡ out.old ++ rule.changes_text changes.now) }
    ensures changes { OnOk result (All rule.IsTextChange changes.now) }
{
    for change in changes {
        let fields = change_fields(alloc, change)?;
        push_line(out, &fields)?;
    }
    Ok(())
}

// What stands before the digest.
fn body(alloc: Global, intent: &Intent) -> Result<Bytes, AllocError>
    ensures text { IfOk result (λ body. body ≡ rule.intent_body intent.now) }
    ensures texts { OnOk result (rule.AreTexts intent.now) }
{
    let mut out = Bytes::of(alloc, b"kmodboot intent 1\n")?;
    push_words(alloc, &mut out, intent.words.as_slice())?;
    push_changes(alloc, &mut out, intent.changes.as_slice())?;
    Ok(out)
}

// The digest in hexadecimal.
fn digest(alloc: Global, bytes: &[u8]) -> Result<Text, AllocError>
    ensures { IfOk result (λ text. text ≡ rule.digest_field bytes.now) }
{
    Ok(Text::from_string(hex::encode(alloc, Sha256::digest(bytes))?))
}

/// The journal of an intent: its text, with the digest that tells a whole journal from a torn one.
pub fn write_intent(alloc: Global, intent: &Intent) -> Result<Bytes, AllocError>
    ensures text { IfOk result (λ bytes. bytes ≡ rule.intent_text intent.now) }
    ensures texts { OnOk result (rule.AreTexts intent.now) }
{
    let mut out = body(alloc, intent)?;
    let digest = digest(alloc, out.as_slice())?;
    out.push(b"end ")?;
    out.push(digest.as_str().as_bytes())?;
    out.push(b"\n")?;
    Ok(out)
}
