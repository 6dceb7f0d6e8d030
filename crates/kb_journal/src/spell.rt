// How values are spelled as fields.
ghost use Rattle.std.specs.Prelude.{◌≡◌, ◌<◌, ◌^◌, ◌++◌, ◌∷◌, [], All, IfOk, OnOk, map, flat_map, length};
ghost use Rattle.std.specs.Fmt.{decimal};
ghost use Rattle.std.specs.Str.{IsUtf8};
ghost use Rattle.kb_changes.specs.Text as rule;

use kb_world::{Path, Text};
use std::alloc::{AllocError, Global};

/// A text as a field.
pub(crate) fn text_field(alloc: Global, text: &str) -> Result<Text, AllocError>
    ensures field { IfOk result (λ field. field ≡ rule.text_field text.now) }
    ensures utf8 { IsUtf8 text.now }
{
    if text.is_empty() {
        Text::of(alloc, "-")
    } else {
        Ok(Text::from_string(hex::encode(alloc, text.as_bytes())?))
    }
}

/// A path's text as a field.
pub(crate) fn path_field(alloc: Global, path: &Path) -> Result<Text, AllocError>
    ensures field { IfOk result (λ field. field ≡ rule.path_field path.now) }
    ensures path { OnOk result (rule.IsTextPath path.now) }
{
    let _names = path.names();
    let text = path.text(alloc)?;
    let field = text_field(alloc, text.as_str())?;
    Ok(field)
}

/// A number as a field.
pub(crate) fn number_field(alloc: Global, number: u64) -> Result<Text, AllocError>
    ensures { IfOk result (λ field. field ≡ decimal number) }
{
    Ok(Text::from_string(format!(in alloc; "{number}")?))
}

/// Adds a field for each text.
pub(crate) fn push_texts(
    alloc: Global,
    fields: &mut Vec<Text>,
    texts: &[Text],
) -> Result<(), AllocError>
    ensures fields { OnOk result (fields.new.items ≡ fields.old.items ++ map rule.text_field texts.now) }
    ensures texts { OnOk result (All IsUtf8 texts.now) }
{
    for text in texts {
        fields.push(text_field(alloc, text.as_str())?)?;
    }
    Ok(())
}

/// Adds a field for each path.
pub(crate) fn push_paths(
    alloc: Global,
    fields: &mut Vec<Text>,
    paths: &[Path],
) -> Result<(), AllocError>
    ensures fields { OnOk result (fields.new.items ≡ fields.old.items ++ map rule.path_field paths.now) }
    ensures paths { OnOk result (All rule.IsTextPath paths.now) }
{
    for path in paths {
        fields.push(path_field(alloc, path)?)?;
    }
    Ok(())
}

/// Adds two fields for each pair.
pub(crate) fn push_pairs(
    alloc: Global,
    fields: &mut Vec<Text>,
    pairs: &[(Text, Text)],
) -> Result<(), AllocError>
    ensures fields { OnOk result (fields.new.items ≡ fields.old.items ++ flat_map rule.pair_field pairs.now) }
    ensures pairs { OnOk result (rule.AreTextPairs pairs.now) }
{
    for pair in pairs {
        fields.push(text_field(alloc, pair.0.as_str())?)?;
        fields.push(text_field(alloc, pair.1.as_str())?)?;
    }
    Ok(())
}

/// Adds a word as it stands.
pub(crate) fn push_word(alloc: Global, fields: &mut Vec<Text>, word: &str) -> Result<(), AllocError>
    ensures { OnOk result (fields.new.items ≡ fields.old.items ++ word.now ∷ []) }
{
    fields.push(Text::of(alloc, word)?)?;
    Ok(())
}

/// Adds a count.
pub(crate) fn push_count(
    alloc: Global,
    fields: &mut Vec<Text>,
    count: usize,
) -> Result<(), AllocError>
    ensures { OnOk result (fields.new.items ≡ fields.old.items ++ decimal count ∷ []) }
{
    fields.push(number_field(alloc, count as u64)?)?;
    Ok(())
}
