// How changes are spelled as fields.
ghost use Rattle.std.specs.Prelude.{◌≡◌, ◌<◌, ◌^◌, ◌++◌, ◌∷◌, [], All, IfOk, OnOk, codes, length, map};
ghost use Rattle.std.specs.Str.{IsUtf8};
ghost use Rattle.kb_changes.specs.Text as rule;

use crate::spell::{
    number_field, path_field, push_count, push_pairs, push_paths, push_texts, push_word, text_field,
};
use kb_changes::{Change, RootName};
use kb_world::{Area, Path, Request, Text};
use std::alloc::{AllocError, Global};

// The word and the path.
fn path_fields(alloc: Global, word: &str, path: &Path) -> Result<Vec<Text>, AllocError>
    ensures fields { IfOk result (λ fields. fields.items ≡ word.now ∷ rule.path_field path.now ∷ []) }
    ensures path { OnOk result (rule.IsTextPath path.now) }
{
    let mut fields = Vec::new(alloc);
    push_word(alloc, &mut fields, word)?;
    fields.push(path_field(alloc, path)?)?;
    Ok(fields)
}

fn push_area(alloc: Global, fields: &mut Vec<Text>, area: &Area) -> Result<(), AllocError>
    ensures fields { OnOk result (fields.new.items ≡ fields.old.items ++ rule.area_fields area.now) }
    ensures area { OnOk result (rule.IsTextArea area.now) }
{
    match area {
        Area::Nothing => push_word(alloc, fields, "nothing"),
        Area::Under(directory) => {
            push_word(alloc, fields, "under")?;
            fields.push(path_field(alloc, directory)?)?;
            Ok(())
        }
        Area::Names(directory, names) => {
            push_word(alloc, fields, "names")?;
            fields.push(path_field(alloc, directory)?)?;
            push_counted_texts(alloc, fields, names.as_slice())?;
            Ok(())
        }
    }
}

// How many texts there are, and each.
fn push_counted_texts(
    alloc: Global,
    fields: &mut Vec<Text>,
    texts: &[Text],
) -> Result<(), AllocError>
    ensures fields { OnOk result (fields.new.items ≡ fields.old.items ++ rule.counted_fields (map rule.text_field texts.now)) }
    ensures texts { OnOk result (All IsUtf8 texts.now) }
    ensures counted { OnOk result (length texts.now < 2 ^ 64) }
{
    push_count(alloc, fields, texts.len())?;
    push_texts(alloc, fields, texts)
}

// How many paths there are, and each.
fn push_counted_paths(
    alloc: Global,
    fields: &mut Vec<Text>,
    paths: &[Path],
) -> Result<(), AllocError>
    ensures fields { OnOk result (fields.new.items ≡ fields.old.items ++ rule.counted_fields (map rule.path_field paths.now)) }
    ensures paths { OnOk result (All rule.IsTextPath paths.now) }
    ensures counted { OnOk result (length paths.now < 2 ^ 64) }
{
    push_count(alloc, fields, paths.len())?;
    push_paths(alloc, fields, paths)
}

// How many pairs there are, and both of each.
fn push_counted_pairs(
    alloc: Global,
    fields: &mut Vec<Text>,
    pairs: &[(Text, Text)],
) -> Result<(), AllocError>
    ensures fields { OnOk result (fields.new.items ≡ fields.old.items ++ rule.pair_fields pairs.now) }
    ensures pairs { OnOk result (rule.AreTextPairs pairs.now) }
    ensures counted { OnOk result (length pairs.now < 2 ^ 64) }
{
    push_count(alloc, fields, pairs.len())?;
    push_pairs(alloc, fields, pairs)
}

// The program, the directory and the area.
fn push_head(alloc: Global, fields: &mut Vec<Text>, request: &Request) -> Result<(), AllocError>
    ensures fields { OnOk result (fields.new.items ≡ fields.old.items ++ rule.head_fields request.now) }
    ensures head { OnOk result (rule.IsTextHead request.now) }
{
    fields.push(text_field(alloc, request.program.as_str())?)?;
    fields.push(path_field(alloc, &request.dir)?)?;
    push_area(alloc, fields, &request.area)
}

fn push_request(alloc: Global, fields: &mut Vec<Text>, request: &Request) -> Result<(), AllocError>
    ensures fields { OnOk result (fields.new.items ≡ fields.old.items ++ rule.request_fields request.now) }
    ensures request { OnOk result (rule.IsTextRequest request.now) }
{
    push_head(alloc, fields, request)?;
    push_word(alloc, fields, "args")?;
    push_counted_texts(alloc, fields, request.args.as_slice())?;
    push_word(alloc, fields, "env")?;
    push_counted_pairs(alloc, fields, request.env.as_slice())?;
    push_word(alloc, fields, "seen")?;
    push_counted_paths(alloc, fields, request.seen.as_slice())?;
    Ok(())
}

fn root_field(root: RootName) -> &'static str
    ensures { result.now ≡ rule.root_field root }
{
    match root {
        RootName::Dkms => "D",
        RootName::Src => "S",
        RootName::Modules => "L",
        RootName::Boot => "B",
    }
}

fn put_fields(
    alloc: Global,
    root: RootName,
    number: u64,
    target: &Path,
) -> Result<Vec<Text>, AllocError>
    ensures fields { IfOk result (λ fields. fields.items ≡ rule.put_fields root number target.now) }
    ensures target { OnOk result (rule.IsTextPath target.now) }
{
    let mut fields = Vec::new(alloc);
    push_word(alloc, &mut fields, "put")?;
    push_word(alloc, &mut fields, root_field(root))?;
    fields.push(number_field(alloc, number)?)?;
    fields.push(path_field(alloc, target)?)?;
    Ok(fields)
}

fn run_fields(alloc: Global, request: &Request) -> Result<Vec<Text>, AllocError>
    ensures fields { IfOk result (λ fields. fields.items ≡ codes "run" ∷ rule.request_fields request.now) }
    ensures request { OnOk result (rule.IsTextRequest request.now) }
{
    let mut fields = Vec::new(alloc);
    push_word(alloc, &mut fields, "run")?;
    push_request(alloc, &mut fields, request)?;
    Ok(fields)
}

/// The fields of a change's line.
pub(crate) fn change_fields(alloc: Global, change: &Change) -> Result<Vec<Text>, AllocError>
    ensures fields { IfOk result (λ fields. fields.items ≡ rule.change_fields change.now) }
    ensures change { OnOk result (rule.IsTextChange change.now) }
{
    match change {
        Change::Dir(path) => path_fields(alloc, "dir", path),
        Change::Put {
            root,
            number,
            target,
        } => put_fields(alloc, *root, *number, target),
        Change::Drop(path) => path_fields(alloc, "drop", path),
        Change::DropDir(path) => path_fields(alloc, "dropdir", path),
        Change::Wipe(path) => path_fields(alloc, "wipe", path),
        Change::Run(request) => run_fields(alloc, request),
    }
}
