// Changes are read from fields.
ghost use Rattle.std.specs.Prelude.{◌≡◌, ◌<◌, ◌^◌, List, ℕ, ◌∷◌, ◌++◌, All, codes, flat_map, length, map};
ghost use Rattle.std.specs.Fmt.{decimal};
ghost use Rattle.std.specs.Str.{IsUtf8};
ghost use Rattle.kb_changes.specs.Text as rule;
ghost use Rattle.kb_changes.specs.declared.change.Change.{Change as AChange};
ghost use Rattle.kb_changes.specs.declared.change.Change.TheVariants as changes;
ghost use Rattle.kb_changes.specs.declared.change.RootName.{RootName as ARootName};
ghost use Rattle.kb_journal.specs.Reads.{IsPathChange, ReadsBack, list_fields};
ghost use Rattle.kb_world.specs.Path.{Path as APath};
ghost use Rattle.kb_world.specs.declared.child.Area.{Area as AnArea};
ghost use Rattle.kb_world.specs.declared.child.Area.TheVariants as areas;
ghost use Rattle.kb_world.specs.declared.child.Request.{Request as ARequest};

use crate::error::IntentError;
use crate::fields::{Fields, is_word};
use crate::read_list::{read_number, read_pairs, read_path, read_paths, read_text, read_texts};
use kb_changes::{Change, RootName};
use kb_world::{Area, Bytes, Path, Request, Sequence, Text, Texts};
use std::alloc::Global;

// A directory and the names in it.
fn read_names(alloc: Global, fields: &mut Fields) -> Result<Area, IntentError>
    ensures { (directory : APath) (names more : List (List ℕ)) → rule.IsTextPath directory
        → All IsUtf8 names → length names < 2 ^ 64
        → fields.old ≡ rule.path_field directory
        ∷ rule.counted_fields (map rule.text_field names) ++ more
        → ReadsBack (areas.Names directory names) more result fields.new }
{
    let directory = match read_path(alloc, fields) {
        Ok(directory) => directory,
        Err(error) => return Err(error),
    };
    match read_texts(alloc, fields) {
        Ok(names) => Ok(Area::Names(directory, names)),
        Err(error) => Err(error),
    }
}

fn read_area(alloc: Global, fields: &mut Fields) -> Result<Area, IntentError>
    ensures { (area : AnArea) (more : List (List ℕ)) → rule.IsTextArea area
        → fields.old ≡ rule.area_fields area ++ more
        → ReadsBack area more result fields.new }
{
    let Some(word) = fields.next() else {
        return Err(IntentError::Damaged);
    };
    if is_word(&word, "nothing") {
        Ok(Area::Nothing)
    } else if is_word(&word, "under") {
        match read_path(alloc, fields) {
            Ok(directory) => Ok(Area::Under(directory)),
            Err(error) => Err(error),
        }
    } else if is_word(&word, "names") {
        read_names(alloc, fields)
    } else {
        Err(IntentError::Damaged)
    }
}

// The program, the directory and the area.
fn read_head(alloc: Global, fields: &mut Fields) -> Result<(Text, Path, Area), IntentError>
    ensures { (request : ARequest) (more : List (List ℕ)) → rule.IsTextHead request
        → fields.old ≡ rule.head_fields request ++ more
        → ReadsBack (request.program, request.dir, request.area) more result fields.new }
{
    let program = match read_text(alloc, fields) {
        Ok(program) => program,
        Err(error) => return Err(error),
    };
    let dir = match read_path(alloc, fields) {
        Ok(dir) => dir,
        Err(error) => return Err(error),
    };
    match read_area(alloc, fields) {
        Ok(area) => Ok((program, dir, area)),
        Err(error) => Err(error),
    }
}

type Lists = (Texts, Sequence<(Text, Text)>, Sequence<Path>);

// The arguments, the variables and the paths whose files are read.
fn read_lists(alloc: Global, fields: &mut Fields) -> Result<Lists, IntentError>
    ensures { (request : ARequest) (more : List (List ℕ)) → rule.IsTextRequest request
        → fields.old ≡ list_fields request more
        → ReadsBack (request.args, request.env, request.seen) more result fields.new }
{
    fields.skip();
    let args = match read_texts(alloc, fields) {
        Ok(args) => args,
        Err(error) => return Err(error),
    };
    fields.skip();
    let env = match read_pairs(alloc, fields) {
        Ok(env) => env,
        Err(error) => return Err(error),
    };
    fields.skip();
    match read_paths(alloc, fields) {
        Ok(seen) => Ok((args, env, seen)),
        Err(error) => Err(error),
    }
}

fn read_request(alloc: Global, fields: &mut Fields) -> Result<Request, IntentError>
    ensures { (request : ARequest) (more : List (List ℕ)) → rule.IsTextRequest request
        → fields.old ≡ rule.request_fields request ++ more
        → ReadsBack request more result fields.new }
{
    let (program, dir, area) = match read_head(alloc, fields) {
        Ok(head) => head,
        Err(error) => return Err(error),
    };
    let (args, env, seen) = match read_lists(alloc, fields) {
        Ok(lists) => lists,
        Err(error) => return Err(error),
    };
    Ok(Request {
        program,
        args,
        env,
        dir,
        area,
        seen,
    })
}

fn read_root(fields: &mut Fields) -> Result<RootName, IntentError>
    ensures { (root : ARootName) (more : List (List ℕ)) → fields.old ≡ rule.root_field root ∷ more
        → ReadsBack root more result fields.new }
{
    let Some(word) = fields.next() else {
        return Err(IntentError::Damaged);
    };
    if is_word(&word, "D") {
        Ok(RootName::Dkms)
    } else if is_word(&word, "S") {
        Ok(RootName::Src)
    } else if is_word(&word, "L") {
        Ok(RootName::Modules)
    } else if is_word(&word, "B") {
        Ok(RootName::Boot)
    } else {
        Err(IntentError::Damaged)
    }
}

// The root, the number and the target.
fn read_put(alloc: Global, fields: &mut Fields) -> Result<Change, IntentError>
    ensures { (root : ARootName) (number : ℕ) (target : APath) (more : List (List ℕ))
        → number < 2 ^ 64 → rule.IsTextPath target
        → fields.old ≡ rule.root_field root ∷ decimal number ∷ rule.path_field target ∷ more
        → ReadsBack (changes.Put root number target) more result fields.new }
{
    let root = match read_root(fields) {
        Ok(root) => root,
        Err(error) => return Err(error),
    };
    let number = match read_number(fields) {
        Ok(number) => number,
        Err(error) => return Err(error),
    };
    match read_path(alloc, fields) {
        Ok(target) => Ok(Change::Put {
            root,
            number,
            target,
        }),
        Err(error) => Err(error),
    }
}

// The change of a path that the word names.
fn change_of_path(word: &Bytes, path: Path) -> Result<Change, IntentError>
    ensures { (change : AChange) → IsPathChange word.now path change → result ≡ Ok change }
{
    if is_word(word, "dir") {
        Ok(Change::Dir(path))
    } else if is_word(word, "drop") {
        Ok(Change::Drop(path))
    } else if is_word(word, "dropdir") {
        Ok(Change::DropDir(path))
    } else if is_word(word, "wipe") {
        Ok(Change::Wipe(path))
    } else {
        Err(IntentError::Damaged)
    }
}

// The change that this word begins.
fn read_change(alloc: Global, word: &Bytes, fields: &mut Fields) -> Result<Change, IntentError>
    ensures { (change : AChange) (more : List (List ℕ)) → rule.IsTextChange change
        → word.now ∷ fields.old ≡ rule.change_fields change ++ more
        → ReadsBack change more result fields.new }
{
    if is_word(word, "put") {
        read_put(alloc, fields)
    } else if is_word(word, "run") {
        match read_request(alloc, fields) {
            Ok(request) => Ok(Change::Run(request)),
            Err(error) => Err(error),
        }
    } else {
        match read_path(alloc, fields) {
            Ok(path) => change_of_path(word, path),
            Err(error) => Err(error),
        }
    }
}

/// Reads changes up to the word that ends them, and that word.
pub(crate) fn read_changes(
    alloc: Global,
    fields: &mut Fields,
) -> Result<Sequence<Change>, IntentError>
    ensures { (changes : List AChange) (more : List (List ℕ)) → All rule.IsTextChange changes
        → fields.old ≡ flat_map rule.change_fields changes ++ codes "end" ∷ more
        → ReadsBack changes more result fields.new }
{
    let mut changes = Sequence::new(alloc);
    for _ in 0..fields.len() {
        let Some(word) = fields.next() else {
            return Err(IntentError::Damaged);
        };
        if is_word(&word, "end") {
            return Ok(changes);
        }
        match read_change(alloc, &word, fields) {
            Ok(change) => changes.push(change)?,
            Err(error) => return Err(error),
        }
    }
    Err(IntentError::Damaged)
}
