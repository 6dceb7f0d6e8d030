// Where in a command line the words read so far end.
ghost use Rattle.std.specs.Prelude.{◌≡◌, IfOk};
ghost use Rattle.kb_world.specs.Read.{IsRead};
ghost use Rattle.kb_words.specs.Words.{is_archive};
ghost use Rattle.kb_words.specs.Reading as spec;

use crate::command::Command;
use crate::parts::{DkmsAction, Seen, usage};
use kb_world::{Path, PathError, Refusal, Stop, Text};
use std::alloc::{AllocError, Global};

/// Where the words read so far end.
#[derive(Debug, Drop)]
pub enum Progress {
    Start,
    Help,
    Recover,
    Dkms,
    /// Behind one of dkms's actions on archives.
    Archive(Text),
    /// Behind `dkms add`.
    Add,
    /// Behind `dkms add` and this path.
    Tree(Path),
    /// Behind an action of dkms and parts.
    Parts(Seen),
}

fn is_archive(word: &str) -> bool
    ensures { result ≡ is_archive word.now }
{
    word == "mktarball"
        || word == "ldtarball"
        || word == "mkrpm"
        || word == "mkdeb"
        || word == "mkbmdeb"
        || word == "mkdsc"
        || word == "mkdriverdisk"
        || word == "mkkmp"
}

fn action_named(word: &str) -> Option<DkmsAction>
    ensures { result ≡ spec.action_named word.now }
{
    if word == "add" {
        Some(DkmsAction::Add)
    } else if word == "status" {
        Some(DkmsAction::Status)
    } else {
        None
    }
}

fn after_start(word: &str) -> Option<Progress>
    ensures { result ≡ spec.after_start word.now }
{
    if word == "help" {
        Some(Progress::Help)
    } else if word == "recover" {
        Some(Progress::Recover)
    } else if word == "dkms" {
        Some(Progress::Dkms)
    } else {
        None
    }
}

fn behind_action(alloc: Global, action: DkmsAction) -> Progress
    ensures { result ≡ spec.behind_action action }
{
    match action {
        DkmsAction::Add => Progress::Add,
        DkmsAction::Status => Progress::Parts(Seen::nothing(alloc, action)),
    }
}

fn after_dkms(alloc: Global, word: &str) -> Result<Option<Progress>, AllocError>
    ensures { IfOk result (λ next. next ≡ spec.after_dkms word.now) }
{
    if let Some(action) = action_named(word) {
        Ok(Some(behind_action(alloc, action)))
    } else if is_archive(word) {
        Ok(Some(Progress::Archive(Text::of(alloc, word)?)))
    } else {
        Ok(None)
    }
}

// The path whose text the word is.
fn path_of(alloc: Global, word: &str) -> Result<Option<Path>, AllocError>
    ensures { IfOk result (λ found. found ≡ spec.path_read word.now) }
{
    match Path::parse(alloc, word) {
        Ok(path) => Ok(Some(path)),
        Err(PathError::NotAPath) => Ok(None),
        Err(PathError::NoMemory) => Err(AllocError),
    }
}

fn after_part(seen: Seen, alloc: Global, word: &str) -> Result<Option<Progress>, AllocError>
    ensures { IfOk result (λ next. next ≡ spec.after_part seen word.now) }
{
    match seen.after(alloc, word)? {
        Some(more) => Ok(Some(Progress::Parts(more))),
        None => Ok(None),
    }
}

fn after_add(alloc: Global, word: &str) -> Result<Option<Progress>, AllocError>
    ensures { IfOk result (λ next. next ≡ spec.after_add word.now) }
{
    match path_of(alloc, word)? {
        Some(path) => Ok(Some(Progress::Tree(path))),
        None => after_part(Seen::nothing(alloc, DkmsAction::Add), alloc, word),
    }
}

impl Progress {
    /// With one word more, where some command line goes on so.
    pub fn after(self, alloc: Global, word: &str) -> Result<Option<Self>, AllocError>
        ensures { IfOk result (λ next. next ≡ spec.after_word self word.now) }
    {
        match self {
            Progress::Start => Ok(after_start(word)),
            Progress::Help | Progress::Recover | Progress::Tree(_) => Ok(None),
            Progress::Dkms => after_dkms(alloc, word),
            Progress::Archive(action) => Ok(Some(Progress::Archive(action))),
            Progress::Add => after_add(alloc, word),
            Progress::Parts(seen) => after_part(seen, alloc, word),
        }
    }

    /// The command, where the words end here. Refused with this place where no command line does.
    pub fn end(self, place: u64) -> Result<Command, Stop>
        ensures { IsRead result (spec.read_line place (spec.ended self)) }
    {
        match self {
            Progress::Start | Progress::Dkms | Progress::Add => Err(usage(place)),
            Progress::Help => Ok(Command::Help),
            Progress::Recover => Ok(Command::Recover),
            Progress::Archive(word) => Err(Stop::Refused(Refusal::Archive { word })),
            Progress::Tree(path) => Ok(Command::AddTree { path }),
            Progress::Parts(seen) => seen.end(place),
        }
    }
}
