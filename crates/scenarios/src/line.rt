// The lines of a scenario. A line that is added is a variant here and an arm in one of the functions that read, and an
// arm where it is done.

use crate::error::LineError;
use crate::fields::{
    calls, field_path, last_bytes, last_field, last_path, last_text, no_field, number, split_field,
    word_text, words,
};
use crate::parts::{Part, read_part};
use kb_world::{Bytes, Node, Path, Text, Texts, TokenChoice};
use std::alloc::Global;

/// What a line says.
#[derive(Drop)]
pub enum Line {
    /// Begins anew, with the root directory alone or with the plain world.
    Begin { plain: bool },
    Set(Set),
    Child { program: Text, args: Texts },
    Part(Part),
    Act(Action),
}

/// A part of the setting: the two variables of the environment, and the running kernel and its architecture.
#[derive(Drop)]
pub enum Set {
    Root(Text),
    Boot(Text),
    Kernel(Option<Text>),
    Arch(Option<Text>),
}

/// What is done to the world, or asked.
#[derive(Drop)]
pub enum Action {
    Place { path: Path, node: Node },
    Zeros { path: Path, count: u64 },
    Fill { path: Path, count: u64 },
    Remove(Path),
    Wipe(Path),
    Copy { from: Path, to: Path },
    Fail { target: Target, calls: Vec<u64> },
    Run(Texts),
    Halt(Halted),
    Show(Show),
    Ask(Ask),
}

/// A run that is halted: how many calls of the world pass, what is chosen, and the run's words.
#[derive(Drop)]
pub struct Halted {
    pub after: u64,
    pub choice: u64,
    pub words: Texts,
}

/// Whose calls are to fail.
#[derive(Clone, Copy)]
pub enum Target {
    World,
    Out,
    Err,
}

/// What is printed of the world.
#[derive(Drop)]
pub enum Show {
    Tree(Path),
    Requests,
    Store,
    Claimant(Claimed),
    Conf(Path),
    Facts(TokenChoice),
    Index(Path),
    Journal(Bytes),
    JournalBytes(Bytes),
}

/// The kernel and the file that are claimed, and the module and the architecture that don't count.
#[derive(Drop)]
pub struct Claimed {
    pub kernel: Text,
    pub file: Text,
    pub module: Text,
    pub arch: Text,
}

/// What is asked of a text alone.
#[derive(Drop)]
pub enum Ask {
    Name(Text),
    Path(Text),
    Version { left: Text, right: Text },
    Targets(Bytes),
    Assignments(Bytes),
    Pattern { pattern: Text, text: Text },
    Entry(Bytes),
    EntryName(Text),
    Sort(Texts),
    Layout(Laid),
    Refusal(u64),
    NoMemory,
}

/// The layout that is asked for, the text of `loader/entries.srel`, and whether the token's directory is there.
#[derive(Drop)]
pub struct Laid {
    pub asked: Text,
    pub srel: Text,
    pub has_directory: bool,
}

fn set_line(set: Set) -> Result<Option<Line>, LineError> {
    Ok(Some(Line::Set(set)))
}

fn act_line(action: Action) -> Result<Option<Line>, LineError> {
    Ok(Some(Line::Act(action)))
}

fn show_line(show: Show) -> Result<Option<Line>, LineError> {
    act_line(Action::Show(show))
}

fn ask_line(ask: Ask) -> Result<Option<Line>, LineError> {
    act_line(Action::Ask(ask))
}

fn begin(rest: Option<&str>, plain: bool) -> Result<Option<Line>, LineError> {
    no_field(rest)?;
    Ok(Some(Line::Begin { plain }))
}

// The lines that begin a scenario, and those of the setting.
fn read_setting(alloc: Global, word: &str, rest: Option<&str>) -> Result<Option<Line>, LineError> {
    match word {
        "world" => begin(rest, false),
        "plain" => begin(rest, true),
        "root" => set_line(Set::Root(last_text(alloc, rest)?)),
        "boot" => set_line(Set::Boot(last_text(alloc, rest)?)),
        "kernel" => set_line(Set::Kernel(Some(last_text(alloc, rest)?))),
        "arch" => set_line(Set::Arch(Some(last_text(alloc, rest)?))),
        "no-kernel" => {
            no_field(rest)?;
            set_line(Set::Kernel(None))
        }
        "no-arch" => {
            no_field(rest)?;
            set_line(Set::Arch(None))
        }
        _ => Ok(None),
    }
}

fn place_file(alloc: Global, rest: Option<&str>, exec: bool) -> Result<Option<Line>, LineError> {
    let (field, last) = split_field(rest)?;
    let path = field_path(alloc, field)?;
    let bytes = last_bytes(alloc, Some(last))?;
    act_line(Action::Place {
        path,
        node: Node::File { bytes, exec },
    })
}

fn place_link(alloc: Global, rest: Option<&str>) -> Result<Option<Line>, LineError> {
    let (field, last) = split_field(rest)?;
    let path = field_path(alloc, field)?;
    let text = last_text(alloc, Some(last))?;
    act_line(Action::Place {
        path,
        node: Node::Link { text },
    })
}

// A path, and how much of something stands there.
fn path_and_count(alloc: Global, rest: Option<&str>) -> Result<(Path, u64), LineError> {
    let (field, last) = split_field(rest)?;
    Ok((field_path(alloc, field)?, number(last)?))
}

// The lines of edits from outside.
fn read_edit(alloc: Global, word: &str, rest: Option<&str>) -> Result<Option<Line>, LineError> {
    match word {
        "dir" => act_line(Action::Place {
            path: last_path(alloc, rest)?,
            node: Node::Dir,
        }),
        "file" => place_file(alloc, rest, false),
        "exec" => place_file(alloc, rest, true),
        "link" => place_link(alloc, rest),
        "zeros" => {
            let (path, count) = path_and_count(alloc, rest)?;
            act_line(Action::Zeros { path, count })
        }
        "fill" => {
            let (path, count) = path_and_count(alloc, rest)?;
            act_line(Action::Fill { path, count })
        }
        "remove" => act_line(Action::Remove(last_path(alloc, rest)?)),
        _ => Ok(None),
    }
}

fn read_fail(alloc: Global, target: Target, rest: Option<&str>) -> Result<Option<Line>, LineError> {
    act_line(Action::Fail {
        target,
        calls: calls(alloc, rest)?,
    })
}

fn read_halt(alloc: Global, rest: Option<&str>) -> Result<Option<Line>, LineError> {
    let (after, rest) = split_field(rest)?;
    let (choice, rest) = split_word(rest);
    act_line(Action::Halt(Halted {
        after: number(after)?,
        choice: number(choice)?,
        words: words(alloc, rest)?,
    }))
}

// The lines of the program's runs.
fn read_run(alloc: Global, word: &str, rest: Option<&str>) -> Result<Option<Line>, LineError> {
    match word {
        "child" => {
            let (program, args) = split_word(last_field(rest)?);
            Ok(Some(Line::Child {
                program: word_text(alloc, program)?,
                args: words(alloc, args)?,
            }))
        }
        "run" => act_line(Action::Run(words(alloc, rest)?)),
        "wipe" => act_line(Action::Wipe(last_path(alloc, rest)?)),
        "copy" => {
            let (from, to) = split_field(rest)?;
            act_line(Action::Copy {
                from: field_path(alloc, from)?,
                to: last_path(alloc, Some(to))?,
            })
        }
        "halt" => read_halt(alloc, rest),
        "fail" => read_fail(alloc, Target::World, rest),
        "fail-out" => read_fail(alloc, Target::Out, rest),
        "fail-err" => read_fail(alloc, Target::Err, rest),
        _ => Ok(None),
    }
}

fn read_claimant(alloc: Global, rest: Option<&str>) -> Result<Option<Line>, LineError> {
    let (kernel, rest) = split_field(rest)?;
    let (file, rest) = split_field(Some(rest))?;
    let (module, arch) = split_field(Some(rest))?;
    show_line(Show::Claimant(Claimed {
        kernel: word_text(alloc, kernel)?,
        file: word_text(alloc, file)?,
        module: word_text(alloc, module)?,
        arch: word_text(alloc, arch)?,
    }))
}

// How an entry token is chosen, as kernel-install's option has it.
fn choice(alloc: Global, text: &str) -> Result<TokenChoice, LineError> {
    match text {
        "auto" => Ok(TokenChoice::Auto),
        "machine-id" => Ok(TokenChoice::MachineId),
        "os-id" => Ok(TokenChoice::OsId),
        "os-image-id" => Ok(TokenChoice::OsImageId),
        _ => match text.strip_prefix("literal:") {
            Some(token) => Ok(TokenChoice::Literal(Text::of(alloc, token)?)),
            None => Err(LineError::NotAChoice),
        },
    }
}

// The lines that print what the world has.
fn read_show(alloc: Global, word: &str, rest: Option<&str>) -> Result<Option<Line>, LineError> {
    match word {
        "tree" => show_line(Show::Tree(last_path(alloc, rest)?)),
        "requests" => {
            no_field(rest)?;
            show_line(Show::Requests)
        }
        "store" => {
            no_field(rest)?;
            show_line(Show::Store)
        }
        "claimant" => read_claimant(alloc, rest),
        "conf" => show_line(Show::Conf(last_path(alloc, rest)?)),
        "index" => show_line(Show::Index(last_path(alloc, rest)?)),
        "journal" => show_line(Show::Journal(last_bytes(alloc, rest)?)),
        "journal-bytes" => show_line(Show::JournalBytes(last_bytes(alloc, rest)?)),
        "facts" => show_line(Show::Facts(choice(alloc, last_text(alloc, rest)?.as_str())?)),
        _ => Ok(None),
    }
}

// The lines that ask of a text alone.
fn read_ask(alloc: Global, word: &str, rest: Option<&str>) -> Result<Option<Line>, LineError> {
    match word {
        "name" => ask_line(Ask::Name(last_text(alloc, rest)?)),
        "path" => ask_line(Ask::Path(last_text(alloc, rest)?)),
        "version" => {
            let (left, right) = split_field(rest)?;
            ask_line(Ask::Version {
                left: word_text(alloc, left)?,
                right: last_text(alloc, Some(right))?,
            })
        }
        "targets" => ask_line(Ask::Targets(last_bytes(alloc, rest)?)),
        "assignments" => ask_line(Ask::Assignments(last_bytes(alloc, rest)?)),
        "pattern" => {
            let (pattern, text) = split_field(rest)?;
            ask_line(Ask::Pattern {
                pattern: word_text(alloc, pattern)?,
                text: last_text(alloc, Some(text))?,
            })
        }
        _ => Ok(None),
    }
}

fn read_layout(alloc: Global, rest: Option<&str>) -> Result<Option<Line>, LineError> {
    let (asked, rest) = split_field(rest)?;
    let (srel, directory) = split_field(Some(rest))?;
    let has_directory = match directory {
        "yes" => true,
        "no" => false,
        _ => return Err(LineError::NotAChoice),
    };
    ask_line(Ask::Layout(Laid {
        asked: word_text(alloc, asked)?,
        srel: word_text(alloc, srel)?,
        has_directory,
    }))
}

// The lines that ask of boot entries, of the layout and of lines that no run prints.
fn read_boot(alloc: Global, word: &str, rest: Option<&str>) -> Result<Option<Line>, LineError> {
    match word {
        "entry" => ask_line(Ask::Entry(last_bytes(alloc, rest)?)),
        "entry-name" => ask_line(Ask::EntryName(last_text(alloc, rest)?)),
        "sort" => ask_line(Ask::Sort(words(alloc, rest)?)),
        "layout" => read_layout(alloc, rest),
        "refusal" => ask_line(Ask::Refusal(number(last_field(rest)?)?)),
        "no-memory" => {
            no_field(rest)?;
            ask_line(Ask::NoMemory)
        }
        _ => Ok(None),
    }
}

// The line, where one of the groups has its word.
fn read_known(alloc: Global, word: &str, rest: Option<&str>) -> Result<Option<Line>, LineError> {
    if let Some(line) = read_setting(alloc, word, rest)? {
        return Ok(Some(line));
    }
    if let Some(line) = read_edit(alloc, word, rest)? {
        return Ok(Some(line));
    }
    if let Some(line) = read_run(alloc, word, rest)? {
        return Ok(Some(line));
    }
    if let Some(line) = read_show(alloc, word, rest)? {
        return Ok(Some(line));
    }
    if let Some(line) = read_ask(alloc, word, rest)? {
        return Ok(Some(line));
    }
    read_boot(alloc, word, rest)
}

/// The word that a line begins with, and what is left behind it.
pub fn split_word(line: &str) -> (&str, Option<&str>) {
    match line.split_once(" ") {
        Some((word, rest)) => (word, Some(rest)),
        None => (line, None),
    }
}

/// What the line says; none where it is passed over.
pub fn read_line(alloc: Global, line: &str) -> Result<Option<Line>, LineError> {
    if line.is_empty() || line.starts_with('#') {
        return Ok(None);
    }
    if let Some(part) = line.strip_prefix(' ') {
        return Ok(Some(Line::Part(read_part(alloc, part)?)));
    }
    let (word, rest) = split_word(line);
    match read_known(alloc, word, rest)? {
        Some(line) => Ok(Some(line)),
        None => Err(LineError::Unknown),
    }
}
