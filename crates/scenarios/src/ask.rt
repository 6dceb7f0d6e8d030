// What is asked of a text alone: whether it keeps rules, and what it is read as.
ghost use Rattle.std.specs.Option.{ForSome};
ghost use Rattle.std.specs.Prelude.{IsTrue};
ghost use Rattle.kb_world.specs.Names.{is_name};

use crate::entry::{print_entry_name, print_parsed, print_sorted};
use crate::error::LineError;
use crate::facts::print_layout;
use crate::line::Ask;
use crate::refusal::sample;
use crate::text::Page;
use kb_conf::{Assignment, Given, ReadError, is_pattern, matches, read_text, without_returns};
use kb_store::read_targets;
use kb_version::version_cmp;
use kb_world::{
    Bytes, Host, Path, PathError, Refusal, RelPath, Text, is_arch, is_boot_word, is_kernel,
    is_name, is_version, is_word, message, no_memory_line,
};
use std::alloc::{AllocError, Global};
use std::cmp::Ordering;

// Adds the rules on names that hold of the text.
fn print_rules(page: &mut Page, text: &str) -> Result<(), AllocError> {
    let rules = [
        (is_name(text), " name"),
        (is_word(text), " word"),
        (is_version(text), " version"),
        (is_kernel(text), " kernel"),
        (is_arch(text), " arch"),
        (is_boot_word(text), " boot-word"),
    ];
    page.plain("rules")?;
    for (holds, rule) in rules {
        if holds {
            page.plain(rule)?;
        }
    }
    page.plain("\n")
}

fn print_names(alloc: Global, page: &mut Page, path: &Path) -> Result<(), AllocError> {
    page.plain("names")?;
    for name in path.names() {
        page.word(alloc, name.as_str())?;
    }
    page.plain("\n")
}

fn print_path(alloc: Global, page: &mut Page, text: &str) -> Result<(), LineError> {
    match Path::parse(alloc, text) {
        Ok(path) => Ok(print_names(alloc, page, &path)?),
        Err(PathError::NotAPath) => Ok(page.plain("no path\n")?),
        Err(PathError::NoMemory) => Err(LineError::Memory(AllocError)),
    }
}

fn sign(order: Ordering) -> &'static str {
    match order {
        Ordering::Less => "<\n",
        Ordering::Equal => "=\n",
        Ordering::Greater => ">\n",
    }
}

/// Adds places, each on a line of its own.
pub fn print_places(
    alloc: Global,
    page: &mut Page,
    front: &str,
    places: &[RelPath],
) -> Result<(), AllocError> {
    for place in places {
        page.line(alloc, front, joined(alloc, place)?.as_bytes())?;
    }
    Ok(())
}

/// The names of the place, with a `/` between each two.
pub fn joined(alloc: Global, place: &RelPath) -> Result<String, AllocError> {
    let mut text = String::new(alloc);
    for name in place.names() {
        if !text.is_empty() {
            text.push('/')?;
        }
        text.push_str(name.as_str())?;
    }
    Ok(text)
}

fn print_targets(alloc: Global, page: &mut Page, bytes: &Bytes) -> Result<(), AllocError> {
    match read_targets(alloc, bytes.as_slice())? {
        Some(places) => print_places(alloc, page, "", places.as_slice()),
        None => page.plain("none\n"),
    }
}

fn print_assignment(
    alloc: Global,
    page: &mut Page,
    assignment: &Assignment<'_>,
) -> Result<(), AllocError> {
    let mut line = Vec::from_slice(alloc, assignment.name)?;
    line.extend_from_slice(format!(in alloc; "[{}]=", assignment.number)?.as_bytes())?;
    line.extend_from_slice(assignment.value.as_slice())?;
    page.line(alloc, "", &line)
}

/// Adds the assignments of the text of a `dkms.conf`, or its first bad line.
pub fn print_assignments(
    alloc: Global,
    page: &mut Page,
    bytes: &Bytes,
    given: &Given,
) -> Result<(), LineError> {
    let text = without_returns(alloc, bytes.as_slice())?;
    match read_text(alloc, &text, given) {
        Ok(table) => {
            for assignment in table.assignments() {
                print_assignment(alloc, page, assignment)?;
            }
            Ok(())
        }
        Err(ReadError::BadLine(line)) => {
            Ok(page.plain(&format!(in alloc; "bad line {line}\n")?)?)
        }
        Err(ReadError::OutOfMemory) => Err(LineError::Memory(AllocError)),
    }
}

fn print_match(
    alloc: Global,
    page: &mut Page,
    pattern: &str,
    text: &str,
) -> Result<(), AllocError> {
    if !is_pattern(alloc, pattern)? {
        return page.plain("bad\n");
    }
    if matches(alloc, pattern, text)? {
        page.plain("yes\n")
    } else {
        page.plain("no\n")
    }
}

fn print_refusal(alloc: Global, page: &mut Page, refusal: &Refusal) -> Result<(), AllocError> {
    page.plain(&format!(in alloc; "{} ", refusal.number())?)?;
    page.plain(message(alloc, refusal)?.as_str())
}

fn print_sample(alloc: Global, page: &mut Page, number: u64) -> Result<(), LineError> {
    match sample(alloc, number)? {
        Some(refusal) => Ok(print_refusal(alloc, page, &refusal)?),
        None => Err(LineError::NotANumber),
    }
}

/// Adds the answer.
pub fn print_answer(
    alloc: Global,
    page: &mut Page,
    ask: &Ask,
    given: &Given,
) -> Result<(), LineError> {
    match ask {
        Ask::Name(text) => Ok(print_rules(page, text.as_str())?),
        Ask::Path(text) => print_path(alloc, page, text.as_str()),
        Ask::Version { left, right } => {
            Ok(page.plain(sign(version_cmp(left.as_str(), right.as_str())))?)
        }
        Ask::Targets(bytes) => Ok(print_targets(alloc, page, bytes)?),
        Ask::Assignments(bytes) => print_assignments(alloc, page, bytes, given),
        Ask::Pattern { pattern, text } => {
            Ok(print_match(alloc, page, pattern.as_str(), text.as_str())?)
        }
        Ask::Refusal(number) => print_sample(alloc, page, *number),
        Ask::NoMemory => Ok(page.plain(no_memory_line())?),
        Ask::Entry(bytes) => print_parsed(alloc, page, bytes),
        Ask::EntryName(name) => Ok(print_entry_name(alloc, page, name.as_str())?),
        Ask::Sort(words) => print_sorted(alloc, page, words.as_slice()),
        Ask::Layout(laid) => Ok(print_layout(
            page,
            laid.asked.as_str(),
            laid.srel.as_str(),
            laid.has_directory,
        )?),
    }
}

fn known_arch(alloc: Global, arch: &Text) -> Result<Text, AllocError> {
    if is_arch(arch.as_str()) {
        arch.clone()
    } else {
        Text::of(alloc, "unknown")
    }
}

fn known_kernel(kernel: &Option<Text>) -> Option<&Text>
    ensures { ForSome result (λ name. IsTrue (is_name name.now)) }
{
    match kernel {
        Some(kernel) if is_kernel(kernel.as_str()) => Some(kernel),
        _ => None,
    }
}

/// What a conf is read for on the machine, whose kernel and architecture count where they keep their rules.
pub fn given_for(alloc: Global, host: &Host) -> Result<Given, AllocError> {
    let arch = known_arch(alloc, &host.arch)?;
    Given::of(alloc, &host.roots, known_kernel(&host.kernel), &arch)
}
