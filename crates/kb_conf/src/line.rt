//! Lines and the assignments in them.
ghost use Rattle.std.specs.Prelude.{◌≡◌, IfOk, IfSome};
ghost use Rattle.kb_conf.specs.Front.{plain_at};
ghost use Rattle.kb_conf.specs.Line.{is_command, AssignmentAt, IsStep};
ghost use Rattle.kb_conf.specs.Only.{IsOnly};
ghost use Rattle.kb_conf.specs.Value.{scope};
ghost use Rattle.kb_conf.specs.LineViews.{assignment_view, step_view, plain_view};

use super::bytes::{EQUALS, HASH, LINE_FEED, SEMICOLON, is_blank};
use super::given::Given;
use super::line_position::{LINE_START, Last, LinePosition};
use super::name::split_reference;
use super::spans::{after_byte, len_before};
use super::table::{Assignment, Table};
use super::value::read_value;
use std::alloc::{AllocError, Global};

/// Whether the value of this name is a command, where `$(..)` and backquotes may stand.
fn is_command(name: &[u8]) -> bool
    ensures { result ≡ is_command name.now }
{
    name == b"MAKE".as_slice() || name == b"CLEAN".as_slice()
}

/// Reads the assignment at the front, if there is one, and says what follows it.
fn read_assignment<'a>(
    alloc: Global,
    given: &Given,
    earlier: &Table<'a>,
    text: &'a [u8],
) -> Result<Option<(Assignment<'a>, &'a [u8])>, AllocError>
    ensures { IfOk result (λ found.
        IsOnly (AssignmentAt (scope given.now earlier.now) text.now)
        (assignment_view found)) }
{
    let Some((reference, rest)) = split_reference(text) else {
        return Ok(None);
    };
    let Some(rest) = after_byte(rest, EQUALS) else {
        return Ok(None);
    };
    let command = is_command(reference.name);
    let Some((value, rest)) = read_value(alloc, &*given, &*earlier, command, rest)? else {
        return Ok(None);
    };
    let assignment = Assignment {
        name: reference.name,
        number: reference.number.unwrap_or(0),
        value,
    };
    Ok(Some((assignment, rest)))
}

/// One item of a line: where the next one stands, what it assigns, and what follows it.
#[derive(Debug, Drop)]
pub struct Step<'a> {
    pub position: LinePosition,
    pub assignment: Option<Assignment<'a>>,
    pub rest: &'a [u8],
}

/// The blank, line end, `;` or comment at the front, if there is one that may stand here: where the
/// next item stands, and what follows.
#[tactic(auto, unfolding(crate::specs::Front::plain_at))]
fn split_plain(position: LinePosition, text: &[u8]) -> Option<(LinePosition, &[u8])>
    ensures { plain_view result ≡ plain_at position text.now }
{
    let (first, rest) = text.split_first()?;
    if is_blank(*first) {
        Some((position.after_blank(), rest))
    } else if *first == LINE_FEED {
        Some((LINE_START, rest))
    } else if *first == SEMICOLON && position.may_part() {
        Some((position.after_semicolon(), rest))
    } else if *first == HASH && position.spaced {
        let (_, behind) = rest.split_at(len_before(rest, LINE_FEED));
        Some((position, behind))
    } else {
        None
    }
}

/// Reads the item at the front, if there is one that may stand here.
pub fn read_step<'a>(
    alloc: Global,
    given: &Given,
    earlier: &Table<'a>,
    position: LinePosition,
    text: &'a [u8],
) -> Result<Option<Step<'a>>, AllocError>
    ensures { IfOk result (λ found.
        IsOnly (IsStep (scope given.now earlier.now) position text.now)
        (step_view found)) }
{
    if let Some((position, rest)) = split_plain(position, text) {
        return Ok(Some(Step {
            position,
            assignment: None,
            rest,
        }));
    }
    if !position.may_set() {
        return Ok(None);
    }
    let Some((assignment, rest)) = read_assignment(alloc, &*given, &*earlier, text)? else {
        return Ok(None);
    };
    let position = LinePosition {
        last: Last::Assignment,
        spaced: false,
    };
    Ok(Some(Step {
        position,
        assignment: Some(assignment),
        rest,
    }))
}
