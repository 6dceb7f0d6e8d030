//! Values of assignments.
ghost use Rattle.std.specs.Prelude.{◌≡◌, IfOk};
ghost use Rattle.kb_conf.specs.Only.{IsOnly};
ghost use Rattle.kb_conf.specs.Piece.{spell};
ghost use Rattle.kb_conf.specs.Value.{scope, at_start, look_up, expand, gives, ends_item, IsShortValue};
ghost use Rattle.kb_conf.specs.Views.{rest_view, view_reference, view_piece, mode_view, value_view};

use super::bytes::{LINE_FEED, SEMICOLON, is_active, is_blank};
use super::given::Given;
use super::name::Reference;
use super::piece::{Mode, Piece, next_piece};
use super::table::Table;
use std::alloc::{AllocError, Global};

/// The most bytes that a value may have.
pub const LONGEST_VALUE: usize = 65_536;

/// The value of a variable, if something gave it one.
fn look_up<'x>(
    given: &'x Given,
    earlier: &'x Table<'_>,
    reference: Reference<'_>,
) -> Option<&'x [u8]>
    ensures { rest_view result
        ≡ look_up (scope given.now earlier.now) (view_reference reference.entry) }
{
    let number = reference.number.unwrap_or(0);
    match given.value(reference.name, number) {
        Some(field) => Some(field),
        None => earlier.value(reference.name, number),
    }
}

/// What a variable's piece gives.
fn expand<'x>(
    given: &'x Given,
    earlier: &'x Table<'_>,
    mode: Mode,
    reference: Reference<'_>,
    written: &'x [u8],
) -> &'x [u8]
    ensures { result.now ≡ expand (scope given.now earlier.now) (mode_view mode)
        (view_reference reference.entry) written.now }
{
    match look_up(given, earlier, reference) {
        Some(value) => value,
        None if mode.command => written,
        None => &[],
    }
}

/// What a piece gives, as a part of what was written or as a variable's value.
fn given_by<'x>(
    given: &'x Given,
    earlier: &'x Table<'_>,
    mode: Mode,
    piece: Piece<'x>,
    written: &'x [u8],
) -> &'x [u8]
    requires { written.now ≡ spell (view_piece piece) }
    ensures { result.now
        ≡ gives (scope given.now earlier.now) (mode_view mode) (view_piece piece.entry) }
{
    match piece {
        Piece::Bare(_) | Piece::Dollar | Piece::Command(_) | Piece::Backquoted(_) => written,
        Piece::Quote | Piece::Escaped(LINE_FEED) => &[],
        Piece::Escaped(byte) if mode.quoted && !is_active(byte) => written,
        Piece::Escaped(_) => &written[1..],
        Piece::Single(inside) => inside,
        Piece::Plain(name) => expand(
            given,
            earlier,
            mode,
            Reference { name, number: None },
            written,
        ),
        Piece::Braced(reference) => expand(given, earlier, mode, reference, written),
    }
}

/// Whether an assignment may end here.
fn ends_item(text: &[u8]) -> bool
    ensures { result ≡ ends_item text.now }
{
    match text.split_first() {
        None => true,
        Some((first, _)) => is_blank(*first) || *first == SEMICOLON || *first == LINE_FEED,
    }
}

/// Reads a value and says what follows it. There is none where the text here is not that of an
/// assignment, or its value is too long: the reader stops at the piece that makes it so.
pub fn read_value<'a>(
    alloc: Global,
    given: &Given,
    earlier: &Table<'_>,
    command: bool,
    text: &'a [u8],
) -> Result<Option<(Vec<u8>, &'a [u8])>, AllocError>
    ensures { IfOk result (λ found.
        IsOnly (IsShortValue (scope given.now earlier.now) (at_start command) text.now)
        (value_view found)) }
{
    let mut value = Vec::new(alloc);
    let mut mode = Mode {
        quoted: false,
        command,
    };
    let mut rest = text;
    'pieces: while let Some((piece, written, behind)) = next_piece(mode, rest) {
        let bytes = given_by(&*given, &*earlier, mode, piece, written);
        if bytes.len() > LONGEST_VALUE - value.len() {
            return Ok(None);
        }
        value.extend_from_slice(bytes)?;
        mode = mode.after(piece);
        rest = behind;
    }
    if !mode.quoted && ends_item(rest) {
        Ok(Some((value, rest)))
    } else {
        Ok(None)
    }
}
