//! The pieces of a value.
ghost use Rattle.std.specs.Prelude.{◌≡◌, MatchOption, None};
ghost use Rattle.kb_conf.specs.Piece.{mode_after};
ghost use Rattle.kb_conf.specs.Front.{braced_at, expansion_at, piece_at, IsNextPiece};
ghost use Rattle.kb_conf.specs.Views.{pieces_view, mode_view, view_piece};

use super::bytes::{
    APOSTROPHE, BACKQUOTE, BACKSLASH, CLOSE_BRACE, DOLLAR, OPEN_BRACE, OPEN_PARENTHESIS, QUOTE,
    begins_expansion, stands_for_itself, starts_name,
};
use super::name::{Reference, split_name, split_reference};
use super::spans::{after_byte, split_before, split_closing};

/// A piece of a value, as it stands in the text.
#[derive(Clone, Copy, Debug)]
pub enum Piece<'a> {
    /// A byte that stands for itself.
    Bare(u8),
    /// A backslash and this byte.
    Escaped(u8),
    /// Text between apostrophes.
    Single(&'a [u8]),
    /// A double quote, which opens or closes.
    Quote,
    /// `$NAME`.
    Plain(&'a [u8]),
    /// `${NAME}` or `${NAME[N]}`.
    Braced(Reference<'a>),
    /// `$(..)`.
    Command(&'a [u8]),
    /// Text between backquotes.
    Backquoted(&'a [u8]),
    /// A `$` that begins none of these.
    Dollar,
}

/// Where a piece stands.
#[derive(Clone, Copy, Debug)]
pub struct Mode {
    /// Inside double quotes.
    pub quoted: bool,
    /// In the value of MAKE or CLEAN.
    pub command: bool,
}

/// The rest of a `${NAME}`, behind its brace.
#[tactic(auto, unfolding(crate::specs::Front::braced_at))]
fn split_braced(text: &[u8]) -> Option<(Piece<'_>, &[u8])>
    ensures { pieces_view result ≡ braced_at text.now }
{
    let (reference, rest) = split_reference(text)?;
    let rest = after_byte(rest, CLOSE_BRACE)?;
    Some((Piece::Braced(reference), rest))
}

/// The rest of a piece that begins with a `$`, behind it.
#[tactic(auto, unfolding(crate::specs::Front::expansion_at))]
fn split_expansion(command: bool, text: &[u8]) -> Option<(Piece<'_>, &[u8])>
    ensures { pieces_view result ≡ expansion_at command text.now }
{
    let Some((first, rest)) = text.split_first() else {
        return Some((Piece::Dollar, text));
    };
    if *first == OPEN_BRACE {
        split_braced(rest)
    } else if *first == OPEN_PARENTHESIS {
        if !command {
            return None;
        }
        let (inside, rest) = split_closing(rest)?;
        Some((Piece::Command(inside), rest))
    } else if starts_name(*first) {
        let (name, rest) = split_name(text)?;
        Some((Piece::Plain(name), rest))
    } else if begins_expansion(*first) {
        None
    } else {
        Some((Piece::Dollar, text))
    }
}

/// The piece at the front, and what follows it.
#[tactic(auto, unfolding(crate::specs::Front::piece_at, crate::specs::Front::escaped_at))]
pub fn split_piece(mode: Mode, text: &[u8]) -> Option<(Piece<'_>, &[u8])>
    ensures { pieces_view result ≡ piece_at (mode_view mode) text.now }
{
    let (first, rest) = text.split_first()?;
    match *first {
        QUOTE => Some((Piece::Quote, rest)),
        BACKSLASH => {
            let (byte, rest) = rest.split_first()?;
            Some((Piece::Escaped(*byte), rest))
        }
        DOLLAR => split_expansion(mode.command, rest),
        BACKQUOTE if mode.command => {
            let (inside, rest) = split_before(rest, BACKQUOTE)?;
            Some((Piece::Backquoted(inside), rest))
        }
        byte if stands_for_itself(mode.quoted, byte) => Some((Piece::Bare(byte), rest)),
        APOSTROPHE => {
            let (inside, rest) = split_before(rest, APOSTROPHE)?;
            Some((Piece::Single(inside), rest))
        }
        _ => None,
    }
}

impl Mode {
    /// Where the next piece stands: a double quote flips whether it is quoted.
    pub fn after(self, piece: Piece<'_>) -> Mode
        ensures { mode_view result ≡ mode_after (mode_view self) (view_piece piece.entry) }
    {
        match piece {
            Piece::Quote => Mode {
                quoted: !self.quoted,
                command: self.command,
            },
            _ => self,
        }
    }
}

/// The piece at the front, how it is written, and what follows it.
pub fn next_piece(mode: Mode, text: &[u8]) -> Option<(Piece<'_>, &[u8], &[u8])>
    ensures { MatchOption result (piece_at (mode_view mode) text.now ≡ None) (λ f.
        IsNextPiece (mode_view mode) text.now (view_piece f.0) f.1.now f.2.now) }
{
    let (piece, rest) = split_piece(mode, text)?;
    let (written, _) = text.split_at(text.len() - rest.len());
    Some((piece, written, rest))
}
