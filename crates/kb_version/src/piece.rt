//! The items of a version as they stand in its text.
ghost use Rattle.std.specs.Prelude.{◌≡◌, ◌≢◌, ◌<◌, ◌↔◌, ◌∷◌, length, IsTrue};
ghost use Rattle.std.specs.List.{prefix_len};
ghost use Rattle.std.specs.Ordering.{nat_cmp};
ghost use Rattle.std.specs.Str.Parse.{digits_value, AllDigits};
ghost use Rattle.std.specs.Char.{is_ascii_alphabetic, is_ascii_digit};
ghost use Rattle.kb_version.specs.Items.{items, End};
ghost use Rattle.kb_version.specs.Piece.{item_of, items_behind, HasDigitsAlone};
ghost use Rattle.kb_version.specs.Digits.{without_zeros};
ghost use Rattle.kb_version.specs.Order.{item_order, rank};

use std::cmp::Ordering;

// The signs that are items, from the least to the greatest. The end of the text comes after `~`.
pub const TILDE: u8 = b'~';

pub const DASH: u8 = b'-';

pub const CARET: u8 = b'^';

pub const DOT: u8 = b'.';

/// Doesn't count at the head of a number.
pub const ZERO: u8 = b'0';

/// An item of a version, with the bytes of a run as they stand in the text.
#[derive(Clone, Copy)]
pub enum Piece<'a> {
    Tilde,
    End,
    Dash,
    Caret,
    Dot,
    Letters(&'a [u8]),
    Digits(&'a [u8]),
}

impl Piece<'_> {
    pub fn is_end(self) -> bool
        ensures { IsTrue result ↔ (item_of self.entry ≡ End) }
    {
        matches!(self, Piece::End)
    }

    /// The place of its kind in the order of items.
    fn rank(self) -> u8
        ensures { result ≡ rank (item_of self.entry) }
    {
        match self {
            Piece::Tilde => 0,
            Piece::End => 1,
            Piece::Dash => 2,
            Piece::Caret => 3,
            Piece::Dot => 4,
            Piece::Letters(_) => 5,
            Piece::Digits(_) => 6,
        }
    }
}

/// Compares two items.
pub fn piece_cmp(x: Piece<'_>, y: Piece<'_>) -> Ordering
    requires x_formed { HasDigitsAlone x }
    requires y_formed { HasDigitsAlone y }
    ensures { result ≡ item_order (item_of x.entry) (item_of y.entry) }
{
    match (x, y) {
        (Piece::Letters(v), Piece::Letters(w)) => v.cmp(w),
        (Piece::Digits(m), Piece::Digits(n)) => number_cmp(m, n),
        _ => x.rank().cmp(&y.rank()),
    }
}

/// Compares two runs of digits as numbers: leading zeros dropped, the shorter is less, and runs of
/// one length go by bytes. So a run may have any length, and no number is computed.
fn number_cmp(m: &[u8], n: &[u8]) -> Ordering
    requires m_digits { AllDigits 10 m.now }
    requires n_digits { AllDigits 10 n.now }
    ensures { result ≡ nat_cmp (digits_value 10 m.now) (digits_value 10 n.now) }
{
    let x = without_zeros(m);
    let y = without_zeros(n);
    x.len().cmp(&y.len()).then_with(|| x.cmp(y))
}

/// The run without its leading zeros.
fn without_zeros(digits: &[u8]) -> &[u8]
    ensures { result.now ≡ without_zeros digits.now }
{
    let mut rest = digits;
    while let [ZERO, tail @ ..] = rest {
        rest = tail;
    }
    rest
}

/// Cuts the first item off a text, past what is skipped, and gives the text behind it.
pub fn next_piece(text: &[u8]) -> (Piece<'_>, &[u8])
    ensures items { items text.now ≡ item_of result.0 ∷ items_behind (item_of result.0) result.1.now }
    ensures formed { HasDigitsAlone result.0 }
    ensures shorter { item_of result.0 ≢ End → length result.1.now < length text.now }
{
    let mut rest = text;
    while let [first, tail @ ..] = rest {
        match *first {
            TILDE => return (Piece::Tilde, tail),
            DASH => return (Piece::Dash, tail),
            CARET => return (Piece::Caret, tail),
            DOT => return (Piece::Dot, tail),
            b'0'..=b'9' => {
                let (digits, behind) = rest.split_at(digits_len(rest));
                return (Piece::Digits(digits), behind);
            }
            b'A'..=b'Z' | b'a'..=b'z' => {
                let (letters, behind) = rest.split_at(letters_len(rest));
                return (Piece::Letters(letters), behind);
            }
            _ => rest = tail,
        }
    }
    (Piece::End, rest)
}

/// How many digits stand first.
fn digits_len(text: &[u8]) -> usize
    ensures { result ≡ prefix_len is_ascii_digit text.now }
{
    text.iter().take_while(|c| c.is_ascii_digit()).count()
}

/// How many letters stand first.
fn letters_len(text: &[u8]) -> usize
    ensures { result ≡ prefix_len is_ascii_alphabetic text.now }
{
    text.iter().take_while(|c| c.is_ascii_alphabetic()).count()
}
