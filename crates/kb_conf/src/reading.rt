//! The whole text: its assignments, or its first bad line.
ghost use Rattle.std.specs.Prelude.{◌≡◌, ◌≤◌, ◌==◌, length, count_by, IfOk, IfErr};
ghost use Rattle.std.specs.Str.Lossy.{utf8_valid_len};
ghost use Rattle.kb_conf.specs.Refusal.{AtBadLine};
ghost use Rattle.kb_conf.specs.Reading.{drop_returns, starts_line_end, sound_len, line_number, IsGood, IsBadLine};
ghost use Rattle.kb_conf.specs.Signs.{line_feed};

use super::bytes::{CARRIAGE_RETURN, LINE_FEED, NUL};
use super::given::Given;
use super::line::{Step, read_step};
use super::line_position::LINE_START;
use super::spans::len_before;
use super::table::Table;
use std::alloc::{AllocError, Global};
use std::str;

/// Why a text isn't read.
#[derive(Clone, Copy, Debug, PartialEq, Eq)]
pub enum ReadError {
    /// The first bad line, counted from 1.
    BadLine(u64),
    OutOfMemory,
}

impl From<AllocError> for ReadError {
    ghost use Rattle.kb_conf.specs.declared.reading.ReadError.TheVariants.{OutOfMemory};

    ghost from_gives = { λ _ e. e ≡ OutOfMemory };

    fn from(_: AllocError) -> Self {
        ReadError::OutOfMemory
    }
}

fn starts_line_end(text: &[u8]) -> bool
    ensures { result ≡ starts_line_end text.now }
{
    match text.split_first() {
        None => false,
        Some((first, _)) => *first == LINE_FEED,
    }
}

/// The text without the carriage returns that stand directly before a line feed.
pub fn without_returns(alloc: Global, text: &[u8]) -> Result<Vec<u8>, AllocError>
    ensures { IfOk result (λ kept. kept.items ≡ drop_returns text.now) }
{
    let mut kept = Vec::new(alloc);
    let mut rest = text;
    'bytes: while let Some((byte, behind)) = rest.split_first() {
        if *byte != CARRIAGE_RETURN || !starts_line_end(behind) {
            kept.push(*byte)?;
        }
        rest = behind;
    }
    Ok(kept)
}

/// How far the text is UTF-8.
fn valid_len(text: &[u8]) -> usize
    ensures { result ≡ utf8_valid_len text.now }
{
    match str::from_utf8(text) {
        Ok(_) => text.len(),
        Err(error) => error.valid_up_to(),
    }
}

/// How far the text is UTF-8 without a NUL.
fn sound_len(text: &[u8]) -> usize
    ensures { result ≡ sound_len text.now }
{
    valid_len(text).min(len_before(text, NUL))
}

/// How many line feeds a text has.
fn count_lines(text: &[u8]) -> usize
    ensures value { result ≡ count_by (λ b. b == line_feed) text.now }
    ensures bound { result ≤ length text.now }
{
    text.iter().filter(|byte| **byte == LINE_FEED).count()
}

/// The refusal of the line on which the rest of the text begins.
fn bad_line(text: &[u8], rest: &[u8]) -> ReadError
    requires { length rest.now ≤ length text.now }
    ensures { result ≡ ReadError.BadLine (line_number text.now rest.now) }
{
    let (before, _) = text.split_at(text.len() - rest.len());
    ReadError::BadLine(1 + count_lines(before) as u64)
}

/// Reads a text whose carriage returns before line feeds were dropped.
pub fn read_text<'a>(alloc: Global, text: &'a [u8], given: &Given) -> Result<Table<'a>, ReadError>
    ensures good { IfOk result (λ table. IsGood given.now text.now table) }
    ensures bad { IfErr result (AtBadLine (IsBadLine given.now text.now)) }
{
    let sound = sound_len(text);
    let mut table = Table::new(alloc);
    let mut position = LINE_START;
    let mut rest = text;
    'items: while !rest.is_empty() {
        let Some(step) = read_step(alloc, &*given, &table, position, rest)? else {
            return Err(bad_line(text, rest));
        };
        let Step {
            position: next,
            assignment,
            rest: behind,
        } = step;
        if text.len() - behind.len() > sound {
            return Err(bad_line(text, rest));
        }
        table = table.with_any(assignment)?;
        position = next;
        rest = behind;
    }
    Ok(table)
}
