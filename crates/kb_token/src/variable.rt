// Lines KEY=VALUE, as os-release(5) has them.
ghost use Rattle.std.specs.Prelude.{◌≡◌, ◌<◌, ◌∷◌, ◌++◌, if◌then◌else◌, true, false, drop, map};
ghost use Rattle.std.specs.Prelude.{IfOk, MatchOption};
ghost use Rattle.std.specs.Option.{option_copied};
ghost use Rattle.kb_token.specs.Variable as rule;

use crate::lines::trimmed;
use kb_world::Text;
use std::alloc::{AllocError, Global};

/// A key, and the value that a line gives it.
#[derive(Debug, Drop)]
pub struct Variable {
    pub key: Text,
    pub value: Text,
}

fn is_escapable(c: u8) -> bool
    ensures { result ≡ rule.is_escapable c }
{
    matches!(c, b'"' | b'$' | b'\\' | b'`')
}

// Whether no quote of what stands between double quotes would end them.
fn is_closed(inner: &[u8]) -> bool
    ensures { result ≡ rule.is_closed false inner.now }
{
    let mut behind_backslash = false;
    for c in inner {
        if !behind_backslash && *c == b'"' {
            return false;
        }
        behind_backslash = !behind_backslash && *c == b'\\';
    }
    !behind_backslash
}

// What stands before the first such mark, and behind it.
fn cut_at(text: &str, mark: char) -> Option<(&str, &str)>
    requires { mark < 128 }
    ensures { MatchOption result (rule.has mark text.now ≡ false)
        (λ cut. (text.now ≡ cut.0.now ++ mark ∷ cut.1.now) × (rule.has mark cut.0.now ≡ false)) }
{
    text.split_once(mark)
}

fn begins_escapable(text: &str) -> bool
    ensures { result ≡ rule.begins_escapable text.now }
{
    match text.as_bytes() {
        [c, ..] => is_escapable(*c),
        [] => false,
    }
}

// What a backslash and the text behind it give first, and the rest.
fn behind_backslash(text: &str) -> (&str, &str)
    ensures gives { rule.unescaped true text.now
        ≡ result.0.now ++ rule.unescaped false result.1.now }
    ensures rest { result.1.now ≡ drop (if rule.begins_escapable text.now then 1 else 0) text.now }
{
    if begins_escapable(text) {
        text.split_at(1)
    } else {
        ("\\", text)
    }
}

// What stands between double quotes, with each backslash before what it escapes dropped.
fn unescaped(alloc: Global, inner: &str) -> Result<Text, AllocError>
    ensures { IfOk result (λ value. value ≡ rule.unescaped false inner.now) }
{
    let mut value = Text::of(alloc, "")?;
    let mut rest = inner;
    'pieces: while let Some((plain, behind)) = cut_at(rest, '\\') {
        let (given, after) = behind_backslash(behind);
        value.push_str(plain)?;
        value.push_str(given)?;
        rest = after;
    }
    value.push_str(rest)?;
    Ok(value)
}

// What stands between a quote at the text's start and one at its end.
fn between(text: &str, quote: char) -> Option<&str>
    requires { quote < 128 }
    ensures { option_copied result ≡ rule.between quote text.now }
{
    text.strip_prefix(quote)?.strip_suffix(quote)
}

fn has_single_quote(text: &str) -> bool
    ensures { result ≡ rule.has rule.SINGLE_QUOTE text.now }
{
    text.as_bytes().iter().any(|c| *c == b'\'')
}

fn single_value(alloc: Global, inner: &str) -> Result<Option<Text>, AllocError>
    ensures { IfOk result (λ value. value ≡ rule.single_value inner.now) }
{
    if has_single_quote(inner) {
        return Ok(None);
    }
    Ok(Some(Text::of(alloc, trimmed(inner))?))
}

fn double_value(alloc: Global, inner: &str) -> Result<Option<Text>, AllocError>
    ensures { IfOk result (λ value. value ≡ rule.double_value inner.now) }
{
    if !is_closed(inner.as_bytes()) {
        return Ok(None);
    }
    let value = unescaped(alloc, inner)?;
    Ok(Some(Text::of(alloc, trimmed(value.as_str()))?))
}

fn opens_with(text: &str, quote: u8) -> bool
    ensures { result ≡ rule.opens_with quote text.now }
{
    match text.as_bytes() {
        [c, ..] => *c == quote,
        [] => false,
    }
}

// The value that the text spells, if it spells one.
fn spelled_value(alloc: Global, text: &str) -> Result<Option<Text>, AllocError>
    ensures { IfOk result (λ value. value ≡ rule.spelled_value text.now) }
{
    if opens_with(text, b'\'') {
        return match between(text, '\'') {
            Some(inner) => single_value(alloc, inner),
            None => Ok(None),
        };
    }
    if opens_with(text, b'"') {
        return match between(text, '"') {
            Some(inner) => double_value(alloc, inner),
            None => Ok(None),
        };
    }
    Ok(Some(Text::of(alloc, text)?))
}

/// The variable that a line KEY=VALUE gives, or none for every other line. The line stands
/// without its line feed. The key is what stands before the first `=`. The value is bare, or
/// between `'`, or between `"`, where a backslash before `"`, `$`, a backslash or a backquote
/// gives that character. A bare value doesn't begin with a quote, and behind a closing quote only
/// blanks may stand. Blanks at both ends of the value are dropped, outside of the quotes and
/// inside.
pub fn read_variable(alloc: Global, line: &str) -> Result<Option<Variable>, AllocError>
    ensures { IfOk result (λ told. told ≡ rule.variable_of line.now) }
{
    match cut_at(line, '=') {
        Some((key, spelling)) => match spelled_value(alloc, trimmed(spelling))? {
            Some(value) => Ok(Some(Variable {
                key: Text::of(alloc, key)?,
                value,
            })),
            None => Ok(None),
        },
        None => Ok(None),
    }
}

fn value_for(key: &str, told: Option<Variable>) -> Option<Text>
    ensures { result ≡ rule.value_for key.now told }
{
    match told {
        Some(variable) => {
            if variable.key.as_str() == key {
                Some(variable.value)
            } else {
                None
            }
        }
        None => None,
    }
}

/// The value of the last line that gives the key.
pub fn given_value(alloc: Global, key: &str, lines: &[&str]) -> Result<Option<Text>, AllocError>
    ensures { IfOk result (λ value.
        value ≡ rule.variable_value key.now (map (λ line. line.now) lines.now)) }
{
    let mut last = None;
    for line in lines {
        last = value_for(key, read_variable(alloc, line)?).or(last);
    }
    Ok(last)
}
