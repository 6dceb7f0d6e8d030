// Entries are printed.
ghost use Rattle.std.specs.Prelude.{◌≡◌, ◌++◌, ◌&&◌, not, OnOk, IfOk, IsTrue, map, flat_map, nat_eq};
ghost use Rattle.std.specs.List.{list_all};
ghost use Rattle.kb_bls.specs.Fields.{CARRIAGE_RETURN};
ghost use Rattle.kb_bls.specs.Text.{LINE_FEED, IsEntryOf};
ghost use Rattle.kb_bls.specs.Print.{field_line, fields_with, values_by_key, entry_text, is_value, can_be_printed};

use crate::entry::Entry;
use crate::line::trimmed;
use kb_world::{Bytes, Text};
use std::alloc::{AllocError, Global};

// Where the values stand: each key is filled with spaces up to here.
const VALUE_COLUMN: usize = 10;

// Adds the line of a key and its value.
fn push_line(text: &mut Text, key: &str, value: &str) -> Result<(), AllocError>
    ensures { OnOk result (text.new ≡ text.old ++ field_line (record { key = key.now; value = value.now })) }
{
    text.push_str(key)?;
    'filled: for _ in 0..VALUE_COLUMN.saturating_sub(key.len()) {
        text.push_str(" ")?;
    }
    text.push_str(" ")?;
    text.push_str(value)?;
    text.push_str("\n")
}

// Adds a line for each value of a key.
fn push_lines(text: &mut Text, key: &str, values: &[Text]) -> Result<(), AllocError>
    ensures { OnOk result (text.new ≡ text.old ++ flat_map field_line (fields_with key.now values.now)) }
{
    for value in values {
        push_line(text, key, value.as_str())?;
    }
    Ok(())
}

// The keys in the order in which they are printed, each with its values.
fn values_by_key(entry: &Entry) -> [(&str, &[Text]); 10]
    ensures { map (λ k. (k.0.now, k.1.now)) result ≡ values_by_key entry.now }
{
    [
        ("title", entry.title.as_slice()),
        ("version", entry.version.as_slice()),
        ("machine-id", entry.machine_id.as_slice()),
        ("sort-key", entry.sort_key.as_slice()),
        ("options", entry.options.as_slice()),
        ("linux", entry.linux.as_slice()),
        ("efi", entry.efi.as_slice()),
        ("initrd", entry.initrd.as_slice()),
        ("devicetree", entry.devicetree.as_slice()),
        ("architecture", entry.architecture.as_slice()),
    ]
}

fn has_no_line_end(bytes: &[u8]) -> bool
    ensures { result ≡ list_all (λ c. not (nat_eq c LINE_FEED) && not (nat_eq CARRIAGE_RETURN c)) bytes.now }
{
    bytes.iter().all(|&c| c != b'\n' && c != b'\r')
}

// Whether a line can hold the value.
fn is_value(text: &str) -> bool
    ensures { result ≡ is_value text.now }
{
    !text.is_empty() && has_no_line_end(text.as_bytes()) && trimmed(text) == text
}

fn are_values(values: &[Text]) -> bool
    ensures { result ≡ list_all is_value values.now }
{
    values.iter().all(|value| is_value(value.as_str()))
}

fn can_all_stand(fields: &[(&str, &[Text])]) -> bool
    ensures { result ≡ list_all (λ k. list_all is_value k.1.now) fields.now }
{
    fields.iter().all(|(_, values)| are_values(values))
}

/// Whether the entry can be printed: no value is empty, has a line feed or a carriage return, or
/// has a blank at an end.
pub fn can_be_printed(entry: &Entry) -> bool
    ensures { result ≡ can_be_printed entry.now }
{
    can_all_stand(&values_by_key(entry))
}

/// The file of a Type #1 entry: a line for each value, in the order of the keys.
pub fn print_entry(alloc: Global, entry: &Entry) -> Result<Bytes, AllocError>
    requires { IsTrue (can_be_printed entry.now) }
    ensures text { IfOk result (λ bytes. bytes ≡ entry_text entry.now) }
    ensures read_back { IfOk result (λ bytes. IsEntryOf bytes entry.now) }
{
    let fields = values_by_key(entry);
    let mut text = Text::of(alloc, "")?;
    for (key, values) in &fields {
        push_lines(&mut text, key, values)?;
    }
    Bytes::of(alloc, text.as_str().as_bytes())
}
