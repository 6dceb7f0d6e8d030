// What one line of an entry says.
ghost use Rattle.std.specs.Prelude.{MatchOption};
ghost use Rattle.kb_bls.specs.Fields.{IsTrimmed, Says, SaysNothing};

// What separates a key from its value.
const BLANKS: [char; 2] = [' ', '\t'];

/// The line without what doesn't count at its ends: one carriage return at the end, and then
/// blanks.
pub fn trimmed(line: &str) -> &str
    ensures { IsTrimmed line.now result.now }
{
    line.strip_suffix('\r')
        .unwrap_or(line)
        .trim_start_matches(BLANKS)
        .trim_end_matches(BLANKS)
}

/// The key and the value that a line says it has, if it says one. The first word of a comment is
/// taken for a key, which no profile has.
pub fn field_of(line: &str) -> Option<(&str, &str)>
    ensures { MatchOption result (SaysNothing line.now) (λ field. Says line.now (record { key = field.0.now; value = field.1.now })) }
{
    let (key, value) = trimmed(line).split_once(BLANKS)?;
    Some((key, value.trim_start_matches(BLANKS)))
}
