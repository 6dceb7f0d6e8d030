ghost use Rattle.std.specs.Prelude.{◌≡◌};
ghost use Rattle.kb_conf.specs.Bytes.{is_blank, is_operator, is_active, starts_name, continues_name, stands_for_itself, begins_expansion};

pub const NUL: u8 = 0;

pub const TAB: u8 = b'\t';

pub const LINE_FEED: u8 = b'\n';

pub const CARRIAGE_RETURN: u8 = b'\r';

pub const SPACE: u8 = b' ';

pub const EXCLAMATION: u8 = b'!';

pub const QUOTE: u8 = b'"';

pub const HASH: u8 = b'#';

pub const DOLLAR: u8 = b'$';

pub const AMPERSAND: u8 = b'&';

pub const APOSTROPHE: u8 = b'\'';

pub const OPEN_PARENTHESIS: u8 = b'(';

pub const CLOSE_PARENTHESIS: u8 = b')';

pub const ASTERISK: u8 = b'*';

pub const MINUS: u8 = b'-';

pub const ZERO: u8 = b'0';

pub const SEMICOLON: u8 = b';';

pub const LESS: u8 = b'<';

pub const EQUALS: u8 = b'=';

pub const GREATER: u8 = b'>';

pub const QUESTION: u8 = b'?';

pub const AT: u8 = b'@';

pub const OPEN_BRACKET: u8 = b'[';

pub const BACKSLASH: u8 = b'\\';

pub const CLOSE_BRACKET: u8 = b']';

pub const UNDERSCORE: u8 = b'_';

pub const BACKQUOTE: u8 = b'`';

pub const OPEN_BRACE: u8 = b'{';

pub const BAR: u8 = b'|';

pub const CLOSE_BRACE: u8 = b'}';

/// A space or a tab.
pub fn is_blank(byte: u8) -> bool
    ensures { result ≡ is_blank byte }
{
    byte == SPACE || byte == TAB
}

/// One of `; & | < > ( )`.
fn is_operator(byte: u8) -> bool
    ensures { result ≡ is_operator byte }
{
    byte == SEMICOLON
        || byte == AMPERSAND
        || byte == BAR
        || byte == LESS
        || byte == GREATER
        || byte == OPEN_PARENTHESIS
        || byte == CLOSE_PARENTHESIS
}

/// One of the four bytes that mean something inside double quotes.
pub fn is_active(byte: u8) -> bool
    ensures { result ≡ is_active byte }
{
    byte == QUOTE || byte == DOLLAR || byte == BACKSLASH || byte == BACKQUOTE
}

/// Whether the byte is a piece of a value by itself, inside double quotes or outside.
pub fn stands_for_itself(quoted: bool, byte: u8) -> bool
    ensures { result ≡ stands_for_itself quoted byte }
{
    if quoted {
        !is_active(byte)
    } else {
        !(is_active(byte)
            || is_blank(byte)
            || is_operator(byte)
            || byte == LINE_FEED
            || byte == APOSTROPHE)
    }
}

pub fn starts_name(byte: u8) -> bool
    ensures { result ≡ starts_name byte }
{
    byte.is_ascii_alphabetic() || byte == UNDERSCORE
}

pub fn continues_name(byte: u8) -> bool
    ensures { result ≡ continues_name byte }
{
    byte.is_ascii_alphanumeric() || byte == UNDERSCORE
}

/// Whether a `$` before this byte begins something else than the `$` itself.
pub fn begins_expansion(byte: u8) -> bool
    ensures { result ≡ begins_expansion byte }
{
    continues_name(byte)
        || byte == OPEN_BRACE
        || byte == OPEN_PARENTHESIS
        || byte == AT
        || byte == ASTERISK
        || byte == HASH
        || byte == QUESTION
        || byte == EXCLAMATION
        || byte == MINUS
        || byte == DOLLAR
}
