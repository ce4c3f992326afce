//! Classes of bytes and characters (XML 1.0, sections 2.2 and 2.3; Namespaces in XML 1.0, section 4).
ghost use Rattle.std.specs.Prelude.{◌≡◌, true};
ghost use Rattle.xml_tokens.specs.Characters;

/// Whether a byte is white space: a space, a tab, a line feed or a carriage return (XML 1.0, section 2.3).
pub fn is_white(b: u8) -> bool
    ensures { result ≡ Characters.is_white b }
{
    b <= b' ' && (b == b' ' || b == b'\t' || b == b'\n' || b == b'\r')
}

// Whether a byte is an ASCII letter.
pub(crate) fn is_letter(b: u8) -> bool
    ensures { result ≡ Characters.is_letter b }
{
    b.is_ascii_lowercase() || b.is_ascii_uppercase()
}

/// Whether a name may begin with a byte: an ASCII letter, `_`, and the bytes of each character from U+0080 on.
pub fn is_name_start(b: u8) -> bool
    ensures { result ≡ Characters.is_name_start b }
{
    b.is_ascii_lowercase() || b.is_ascii_uppercase() || b == b'_' || b >= 128
}

/// Whether a name may go on with a byte: one that it may begin with, a digit, `-` or `.`.
pub fn is_name_byte(b: u8) -> bool
    ensures { result ≡ Characters.is_name_byte b }
{
    is_name_start(b) || b.is_ascii_digit() || b == b'-' || b == b'.'
}

// Whether a name may go on with a byte, and it is of ASCII. Letters are told first.
pub(crate) fn is_ascii_name_byte(b: u8) -> bool
    ensures { result ≡ Characters.is_ascii_name_byte b }
{
    is_letter(b) || b.is_ascii_digit() || b == b'_' || b == b'-' || b == b'.'
}

// Whether bytes begin as a name does.
pub(crate) fn begins_as_name(bytes: &[u8]) -> bool
    ensures { result ≡ Characters.begins_as_name bytes.now }
{
    match bytes.split_first() {
        Some((first, _)) => is_name_start(*first),
        None => false,
    }
}

/// Whether a byte is a control character that is none of XML's (section 2.2).
pub fn is_control(b: u8) -> bool
    ensures { result ≡ Characters.is_control b }
{
    b < b' ' && b != b'\t' && b != b'\n' && b != b'\r'
}

/// Whether the byte `c`, behind the bytes `a` and `b`, ends a character that is none of XML's (section 2.2): a
/// control character, or U+FFFE or U+FFFF.
pub fn ends_forbidden(a: u8, b: u8, c: u8) -> bool
    ensures { result ≡ Characters.ends_forbidden a b c }
{
    is_control(c) || a == 0xEF && b == 0xBF && (c == 0xBE || c == 0xBF)
}

/// Whether each character of a text is one of XML's (section 2.2). It tells the truth of bytes that are UTF-8.
#[tactic(auto, unfolding(crate::specs::Characters::are_characters))]
pub fn are_characters(bytes: &[u8]) -> bool
    ensures { result ≡ Characters.are_characters bytes.now }
{
    let mut before = 0;
    let mut last = 0;
    for b in bytes {
        if ends_forbidden(before, last, *b) {
            return false;
        }
        before = last;
        last = *b;
    }
    true
}

// Whether each byte can go on a name.
fn go_on(bytes: &[u8]) -> bool
    ensures { result ≡ Characters.go_on bytes.now }
{
    bytes.iter().all(|b| is_name_byte(*b))
}

// Whether bytes begin and go on as a name does.
fn is_named(bytes: &[u8]) -> bool
    ensures { result ≡ Characters.is_named bytes.now }
{
    match bytes.split_first() {
        Some((first, rest)) => is_name_start(*first) && go_on(rest),
        None => false,
    }
}

// Whether each character of what begins and goes on as a name does is one of XML's. U+FFFE and U+FFFF begin with EF.
#[tactic(auto, using(crate::proofs::NameCharacters::name_characters))]
fn are_name_characters(bytes: &[u8]) -> bool
    requires { Characters.is_named bytes.now ≡ true }
    ensures { result ≡ Characters.are_characters bytes.now }
{
    !bytes.contains(&0xEF) || are_characters(bytes)
}

/// Whether bytes are a name without a colon (Namespaces in XML 1.0, section 3, NCName): ASCII letters, digits, `_`,
/// `-`, `.` and characters from U+0080 on, and neither a digit nor `-` nor `.` at the front. Beyond ASCII it is wider
/// than XML, which leaves some characters out of names (XML 1.0, section 2.3).
pub fn is_name(bytes: &[u8]) -> bool
    ensures { result ≡ Characters.is_name bytes.now }
{
    is_named(bytes) && are_name_characters(bytes)
}
