//! Single bytes of a text, and white space.

ghost use Rattle.std.specs.Prelude.{◌≡◌, ◌+◌, ◌≤◌, drop, get_or, length};
ghost use Rattle.std.specs.List.{prefix_len};
ghost use Rattle.json.specs.Word.{is_space};
ghost use Rattle.lines_json.specs.Inside.Contents.{is_word_end};
ghost use Rattle.lines_json.specs.Standing.{lexemes};
ghost use Rattle.lines_json.specs.Bytes.{byte_or_space};

/// The byte at a place, and a space past the end.
///
/// Example: of the text `{}` it answers `{` at 0, and a space at 2.
#[inline(always)]
pub fn byte_at(text: &[u8], at: usize) -> u8
    ensures { result ≡ byte_or_space text.now at }
{
    if at < text.len() { text[at] } else { b' ' }
}

/// Where the white space ends that may stand at a place, RFC 8259, section 2 (`ws`): at the first
/// byte that is none, or at the end of the text.
///
/// Example: of the text `{ }` it answers 2 at 1, and 0 at 0.
#[inline(always)]
pub fn space_end(text: &[u8], from: usize) -> usize
    requires { from ≤ length text.now }
    ensures later { from ≤ result }
    ensures within { result ≤ length text.now }
    ensures all { result ≡ from + prefix_len is_space (drop from text.now) }
    ensures same { lexemes text.now result ≡ lexemes text.now from }
{
    if byte_at(text, from) > b' ' {
        from
    } else {
        behind_spaces(text, from)
    }
}

/// The same where white space is likely; out of line, since most values stand next to one another.
#[inline(never)]
fn behind_spaces(text: &[u8], from: usize) -> usize
    requires { from ≤ length text.now }
    ensures later { from ≤ result }
    ensures within { result ≤ length text.now }
    ensures all { result ≡ from + prefix_len is_space (drop from text.now) }
    ensures same { lexemes text.now result ≡ lexemes text.now from }
{
    let mut at = from;
    'spaces: while at < text.len() && is_space(text[at]) {
        at += 1;
    }
    at
}

/// Whether a byte ends the word before it: an operator or white space.
#[inline(always)]
pub(crate) fn ends_word(byte: u8) -> bool
    ensures { result ≡ is_word_end byte }
{
    matches!(
        byte,
        b'{' | b'}' | b'[' | b']' | b':' | b',' | b' ' | b'\t' | b'\n' | b'\r'
    )
}

/// Whether a byte is white space.
#[inline(always)]
fn is_space(byte: u8) -> bool
    ensures { result ≡ is_space byte }
{
    (byte == b' ') | (byte == b'\t') | (byte == b'\n') | (byte == b'\r')
}
