//! The reserved words.

ghost use Rattle.std.specs.Prelude.{◌≡◌};
ghost use Rattle.semantics.specs.Words.{reserved_word, begins_word, continues_word, is_word};
ghost use Rattle.query_lexer.specs.Words.{word_text};
ghost use Rattle.std.specs.List.{find, list_all, prefix_len};
ghost use Rattle.semantics.specs.Tokens.{begins_with};
ghost use Rattle.std.specs.Str.{str_eq_ignore_ascii_case};

use semantics::Word;

/// The letters of a reserved word, in capitals.
fn word_text(word: Word) -> &'static str
    ensures { result.now ≡ word_text word }
{
    match word {
        Word::And => "AND",
        Word::As => "AS",
        Word::Asc => "ASC",
        Word::Avg => "AVG",
        Word::Between => "BETWEEN",
        Word::By => "BY",
        Word::Count => "COUNT",
        Word::Cube => "CUBE",
        Word::Desc => "DESC",
        Word::Distinct => "DISTINCT",
        Word::False => "FALSE",
        Word::Filter => "FILTER",
        Word::First => "FIRST",
        Word::From => "FROM",
        Word::Group => "GROUP",
        Word::Grouping => "GROUPING",
        Word::Having => "HAVING",
        Word::In => "IN",
        Word::Is => "IS",
        Word::Last => "LAST",
        Word::Max => "MAX",
        Word::Min => "MIN",
        Word::Not => "NOT",
        Word::Null => "NULL",
        Word::Nulls => "NULLS",
        Word::Or => "OR",
        Word::Order => "ORDER",
        Word::Rollup => "ROLLUP",
        Word::Select => "SELECT",
        Word::Sets => "SETS",
        Word::Sum => "SUM",
        Word::True => "TRUE",
        Word::Unknown => "UNKNOWN",
        Word::Where => "WHERE",
    }
}

/// The first of the words that the text is without regard to ASCII case.
fn word_among(words: &[Word], text: &str) -> Option<Word>
    ensures { result ≡ find (λ word. str_eq_ignore_ascii_case text.now (word_text word)) words.now }
{
    words
        .iter()
        .copied()
        .find(|word| text.eq_ignore_ascii_case(word_text(*word)))
}

/// The reserved word that the text is without regard to ASCII case, if it is one. It takes no
/// memory.
///
/// Example: `reserved_word("select")` answers `Some(Word::Select)`, and `reserved_word("shop")`
/// answers `None`.
#[tactic(auto, using(crate::proofs::Reserved::reserved_listed))]
pub fn reserved_word(text: &str) -> Option<Word>
    ensures { result ≡ reserved_word text.now }
{
    word_among(&RESERVED_WORDS, text)
}

const RESERVED_WORDS: [Word; 34] = [
    Word::And,
    Word::As,
    Word::Asc,
    Word::Avg,
    Word::Between,
    Word::By,
    Word::Count,
    Word::Cube,
    Word::Desc,
    Word::Distinct,
    Word::False,
    Word::Filter,
    Word::First,
    Word::From,
    Word::Group,
    Word::Grouping,
    Word::Having,
    Word::In,
    Word::Is,
    Word::Last,
    Word::Max,
    Word::Min,
    Word::Not,
    Word::Null,
    Word::Nulls,
    Word::Or,
    Word::Order,
    Word::Rollup,
    Word::Select,
    Word::Sets,
    Word::Sum,
    Word::True,
    Word::Unknown,
    Word::Where,
];

/// Whether a word may begin with this byte.
pub fn begins_word(byte: u8) -> bool
    ensures { result ≡ begins_word byte }
{
    byte.is_ascii_alphabetic() || byte == b'_'
}

/// Whether a word may go on with this byte.
pub fn continues_word(byte: u8) -> bool
    ensures { result ≡ continues_word byte }
{
    byte.is_ascii_alphabetic() || byte.is_ascii_digit() || byte == b'_'
}

/// How many bytes in front may go on a word.
pub fn word_len(bytes: &[u8]) -> usize
    ensures { result ≡ prefix_len continues_word bytes.now }
{
    bytes
        .iter()
        .take_while(|byte| continues_word(**byte))
        .count()
}

/// Whether a word begins in front of the text.
pub fn starts_word(text: &str) -> bool
    ensures { result ≡ begins_with begins_word text.now }
{
    match text.as_bytes() {
        [first, ..] => begins_word(*first),
        [] => false,
    }
}

fn all_continue(bytes: &[u8]) -> bool
    ensures { result ≡ list_all continues_word bytes.now }
{
    bytes.iter().all(|byte| continues_word(*byte))
}

/// Whether the text is a word.
pub fn is_word(text: &str) -> bool
    ensures { result ≡ is_word text.now }
{
    match text.as_bytes() {
        [first, others @ ..] => begins_word(*first) && all_continue(others),
        [] => false,
    }
}
