ghost use Rattle.std.specs.Prelude.{◌≡◌};
ghost use Rattle.nx_shtree.specs.Words.{is_byte as is_this_byte, are_bytes as are_these_bytes, spells as spells_keyword, keyword_text, all_keywords, keyword_of as keyword_named};

use nx_shtok::{Part, Word};

/// A word that the grammar keeps for itself where a command begins.
#[derive(Clone, Copy, Debug, PartialEq, Eq)]
pub enum Keyword {
    If,
    Then,
    Else,
    Fi,
    While,
    Until,
    Do,
    Done,
}

static KEYWORDS: [Keyword; 8] = [
    Keyword::If,
    Keyword::Then,
    Keyword::Else,
    Keyword::Fi,
    Keyword::While,
    Keyword::Until,
    Keyword::Do,
    Keyword::Done,
];

#[tactic(auto, unfolding(crate::specs::Words::all_keywords))]
fn keywords() -> &'static [Keyword]
    ensures { result.now ≡ all_keywords }
{
    &KEYWORDS
}

/// How a reserved word is spelled.
fn text(keyword: Keyword) -> &'static [u8]
    ensures { result.now ≡ keyword_text keyword }
{
    match keyword {
        Keyword::If => b"if",
        Keyword::Then => b"then",
        Keyword::Else => b"else",
        Keyword::Fi => b"fi",
        Keyword::While => b"while",
        Keyword::Until => b"until",
        Keyword::Do => b"do",
        Keyword::Done => b"done",
    }
}

fn is_byte(byte: u8, part: &Part) -> bool
    ensures { result ≡ is_this_byte byte part.now }
{
    match part {
        Part::Byte(found) => *found == byte,
        Part::Status => false,
        Part::Name(_) => false,
    }
}

fn are_bytes(bytes: &[u8], parts: &[Part]) -> bool
    ensures { result ≡ are_these_bytes bytes.now parts.now }
{
    let mut rest = bytes;
    let mut left = parts;
    while let [byte, others @ ..] = rest {
        match left {
            [] => return false,
            [part, more @ ..] => {
                if !is_byte(*byte, part) {
                    return false;
                }
                rest = others;
                left = more;
            }
        }
    }
    left.is_empty()
}

fn spells(word: &Word, keyword: Keyword) -> bool
    ensures { result ≡ spells_keyword word.now keyword }
{
    !word.quoted && are_bytes(text(keyword), word.parts.as_slice())
}

/// The reserved word that a word is.
#[tactic(auto, unfolding(crate::specs::Words::keyword_of))]
pub(crate) fn keyword_of(word: &Word) -> Option<Keyword>
    ensures { result ≡ keyword_named word.now }
{
    for keyword in keywords() {
        if spells(word, *keyword) {
            return Some(*keyword);
        }
    }
    None
}
