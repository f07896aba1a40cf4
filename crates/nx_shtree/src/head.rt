ghost use Rattle.std.specs.Prelude.{◌≡◌};
ghost use Rattle.nx_shtree.specs.Answers.{head_seen};
ghost use Rattle.nx_shtree.specs.Words.{Reserved, keyword_of as keyword_named, word_head as head_of_word, head_of as a_head_of, is_keyword as is_the_keyword, is_separator as parts_items};
ghost use Rattle.nx_shtree.specs.Reading.{ends_list as closes};

use crate::keyword::{Keyword, keyword_of};
use nx_shtok::{Token, TokenKind, Word};

/// What a token is where a command begins.
#[derive(Drop)]
pub(crate) enum Head<'a> {
    Reserved(Keyword),
    /// The first word of a command.
    First(&'a Word),
    /// A newline or `;`.
    Separator,
    /// The end of the script.
    Last,
    Other,
}

fn word_head(word: &Word) -> Head<'_>
    ensures { head_seen result ≡ head_of_word word.now (keyword_named word.now) }
{
    match keyword_of(word) {
        Some(keyword) => Head::Reserved(keyword),
        None => Head::First(word),
    }
}

pub(crate) fn head_of(token: &Token) -> Head<'_>
    ensures { head_seen result ≡ a_head_of token.now }
{
    match &token.kind {
        TokenKind::Word(word) => word_head(word),
        TokenKind::Newline => Head::Separator,
        TokenKind::Semi => Head::Separator,
        TokenKind::And => Head::Other,
        TokenKind::Into => Head::Other,
        TokenKind::Append => Head::Other,
        TokenKind::End => Head::Last,
    }
}

/// Whether a token is this reserved word.
pub(crate) fn is_keyword(keyword: Keyword, token: &Token) -> bool
    ensures { result ≡ is_the_keyword keyword token.now }
{
    match head_of(token) {
        Head::Reserved(found) => found == keyword,
        Head::First(_) => false,
        Head::Separator => false,
        Head::Last => false,
        Head::Other => false,
    }
}

/// Whether a token is a newline or `;`.
pub(crate) fn is_separator(token: &Token) -> bool
    ensures { result ≡ parts_items token.now }
{
    match head_of(token) {
        Head::Separator => true,
        Head::Reserved(_) => false,
        Head::First(_) => false,
        Head::Last => false,
        Head::Other => false,
    }
}

fn closes_list(keyword: Keyword) -> bool
    ensures { result ≡ closes (Reserved keyword) }
{
    match keyword {
        Keyword::Then => true,
        Keyword::Else => true,
        Keyword::Fi => true,
        Keyword::Do => true,
        Keyword::Done => true,
        Keyword::If => false,
        Keyword::While => false,
        Keyword::Until => false,
    }
}

/// Whether a token ends a list.
pub(crate) fn ends_list(token: &Token) -> bool
    ensures { result ≡ closes (a_head_of token.now) }
{
    match head_of(token) {
        Head::Reserved(keyword) => closes_list(keyword),
        Head::Last => true,
        Head::First(_) => false,
        Head::Separator => false,
        Head::Other => false,
    }
}
