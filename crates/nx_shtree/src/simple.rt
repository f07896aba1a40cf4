ghost use Rattle.std.specs.Prelude.{◌≡◌, ◌<◌, ◌≤◌, [], ◌∷◌, length, IfOk, IfSome};
ghost use Rattle.std.specs.Option.{option_map};
ghost use Rattle.nx_grammar.specs.Reading.{picked};
ghost use Rattle.nx_shtree.specs.Answers.{Gives, word_at as a_word_at, word_step};
ghost use Rattle.nx_shtree.specs.Words.{First};
ghost use Rattle.nx_shtree.specs.Reading.{words_at, file_at as a_file_at, output_at, simple_rest as rest_of_simple, simple_pick, simple_at, condition_at};

use crate::copy::copied;
use crate::head::{Head, head_of};
use crate::keyword::Keyword;
use crate::stop::ParseStop;
use crate::tokens::{keyword, separators};
use crate::tree::{Mode, Redirection, Simple};
use nx_grammar::Kind;
use nx_shtok::{Token, TokenKind, Word};
use sqlite_items::Items;
use std::alloc::Global;

/// A word at the front, and the tokens after it.
fn word_at(tokens: &[Token]) -> Option<(&Word, &[Token])>
    ensures gives { option_map (λ x. (x.0.now, x.1.now)) result ≡ a_word_at tokens.now }
    ensures shorter { IfSome result (λ x. length x.1.now < length tokens.now) }
{
    let [first, rest @ ..] = tokens else {
        return None;
    };
    match &first.kind {
        TokenKind::Word(word) => Some((word, rest)),
        _ => None,
    }
}

/// A word more, where the limit allows one; `tokens` begin with it.
fn add_word<'a>(
    alloc: Global,
    words: &mut Items<Word>,
    word: &Word,
    tokens: &'a [Token],
    rest: &'a [Token],
    limit: u32,
) -> Result<&'a [Token], ParseStop<'a>>
    ensures gives { Gives (λ x. (words.new, x.now)) result (word_step limit words.old word.now tokens.now rest.now) }
    ensures same { IfOk result (λ x. x.now ≡ rest.now) }
{
    if words.len() >= limit as usize {
        return Err(ParseStop::Fault(Kind::Limit, tokens));
    }
    let copy = copied(alloc, word)?;
    words.push(copy)?;
    Ok(rest)
}

/// The words of a command, of which this is the first.
fn words<'a>(
    alloc: Global,
    first: &Word,
    tokens: &'a [Token],
    limit: u32,
) -> Result<(Items<Word>, &'a [Token]), ParseStop<'a>>
    ensures gives { Gives (λ x. (x.0, x.1.now)) result (words_at limit (first.now ∷ []) tokens.now) }
    ensures shorter { IfOk result (λ x. length x.1.now ≤ length tokens.now) }
{
    let mut words = Items::new(alloc);
    words.push(copied(alloc, first)?)?;
    let mut rest = tokens;
    while let Some((word, others)) = word_at(rest) {
        match add_word(alloc, &mut words, word, rest, others, limit) {
            Err(stop) => return Err(stop),
            Ok(after) => rest = after,
        }
    }
    match rest {
        [] => Err(ParseStop::Fault(Kind::Syntax, rest)),
        _ => Ok((words, rest)),
    }
}

/// The word that names the file of a redirection.
#[tactic(auto, unfolding(crate::specs::Reading::file_at))]
fn file_at<'a>(
    alloc: Global,
    mark: &Token,
    mode: Mode,
    tokens: &'a [Token],
) -> Result<(Option<Redirection>, &'a [Token]), ParseStop<'a>>
    ensures gives { Gives (λ x. (x.0, x.1.now)) result (a_file_at mark.now mode tokens.now) }
    ensures shorter { IfOk result (λ x. length x.1.now ≤ length tokens.now) }
{
    let [first, rest @ ..] = tokens else {
        return Err(ParseStop::Fault(Kind::Syntax, tokens));
    };
    match &first.kind {
        TokenKind::Word(word) => {
            let file = copied(alloc, word)?;
            Ok((
                Some(Redirection {
                    line: mark.line,
                    mode,
                    file,
                }),
                rest,
            ))
        }
        _ => Err(ParseStop::Fault(Kind::Syntax, tokens)),
    }
}

/// A redirection, or none.
fn output(alloc: Global, tokens: &[Token]) -> Result<(Option<Redirection>, &[Token]), ParseStop<'_>>
    ensures gives { Gives (λ x. (x.0, x.1.now)) result (output_at tokens.now) }
    ensures shorter { IfOk result (λ x. length x.1.now ≤ length tokens.now) }
{
    let [first, rest @ ..] = tokens else {
        return Err(ParseStop::Fault(Kind::Syntax, tokens));
    };
    match &first.kind {
        TokenKind::Into => file_at(alloc, first, Mode::Truncate, rest),
        TokenKind::Append => file_at(alloc, first, Mode::Append, rest),
        _ => Ok((None, tokens)),
    }
}

/// The rest of a simple command after its first word.
#[tactic(auto, unfolding(crate::specs::Reading::simple_rest))]
fn simple_rest<'a>(
    alloc: Global,
    first: &Token,
    word: &Word,
    tokens: &'a [Token],
    limit: u32,
) -> Result<(Simple, &'a [Token]), ParseStop<'a>>
    ensures gives { Gives (λ x. (x.0, x.1.now)) result (rest_of_simple limit first.now word.now tokens.now) }
    ensures shorter { IfOk result (λ x. length x.1.now ≤ length tokens.now) }
{
    let (words, rest) = words(alloc, word, tokens, limit)?;
    let (output, rest) = output(alloc, rest)?;
    let line = first.line;
    Ok((
        Simple {
            line,
            words,
            output,
        },
        rest,
    ))
}

/// A simple command whose first word stands at the front of `tokens`.
pub(crate) fn simple_from<'a>(
    alloc: Global,
    first: &Token,
    word: &Word,
    tokens: &'a [Token],
    rest: &'a [Token],
    limit: u32,
) -> Result<(Simple, &'a [Token]), ParseStop<'a>>
    requires whole { tokens.now ≡ first.now ∷ rest.now }
    ensures gives { Gives (λ x. (x.0, x.1.now)) result (picked (simple_pick limit first.now (First word.now)) first.now rest.now) }
    ensures shorter { IfOk result (λ x. length x.1.now ≤ length rest.now) }
{
    if limit == 0 {
        return Err(ParseStop::Fault(Kind::Limit, tokens));
    }
    simple_rest(alloc, first, word, rest, limit)
}

/// A simple command.
fn simple(alloc: Global, tokens: &[Token], limit: u32) -> Result<(Simple, &[Token]), ParseStop<'_>>
    ensures gives { Gives (λ x. (x.0, x.1.now)) result (simple_at limit tokens.now) }
    ensures shorter { IfOk result (λ x. length x.1.now ≤ length tokens.now) }
{
    let [first, rest @ ..] = tokens else {
        return Err(ParseStop::Fault(Kind::Syntax, tokens));
    };
    match head_of(first) {
        Head::First(word) => simple_from(alloc, first, word, tokens, rest, limit),
        _ => Err(ParseStop::Fault(Kind::Syntax, tokens)),
    }
}

/// A condition before this reserved word.
#[tactic(auto, unfolding(crate::specs::Reading::condition_at))]
pub(crate) fn condition<'a>(
    alloc: Global,
    tokens: &'a [Token],
    wanted: Keyword,
    limit: u32,
) -> Result<(Simple, &'a [Token]), ParseStop<'a>>
    ensures gives { Gives (λ x. (x.0, x.1.now)) result (condition_at limit wanted tokens.now) }
    ensures shorter { IfOk result (λ x. length x.1.now ≤ length tokens.now) }
{
    let (condition, rest) = simple(alloc, tokens, limit)?;
    let rest = separators(rest)?;
    let (_, rest) = keyword(rest, wanted)?;
    Ok((condition, rest))
}
