ghost use Rattle.std.specs.Prelude.{◌≡◌, ◌<◌, ◌≤◌, [], ◌∷◌, ◌++◌, map, length, IfOk, OnOk, IfSome};
ghost use Rattle.std.specs.Option.{option_map};
ghost use Rattle.nx_grammar.specs.Reading.{picked};
ghost use Rattle.nx_shtree.specs.Answers.{Gives};
ghost use Rattle.nx_shtree.specs.Words.{First, Reserved, head_of as a_head_of};
ghost use Rattle.nx_shtree.specs.Trees.{item_of};
ghost use Rattle.nx_shtree.specs.Reading.{ending_at, fi_rest as rest_of_fi, else_rest as rest_of_else, else_pick, branches_at, if_rest as rest_of_if, deeper as one_deeper, barred_kind as kind_where_barred, item_pick, reserved_pick, list_at};
ghost use Rattle.nx_shtree.specs.Steps.{loop_rest, command_step, list_step, next_item as a_next_item};

use crate::head::{Head, ends_list, head_of, is_separator};
use crate::keyword::Keyword;
use crate::nodes::{background, command, if_else_item, if_item, loop_item};
use crate::simple::{condition, simple_from};
use crate::stop::ParseStop;
use crate::tokens::{closing, separator};
use crate::tree::{Item, Simple};
use nx_grammar::Kind;
use nx_shtok::{Token, TokenKind, Word};
use sqlite_items::Items;
use std::alloc::{AllocError, Global};

/// What ends a command: a separator, or `&`.
fn ending(simple: Simple, tokens: &[Token]) -> Result<(Item, &[Token]), ParseStop<'_>>
    ensures gives { Gives (λ x. (item_of x.0, x.1.now)) result (ending_at simple tokens.now) }
    ensures shorter { IfOk result (λ x. length x.1.now < length tokens.now) }
{
    let [first, rest @ ..] = tokens else {
        return Err(ParseStop::Fault(Kind::Syntax, tokens));
    };
    match &first.kind {
        TokenKind::Newline => Ok((command(simple), rest)),
        TokenKind::Semi => Ok((command(simple), rest)),
        TokenKind::And => Ok((background(simple), rest)),
        _ => Err(ParseStop::Fault(Kind::Syntax, tokens)),
    }
}

/// A command whose first word stands at the front of `tokens`.
fn command_from<'a>(
    alloc: Global,
    first: &Token,
    word: &Word,
    tokens: &'a [Token],
    rest: &'a [Token],
    limit: u32,
) -> Result<(Item, &'a [Token]), ParseStop<'a>>
    requires whole { tokens.now ≡ first.now ∷ rest.now }
    ensures gives { Gives (λ x. (item_of x.0, x.1.now)) result (command_step limit first.now word.now rest.now) }
    ensures shorter { IfOk result (λ x. length x.1.now ≤ length rest.now) }
{
    let (simple, after) = simple_from(alloc, first, word, tokens, rest, limit)?;
    ending(simple, after)
}

/// After the list of an `if` and its `fi`.
#[tactic(auto, unfolding(crate::specs::Reading::fi_rest))]
fn fi_rest<'a>(
    alloc: Global,
    first: &Token,
    condition: Simple,
    body: Items<Item>,
    tokens: &'a [Token],
) -> Result<(Item, &'a [Token]), ParseStop<'a>>
    ensures gives { Gives (λ x. (item_of x.0, x.1.now)) result (rest_of_fi first.now condition (map item_of body) tokens.now) }
    ensures shorter { IfOk result (λ x. length x.1.now ≤ length tokens.now) }
{
    let (_, rest) = separator(tokens)?;
    let item = if_item(alloc, first.line, condition, body)?;
    Ok((item, rest))
}

/// Why a reserved word is refused where no level is left.
fn barred_kind(keyword: Keyword) -> Kind
    ensures { result ≡ kind_where_barred keyword }
{
    match keyword {
        Keyword::If => Kind::Limit,
        Keyword::While => Kind::Limit,
        Keyword::Until => Kind::Limit,
        _ => Kind::Syntax,
    }
}

/// A token that doesn't end the list, and those after it.
fn next_item(tokens: &[Token]) -> Option<(&Token, &[Token])>
    ensures gives { option_map (λ x. (x.0.now, x.1.now)) result ≡ a_next_item tokens.now }
    ensures shorter { IfSome result (λ x. length x.1.now < length tokens.now) }
    ensures whole { IfSome result (λ x. tokens.now ≡ x.0.now ∷ x.1.now) }
{
    match tokens {
        [first, rest @ ..] if !ends_list(first) => Some((first, rest)),
        _ => None,
    }
}

#[tactic(auto, using(crate::proofs::ItemForms::items_added))]
fn add_item(items: &mut Items<Item>, item: Item) -> Result<(), AllocError>
    ensures { OnOk result (map item_of items.new ≡ map item_of items.old ++ item_of item ∷ []) }
{
    items.push(item)
}

/// The second list of an `if`, after its `else`.
#[cycle(list)]
#[tactic(auto, unfolding(crate::specs::Reading::else_rest))]
fn else_rest<'a>(
    alloc: Global,
    first: &Token,
    condition: Simple,
    body: Items<Item>,
    tokens: &'a [Token],
    limit: u32,
    depth: u32,
) -> Result<(Item, &'a [Token]), ParseStop<'a>>
    requires within { depth ≤ limit }
    ensures gives { Gives (λ x. (item_of x.0, x.1.now)) result (rest_of_else (list_at limit depth) first.now condition (map item_of body) tokens.now) }
    ensures shorter { IfOk result (λ x. length x.1.now ≤ length tokens.now) }
{
    let (other, rest) = list(alloc, tokens, limit, depth)?;
    let (_, rest) = closing(rest, Keyword::Fi)?;
    let item = if_else_item(alloc, first.line, condition, body, other)?;
    Ok((item, rest))
}

/// What stands after the first list of an `if`, from this reserved word at the front of `tokens` on.
#[cycle(list)]
fn branch<'a>(
    alloc: Global,
    first: &Token,
    condition: Simple,
    body: Items<Item>,
    keyword: Keyword,
    word: &Token,
    tokens: &'a [Token],
    rest: &'a [Token],
    limit: u32,
    depth: u32,
) -> Result<(Item, &'a [Token]), ParseStop<'a>>
    requires within { depth ≤ limit }
    requires whole { tokens.now ≡ word.now ∷ rest.now }
    ensures gives { Gives (λ x. (item_of x.0, x.1.now)) result (picked (else_pick (list_at limit depth) first.now condition (map item_of body) (Reserved keyword)) word.now rest.now) }
    ensures shorter { IfOk result (λ x. length x.1.now ≤ length rest.now) }
{
    match keyword {
        Keyword::Else => else_rest(alloc, first, condition, body, rest, limit, depth),
        Keyword::Fi => fi_rest(alloc, first, condition, body, rest),
        _ => Err(ParseStop::Fault(Kind::Syntax, tokens)),
    }
}

/// What stands after the first list of an `if`.
#[cycle(list)]
fn branches<'a>(
    alloc: Global,
    first: &Token,
    condition: Simple,
    body: Items<Item>,
    tokens: &'a [Token],
    limit: u32,
    depth: u32,
) -> Result<(Item, &'a [Token]), ParseStop<'a>>
    requires within { depth ≤ limit }
    ensures gives { Gives (λ x. (item_of x.0, x.1.now)) result (branches_at (list_at limit depth) first.now condition (map item_of body) tokens.now) }
    ensures shorter { IfOk result (λ x. length x.1.now ≤ length tokens.now) }
{
    let [word, rest @ ..] = tokens else {
        return Err(ParseStop::Fault(Kind::Syntax, tokens));
    };
    match head_of(word) {
        Head::Reserved(keyword) => branch(
            alloc, first, condition, body, keyword, word, tokens, rest, limit, depth,
        ),
        _ => Err(ParseStop::Fault(Kind::Syntax, tokens)),
    }
}

/// An `if` after its first token.
#[cycle(list)]
#[tactic(auto, unfolding(crate::specs::Reading::if_rest))]
fn if_rest<'a>(
    alloc: Global,
    first: &Token,
    tokens: &'a [Token],
    limit: u32,
    depth: u32,
) -> Result<(Item, &'a [Token]), ParseStop<'a>>
    requires within { depth ≤ limit }
    ensures gives { Gives (λ x. (item_of x.0, x.1.now)) result (rest_of_if limit (list_at limit depth) first.now tokens.now) }
    ensures shorter { IfOk result (λ x. length x.1.now ≤ length tokens.now) }
{
    let (condition, rest) = condition(alloc, tokens, Keyword::Then, limit)?;
    let (body, rest) = list(alloc, rest, limit, depth)?;
    branches(alloc, first, condition, body, rest, limit, depth)
}

/// A `while` or an `until` after its first token.
#[cycle(list)]
#[tactic(auto, unfolding(crate::specs::Steps::loop_rest))]
fn repeated<'a>(
    alloc: Global,
    first: &Token,
    until: bool,
    tokens: &'a [Token],
    limit: u32,
    depth: u32,
) -> Result<(Item, &'a [Token]), ParseStop<'a>>
    requires within { depth ≤ limit }
    ensures gives { Gives (λ x. (item_of x.0, x.1.now)) result (loop_rest limit (list_at limit depth) until first.now tokens.now) }
    ensures shorter { IfOk result (λ x. length x.1.now ≤ length tokens.now) }
{
    let (condition, rest) = condition(alloc, tokens, Keyword::Do, limit)?;
    let (body, rest) = list(alloc, rest, limit, depth)?;
    let (_, rest) = closing(rest, Keyword::Done)?;
    let item = loop_item(alloc, first.line, until, condition, body)?;
    Ok((item, rest))
}

/// What a reserved word at the front of `tokens` begins, with so many levels left for its lists.
#[cycle(list)]
#[tactic(auto, using(crate::proofs::ListRounds::loop_while, crate::proofs::ListRounds::loop_until))]
fn deeper<'a>(
    alloc: Global,
    first: &Token,
    keyword: Keyword,
    tokens: &'a [Token],
    rest: &'a [Token],
    limit: u32,
    depth: u32,
) -> Result<(Item, &'a [Token]), ParseStop<'a>>
    requires within { depth ≤ limit }
    requires whole { tokens.now ≡ first.now ∷ rest.now }
    ensures gives { Gives (λ x. (item_of x.0, x.1.now)) result (picked (one_deeper limit (list_at limit depth) first.now keyword) first.now rest.now) }
    ensures shorter { IfOk result (λ x. length x.1.now ≤ length rest.now) }
{
    match keyword {
        Keyword::If => if_rest(alloc, first, rest, limit, depth),
        Keyword::While => repeated(alloc, first, false, rest, limit, depth),
        Keyword::Until => repeated(alloc, first, true, rest, limit, depth),
        _ => Err(ParseStop::Fault(Kind::Syntax, tokens)),
    }
}

/// What a reserved word at the front of `tokens` begins.
#[cycle(list)]
#[tactic(auto, using(crate::proofs::ListRounds::none_left, crate::proofs::ListRounds::one_left))]
fn reserved<'a>(
    alloc: Global,
    first: &Token,
    keyword: Keyword,
    tokens: &'a [Token],
    rest: &'a [Token],
    limit: u32,
    depth: u32,
) -> Result<(Item, &'a [Token]), ParseStop<'a>>
    requires within { depth ≤ limit }
    requires whole { tokens.now ≡ first.now ∷ rest.now }
    ensures gives { Gives (λ x. (item_of x.0, x.1.now)) result (picked (reserved_pick limit depth first.now keyword) first.now rest.now) }
    ensures shorter { IfOk result (λ x. length x.1.now ≤ length rest.now) }
{
    if depth == 0 {
        return Err(ParseStop::Fault(barred_kind(keyword), tokens));
    }
    deeper(alloc, first, keyword, tokens, rest, limit, depth - 1)
}

/// An item whose first token stands at the front of `tokens`.
#[cycle(list)]
#[tactic(auto, using(crate::proofs::ListRounds::command_split))]
fn item<'a>(
    alloc: Global,
    first: &'a Token,
    tokens: &'a [Token],
    rest: &'a [Token],
    limit: u32,
    depth: u32,
) -> Result<(Item, &'a [Token]), ParseStop<'a>>
    requires within { depth ≤ limit }
    requires whole { tokens.now ≡ first.now ∷ rest.now }
    ensures gives { Gives (λ x. (item_of x.0, x.1.now)) result (picked (item_pick limit (reserved_pick limit depth) first.now (a_head_of first.now)) first.now rest.now) }
    ensures shorter { IfOk result (λ x. length x.1.now ≤ length rest.now) }
{
    match head_of(first) {
        Head::Reserved(keyword) => reserved(alloc, first, keyword, tokens, rest, limit, depth),
        Head::First(word) => command_from(alloc, first, word, tokens, rest, limit),
        _ => Err(ParseStop::Fault(Kind::Syntax, tokens)),
    }
}

/// A separator, or an item more.
#[cycle(list)]
fn step<'a>(
    alloc: Global,
    items: &mut Items<Item>,
    first: &'a Token,
    tokens: &'a [Token],
    rest: &'a [Token],
    limit: u32,
    depth: u32,
) -> Result<&'a [Token], ParseStop<'a>>
    requires within { depth ≤ limit }
    requires whole { tokens.now ≡ first.now ∷ rest.now }
    ensures gives { Gives (λ x. (map item_of items.new, x.now)) result (list_step limit (reserved_pick limit depth) (map item_of items.old) first.now rest.now) }
    ensures shorter { IfOk result (λ x. length x.now ≤ length rest.now) }
{
    if is_separator(first) {
        return Ok(rest);
    }
    let (item, after) = item(alloc, first, tokens, rest, limit, depth)?;
    add_item(items, item)?;
    Ok(after)
}

/// A list of at most so many levels, and of at most `limit` words in a command, up to a token that
/// ends it.
#[cycle(list)]
pub(crate) fn list(
    alloc: Global,
    tokens: &[Token],
    limit: u32,
    depth: u32,
) -> Result<(Items<Item>, &[Token]), ParseStop<'_>>
    requires within { depth ≤ limit }
    ensures gives { Gives (λ x. (map item_of x.0, x.1.now)) result (list_at limit depth tokens.now) }
    ensures shorter { IfOk result (λ x. length x.1.now ≤ length tokens.now) }
{
    let mut items = Items::new(alloc);
    let mut rest = tokens;
    while let Some((first, others)) = next_item(rest) {
        match step(alloc, &mut items, first, rest, others, limit, depth) {
            Err(stop) => return Err(stop),
            Ok(after) => rest = after,
        }
    }
    match rest {
        [] => Err(ParseStop::Fault(Kind::Syntax, rest)),
        _ => Ok((items, rest)),
    }
}
