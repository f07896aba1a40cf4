ghost use Rattle.std.specs.Prelude.{◌≡◌, ◌<◌, ◌≤◌, ◌-◌, ◌∷◌, [], length, IfOk};
ghost use Rattle.nx_grammar.specs.Reading.{dispatch, seq};
ghost use Rattle.nx_cexpr.specs.Answers.{Gives};
ghost use Rattle.nx_cstmt.specs.Answers.{ReadsParts};
ghost use Rattle.nx_cstmt.specs.Lists.{add, is_over};
ghost use Rattle.nx_cstmt.specs.Reading.{part_pick};
ghost use Rattle.nx_cparse.specs.Commas.{next, commas};
ghost use Rattle.nx_cparse.specs.Reading.{value_rest, local_array, item_kind_at, item_rest, item_at, decl_rest, decl_pick, is_no_base, decls_at, body_rest};

use crate::constant::array_length;
use crate::tokens::{after_comma, first_line, pointer_or_name};
use nx_base::Bytes;
use nx_cblock::statements;
use nx_cexpr::{ParseStop, Rest, base, expect};
use nx_cstmt::inner::{Answer, part};
use nx_ctree::{Base, Decl, Expr, Function, Item, ItemKind, Sign, Signed};
use nx_grammar::Kind;
use nx_shared::Shared;
use sqlite_items::Items;
use std::alloc::Global;

/// A local's value.
#[tactic(auto, unfolding(crate::specs::Reading::value_rest))]
fn value<'a, P: for<'b> Fn(&'b [Signed<'b>], u32) -> Answer<'b, Expr>>(
    alloc: Global,
    parts: &P,
    tokens: &'a [Signed<'a>],
    depth: u32,
) -> Answer<'a, ItemKind>
    requires small { depth ≤ 64 }
    requires parts { ReadsParts (P.pre parts.now) (P.post parts.now) }
    ensures gives { Gives (λ x. (x.0, x.1.now)) result (value_rest (part_pick depth) tokens.now) }
    ensures shorter { IfOk result (λ x. length x.1.now ≤ length tokens.now) }
{
    let (expr, rest) = part(parts, tokens, depth)?;
    Ok((ItemKind::Valued(Shared::new(alloc, expr)?), rest))
}

/// A local's length.
#[tactic(auto, unfolding(crate::specs::Reading::local_array))]
fn array<'a>(tokens: &'a [Signed<'a>]) -> Answer<'a, ItemKind>
    ensures gives { Gives (λ x. (x.0, x.1.now)) result (local_array tokens.now) }
    ensures shorter { IfOk result (λ x. length x.1.now ≤ length tokens.now) }
{
    let (length, rest) = array_length(tokens)?;
    Ok((ItemKind::Array(length), rest))
}

/// What stands after a local's name.
#[tactic(auto, using(crate::proofs::Splits::value_on, crate::proofs::Splits::value_off))]
fn item_kind<'a, P: for<'b> Fn(&'b [Signed<'b>], u32) -> Answer<'b, Expr>>(
    alloc: Global,
    parts: &P,
    tokens: &'a [Signed<'a>],
    depth: u32,
) -> Answer<'a, ItemKind>
    requires small { depth ≤ 64 }
    requires parts { ReadsParts (P.pre parts.now) (P.post parts.now) }
    ensures gives { Gives (λ x. (x.0, x.1.now)) result (item_kind_at part_pick depth tokens.now) }
    ensures shorter { IfOk result (λ x. length x.1.now ≤ length tokens.now) }
{
    match tokens {
        [] => Err(ParseStop::Fault(Kind::Syntax, tokens)),
        [first, rest @ ..] => match first.sign {
            Sign::OpenBracket => array(rest),
            Sign::Set if depth > 1 => value(alloc, parts, rest, depth - 1),
            Sign::Set => Err(ParseStop::Fault(Kind::Limit, tokens)),
            _ => Ok((ItemKind::Plain, tokens)),
        },
    }
}

/// A local after its name.
#[tactic(auto, unfolding(crate::specs::Reading::item_rest))]
fn named<'a, P: for<'b> Fn(&'b [Signed<'b>], u32) -> Answer<'b, Expr>>(
    alloc: Global,
    parts: &P,
    line: u32,
    pointer: bool,
    name: &Signed<'a>,
    tokens: &'a [Signed<'a>],
    depth: u32,
) -> Answer<'a, Item>
    requires small { depth ≤ 64 }
    requires parts { ReadsParts (P.pre parts.now) (P.post parts.now) }
    ensures gives { Gives (λ x. (x.0, x.1.now)) result (item_rest part_pick depth line (pointer, name.now) tokens.now) }
    ensures shorter { IfOk result (λ x. length x.1.now ≤ length tokens.now) }
{
    let (kind, rest) = item_kind(alloc, parts, tokens, depth)?;
    let name = Bytes::from_slice(alloc, name.text.bytes())?;
    Ok((
        Item {
            line,
            pointer,
            name,
            kind,
        },
        rest,
    ))
}

/// A local.
#[tactic(auto, using(crate::proofs::Splits::item_split))]
fn local<'a, P: for<'b> Fn(&'b [Signed<'b>], u32) -> Answer<'b, Expr>>(
    alloc: Global,
    parts: &P,
    tokens: &'a [Signed<'a>],
    depth: u32,
) -> Answer<'a, Item>
    requires small { depth ≤ 64 }
    requires parts { ReadsParts (P.pre parts.now) (P.post parts.now) }
    ensures gives { Gives (λ x. (x.0, x.1.now)) result (item_at part_pick depth tokens.now) }
    ensures shorter { IfOk result (λ x. length x.1.now < length tokens.now) }
{
    let (pointer, name, rest) = pointer_or_name(tokens)?;
    named(alloc, parts, first_line(tokens), pointer, name, rest, depth)
}

/// A local more.
fn add_local<'a, P: for<'b> Fn(&'b [Signed<'b>], u32) -> Answer<'b, Expr>>(
    alloc: Global,
    parts: &P,
    items: &mut Items<Item>,
    tokens: &'a [Signed<'a>],
    depth: u32,
) -> Result<&'a [Signed<'a>], ParseStop<'a>>
    requires small { depth ≤ 64 }
    requires parts { ReadsParts (P.pre parts.now) (P.post parts.now) }
    ensures gives { Gives (λ x. (items.new, x.now)) result (next (item_at part_pick depth) items.old tokens.now) }
    ensures shorter { IfOk result (λ x. length x.now < length tokens.now) }
{
    let (item, rest) = local(alloc, parts, tokens, depth)?;
    items.push(item)?;
    Ok(rest)
}

/// Locals with commas between them.
fn locals<'a, P: for<'b> Fn(&'b [Signed<'b>], u32) -> Answer<'b, Expr>>(
    alloc: Global,
    parts: &P,
    tokens: &'a [Signed<'a>],
    depth: u32,
) -> Answer<'a, Items<Item>>
    requires small { depth ≤ 64 }
    requires parts { ReadsParts (P.pre parts.now) (P.post parts.now) }
    ensures gives { Gives (λ x. (x.0, x.1.now)) result (commas (item_at part_pick depth) tokens.now) }
    ensures shorter { IfOk result (λ x. length x.1.now ≤ length tokens.now) }
{
    let mut items = Items::new(alloc);
    let mut rest = Rest::new(add_local(alloc, parts, &mut items, tokens, depth)?);
    while let Some(others) = after_comma(rest.tokens()) {
        match add_local(alloc, parts, &mut items, others, depth) {
            Err(stop) => return Err(stop),
            Ok(after) => rest = Rest::new(after),
        }
    }
    match rest.tokens() {
        [] => Err(ParseStop::Fault(Kind::Syntax, rest.tokens())),
        after => Ok((items, after)),
    }
}

/// A declaration after its base type.
#[tactic(auto, unfolding(crate::specs::Reading::decl_rest))]
fn of_base<'a, P: for<'b> Fn(&'b [Signed<'b>], u32) -> Answer<'b, Expr>>(
    alloc: Global,
    parts: &P,
    line: u32,
    base: Base,
    tokens: &'a [Signed<'a>],
    depth: u32,
) -> Answer<'a, Decl>
    requires small { depth ≤ 64 }
    requires parts { ReadsParts (P.pre parts.now) (P.post parts.now) }
    ensures gives { Gives (λ x. (x.0, x.1.now)) result (decl_rest part_pick depth line base tokens.now) }
    ensures shorter { IfOk result (λ x. length x.1.now < length tokens.now) }
{
    let (items, rest) = locals(alloc, parts, tokens, depth)?;
    let (_, rest) = expect(rest, Sign::Semicolon)?;
    Ok((Decl { line, base, items }, rest))
}

/// A declaration.
#[tactic(auto, using(crate::proofs::Splits::decl_split))]
fn declaration<'a, P: for<'b> Fn(&'b [Signed<'b>], u32) -> Answer<'b, Expr>>(
    alloc: Global,
    parts: &P,
    tokens: &'a [Signed<'a>],
    depth: u32,
) -> Answer<'a, Decl>
    requires small { depth ≤ 64 }
    requires parts { ReadsParts (P.pre parts.now) (P.post parts.now) }
    ensures gives { Gives (λ x. (x.0, x.1.now)) result (dispatch (decl_pick part_pick depth) tokens.now) }
    ensures shorter { IfOk result (λ x. length x.1.now < length tokens.now) }
{
    let (found, rest) = base(tokens)?;
    of_base(alloc, parts, first_line(tokens), found, rest, depth)
}

/// Whether no declaration stands first.
fn is_at_statement(tokens: &[Signed]) -> bool
    ensures { result ≡ is_over is_no_base tokens.now }
{
    match tokens {
        [] => false,
        [first, ..] => !matches!(first.sign, Sign::Int | Sign::CharWord | Sign::Const),
    }
}

/// A declaration more.
fn add_declaration<'a, P: for<'b> Fn(&'b [Signed<'b>], u32) -> Answer<'b, Expr>>(
    alloc: Global,
    parts: &P,
    items: &mut Items<Decl>,
    tokens: &'a [Signed<'a>],
    depth: u32,
) -> Result<&'a [Signed<'a>], ParseStop<'a>>
    requires small { depth ≤ 64 }
    requires parts { ReadsParts (P.pre parts.now) (P.post parts.now) }
    ensures gives { Gives (λ x. (items.new, x.now)) result (seq (dispatch (decl_pick part_pick depth)) (add items.old) tokens.now) }
    ensures shorter { IfOk result (λ x. length x.now < length tokens.now) }
{
    let (item, rest) = declaration(alloc, parts, tokens, depth)?;
    items.push(item)?;
    Ok(rest)
}

/// The declarations at a function's head.
fn declarations<'a, P: for<'b> Fn(&'b [Signed<'b>], u32) -> Answer<'b, Expr>>(
    alloc: Global,
    parts: &P,
    tokens: &'a [Signed<'a>],
    depth: u32,
) -> Answer<'a, Items<Decl>>
    requires small { depth ≤ 64 }
    requires parts { ReadsParts (P.pre parts.now) (P.post parts.now) }
    ensures gives { Gives (λ x. (x.0, x.1.now)) result (decls_at part_pick depth tokens.now) }
    ensures shorter { IfOk result (λ x. length x.1.now ≤ length tokens.now) }
{
    let mut items = Items::new(alloc);
    let mut rest = Rest::new(tokens);
    while !is_at_statement(rest.tokens()) {
        match add_declaration(alloc, parts, &mut items, rest.tokens(), depth) {
            Err(stop) => return Err(stop),
            Ok(after) => rest = Rest::new(after),
        }
    }
    Ok((items, rest.tokens()))
}

/// A function's body after its brace.
#[tactic(auto, unfolding(crate::specs::Reading::body_rest))]
pub(crate) fn body<'a, P: for<'b> Fn(&'b [Signed<'b>], u32) -> Answer<'b, Expr>>(
    alloc: Global,
    parts: &P,
    tokens: &'a [Signed<'a>],
    depth: u32,
) -> Answer<'a, Function>
    requires small { depth ≤ 64 }
    requires parts { ReadsParts (P.pre parts.now) (P.post parts.now) }
    ensures gives { Gives (λ x. (x.0, x.1.now)) result (body_rest part_pick depth tokens.now) }
    ensures shorter { IfOk result (λ x. length x.1.now ≤ length tokens.now) }
{
    let (decls, rest) = declarations(alloc, parts, tokens, depth)?;
    let (body, rest) = statements(alloc, parts, rest, depth, false)?;
    let (_, rest) = expect(rest, Sign::CloseBrace)?;
    let body = Shared::new(alloc, body)?;
    Ok((Function { decls, body }, rest))
}
