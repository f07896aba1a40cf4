ghost use Rattle.std.specs.Prelude.{◌≡◌, ◌<◌, ◌≤◌, ◌∷◌, [], length, IfOk};
ghost use Rattle.nx_grammar.specs.Reading.{dispatch, seq, loop};
ghost use Rattle.nx_ctree.specs.declared.sign.Sign.TheVariants.{End};
ghost use Rattle.nx_ctree.specs.Programs.{type_word as word_of};
ghost use Rattle.nx_cexpr.specs.Answers.{Gives};
ghost use Rattle.nx_cexpr.specs.Signs.{is_sign};
ghost use Rattle.nx_cstmt.specs.Answers.{ReadsParts};
ghost use Rattle.nx_cstmt.specs.Lists.{add, is_over, more_pick};
ghost use Rattle.nx_cstmt.specs.Reading.{part_pick};
ghost use Rattle.nx_cparse.specs.Reading.{valued_rest, definition_rest, function_at, function_rest, rest_at, external_rest, word_by, static_rest, external_pick, unit_at};

use crate::arrays::array;
use crate::constant::constant;
use crate::declaration::body;
use crate::parameter::params;
use nx_base::Bytes;
use nx_cexpr::{ParseStop, Rest as Remaining, expect};
use nx_cstmt::inner::Answer;
use nx_ctree::{Expr, External, Params, Rest, Sign, Signed, TypeWord, Unit};
use nx_grammar::Kind;
use sqlite_items::Items;
use std::alloc::Global;

/// A variable's value.
#[tactic(auto, unfolding(crate::specs::Reading::valued_rest))]
fn valued<'a>(tokens: &'a [Signed<'a>]) -> Answer<'a, Rest>
    ensures gives { Gives (λ x. (x.0, x.1.now)) result (valued_rest tokens.now) }
    ensures shorter { IfOk result (λ x. length x.1.now ≤ length tokens.now) }
{
    let (value, rest) = constant(tokens)?;
    let (_, rest) = expect(rest, Sign::Semicolon)?;
    Ok((Rest::Valued(value), rest))
}

/// A function's definition after its brace.
#[tactic(auto, unfolding(crate::specs::Reading::definition_rest))]
fn definition<'a, P: for<'b> Fn(&'b [Signed<'b>], u32) -> Answer<'b, Expr>>(
    alloc: Global,
    parts: &P,
    params: Params,
    tokens: &'a [Signed<'a>],
    depth: u32,
) -> Answer<'a, Rest>
    requires small { depth ≤ 64 }
    requires parts { ReadsParts (P.pre parts.now) (P.post parts.now) }
    ensures gives { Gives (λ x. (x.0, x.1.now)) result (definition_rest part_pick depth params tokens.now) }
    ensures shorter { IfOk result (λ x. length x.1.now ≤ length tokens.now) }
{
    let (function, rest) = body(alloc, parts, tokens, depth)?;
    Ok((Rest::Function(params, function), rest))
}

/// After a function's parentheses.
fn after_params<'a, P: for<'b> Fn(&'b [Signed<'b>], u32) -> Answer<'b, Expr>>(
    alloc: Global,
    parts: &P,
    params: Params,
    tokens: &'a [Signed<'a>],
    depth: u32,
) -> Answer<'a, Rest>
    requires small { depth ≤ 64 }
    requires parts { ReadsParts (P.pre parts.now) (P.post parts.now) }
    ensures gives { Gives (λ x. (x.0, x.1.now)) result (function_at part_pick depth params tokens.now) }
    ensures shorter { IfOk result (λ x. length x.1.now ≤ length tokens.now) }
{
    match tokens {
        [] => Err(ParseStop::Fault(Kind::Syntax, tokens)),
        [first, rest @ ..] => match first.sign {
            Sign::Semicolon => Ok((Rest::Prototype(params), rest)),
            Sign::OpenBrace => definition(alloc, parts, params, rest, depth),
            _ => Err(ParseStop::Fault(Kind::Syntax, tokens)),
        },
    }
}

/// A function after its opening parenthesis.
#[tactic(auto, unfolding(crate::specs::Reading::function_rest))]
fn function<'a, P: for<'b> Fn(&'b [Signed<'b>], u32) -> Answer<'b, Expr>>(
    alloc: Global,
    parts: &P,
    tokens: &'a [Signed<'a>],
    depth: u32,
) -> Answer<'a, Rest>
    requires small { depth ≤ 64 }
    requires parts { ReadsParts (P.pre parts.now) (P.post parts.now) }
    ensures gives { Gives (λ x. (x.0, x.1.now)) result (function_rest part_pick depth tokens.now) }
    ensures shorter { IfOk result (λ x. length x.1.now ≤ length tokens.now) }
{
    let (params, rest) = params(alloc, tokens)?;
    let (_, rest) = expect(rest, Sign::CloseParen)?;
    after_params(alloc, parts, params, rest, depth)
}

/// What stands after a name at file level.
fn after_name<'a, P: for<'b> Fn(&'b [Signed<'b>], u32) -> Answer<'b, Expr>>(
    alloc: Global,
    parts: &P,
    tokens: &'a [Signed<'a>],
    depth: u32,
) -> Answer<'a, Rest>
    requires small { depth ≤ 64 }
    requires parts { ReadsParts (P.pre parts.now) (P.post parts.now) }
    ensures gives { Gives (λ x. (x.0, x.1.now)) result (rest_at part_pick depth tokens.now) }
    ensures shorter { IfOk result (λ x. length x.1.now ≤ length tokens.now) }
{
    match tokens {
        [] => Err(ParseStop::Fault(Kind::Syntax, tokens)),
        [first, rest @ ..] => match first.sign {
            Sign::Semicolon => Ok((Rest::Plain, rest)),
            Sign::Set => valued(rest),
            Sign::OpenBracket => array(alloc, rest),
            Sign::OpenParen => function(alloc, parts, rest, depth),
            _ => Err(ParseStop::Fault(Kind::Syntax, tokens)),
        },
    }
}

/// A declaration or definition after its type word.
#[tactic(auto, unfolding(crate::specs::Reading::external_rest))]
fn named<'a, P: for<'b> Fn(&'b [Signed<'b>], u32) -> Answer<'b, Expr>>(
    alloc: Global,
    parts: &P,
    line: u32,
    internal: bool,
    result_word: TypeWord,
    tokens: &'a [Signed<'a>],
    depth: u32,
) -> Answer<'a, External>
    requires small { depth ≤ 64 }
    requires parts { ReadsParts (P.pre parts.now) (P.post parts.now) }
    ensures gives { Gives (λ x. (x.0, x.1.now)) result (external_rest part_pick depth line internal result_word tokens.now) }
    ensures shorter { IfOk result (λ x. length x.1.now ≤ length tokens.now) }
{
    let (name, rest) = expect(tokens, Sign::Name)?;
    let (form, rest) = after_name(alloc, parts, rest, depth)?;
    let name = Bytes::from_slice(alloc, name.text.bytes())?;
    Ok((
        External {
            line,
            internal,
            result: result_word,
            name,
            rest: form,
        },
        rest,
    ))
}

fn type_word(sign: Sign) -> Option<TypeWord>
    ensures { result ≡ word_of sign }
{
    match sign {
        Sign::Int => Some(TypeWord::Int),
        Sign::CharWord => Some(TypeWord::Char),
        Sign::Void => Some(TypeWord::Void),
        _ => None,
    }
}

/// What begins with a type word.
fn worded<'a, P: for<'b> Fn(&'b [Signed<'b>], u32) -> Answer<'b, Expr>>(
    alloc: Global,
    parts: &P,
    line: u32,
    internal: bool,
    tokens: &'a [Signed<'a>],
    depth: u32,
) -> Answer<'a, External>
    requires small { depth ≤ 64 }
    requires parts { ReadsParts (P.pre parts.now) (P.post parts.now) }
    ensures gives { Gives (λ x. (x.0, x.1.now)) result (dispatch (λ t. word_by part_pick depth line internal (word_of t.sign)) tokens.now) }
    ensures shorter { IfOk result (λ x. length x.1.now < length tokens.now) }
{
    match tokens {
        [] => Err(ParseStop::Fault(Kind::Syntax, tokens)),
        [first, rest @ ..] => match type_word(first.sign) {
            Some(word) => named(alloc, parts, line, internal, word, rest, depth),
            None => Err(ParseStop::Fault(Kind::Syntax, tokens)),
        },
    }
}

/// A declaration or definition at file level.
#[tactic(auto, unfolding(crate::specs::Reading::static_rest))]
fn external<'a, P: for<'b> Fn(&'b [Signed<'b>], u32) -> Answer<'b, Expr>>(
    alloc: Global,
    parts: &P,
    tokens: &'a [Signed<'a>],
    depth: u32,
) -> Answer<'a, External>
    requires small { depth ≤ 64 }
    requires parts { ReadsParts (P.pre parts.now) (P.post parts.now) }
    ensures gives { Gives (λ x. (x.0, x.1.now)) result (dispatch (external_pick part_pick depth) tokens.now) }
    ensures shorter { IfOk result (λ x. length x.1.now < length tokens.now) }
{
    match tokens {
        [] => Err(ParseStop::Fault(Kind::Syntax, tokens)),
        [first, rest @ ..] if first.sign == Sign::Static => {
            worded(alloc, parts, first.line, true, rest, depth)
        }
        [first, ..] => worded(alloc, parts, first.line, false, tokens, depth),
    }
}

/// One more of them.
fn add_external<'a, P: for<'b> Fn(&'b [Signed<'b>], u32) -> Answer<'b, Expr>>(
    alloc: Global,
    parts: &P,
    items: &mut Items<External>,
    tokens: &'a [Signed<'a>],
    depth: u32,
) -> Result<&'a [Signed<'a>], ParseStop<'a>>
    requires small { depth ≤ 64 }
    requires parts { ReadsParts (P.pre parts.now) (P.post parts.now) }
    ensures gives { Gives (λ x. (items.new, x.now)) result (seq (dispatch (external_pick part_pick depth)) (add items.old) tokens.now) }
    ensures shorter { IfOk result (λ x. length x.now < length tokens.now) }
{
    let (item, rest) = external(alloc, parts, tokens, depth)?;
    items.push(item)?;
    Ok(rest)
}

fn is_at_end(tokens: &[Signed]) -> bool
    ensures { result ≡ is_over (is_sign End) tokens.now }
{
    match tokens {
        [] => false,
        [first, ..] => first.sign == Sign::End,
    }
}

/// The declarations and definitions of a file.
fn externals<'a, P: for<'b> Fn(&'b [Signed<'b>], u32) -> Answer<'b, Expr>>(
    alloc: Global,
    parts: &P,
    tokens: &'a [Signed<'a>],
    depth: u32,
) -> Answer<'a, Items<External>>
    requires small { depth ≤ 64 }
    requires parts { ReadsParts (P.pre parts.now) (P.post parts.now) }
    ensures gives { Gives (λ x. (x.0, x.1.now)) result (loop (more_pick (is_sign End) (external_pick part_pick depth)) [] tokens.now) }
    ensures shorter { IfOk result (λ x. length x.1.now ≤ length tokens.now) }
{
    let mut items = Items::new(alloc);
    let mut rest = Remaining::new(tokens);
    while !is_at_end(rest.tokens()) {
        match add_external(alloc, parts, &mut items, rest.tokens(), depth) {
            Err(stop) => return Err(stop),
            Ok(after) => rest = Remaining::new(after),
        }
    }
    Ok((items, rest.tokens()))
}

/// A file up to its end.
#[tactic(auto, unfolding(crate::specs::Reading::unit_at))]
pub(crate) fn unit<'a, P: for<'b> Fn(&'b [Signed<'b>], u32) -> Answer<'b, Expr>>(
    alloc: Global,
    parts: &P,
    tokens: &'a [Signed<'a>],
    depth: u32,
) -> Answer<'a, Unit>
    requires small { depth ≤ 64 }
    requires parts { ReadsParts (P.pre parts.now) (P.post parts.now) }
    ensures { Gives (λ x. (x.0, x.1.now)) result (unit_at part_pick depth tokens.now) }
{
    let (externals, rest) = externals(alloc, parts, tokens, depth)?;
    Ok((Unit { externals }, rest))
}
