ghost use Rattle.std.specs.Prelude.{◌≡◌, ◌≤◌, IfOk, OnOk, suc, max};
ghost use Rattle.nx_ctree.specs.declared.expression.ExprKind.TheVariants as kind;
ghost use Rattle.nx_cexpr.specs.declared.operand.Form.TheVariants as form;
ghost use Rattle.nx_cexpr.specs.Operands as operands;

use crate::operand::{Arguments, Element, Form, Lvalue, Operand, Target};
use crate::parts::{expr_of, shared, shared_both, shared_place, unary_kind, written};
use nx_base::Bytes;
use nx_ctree::{
    AssignOperator, Base, BinaryOperator, Expr, ExprKind, Signed, StepOperator, UnaryOperator,
};
use nx_shared::Shared;
use sqlite_items::Items;
use std::alloc::{AllocError, Global};
use std::mem;

fn value(line: u32, kind: ExprKind, height: u32) -> Operand
    ensures { result ≡ operands.value line kind height }
{
    Operand {
        line,
        form: Form::Value(kind),
        height,
    }
}

/// A number as an operand (C11 section 6.4.4.1).
pub fn number(token: &Signed<'_>) -> Operand
    ensures { result ≡ operands.number token.now }
{
    value(token.line, ExprKind::Number(token.text.number()), 1)
}

/// A character constant as an operand (C11 section 6.4.4.4).
pub fn character(token: &Signed<'_>) -> Operand
    ensures { result ≡ operands.character token.now }
{
    value(token.line, ExprKind::Char(token.text.character()), 1)
}

/// A string literal as an operand (C11 section 6.4.5).
pub fn text(alloc: Global, token: &Signed<'_>) -> Result<Operand, AllocError>
    ensures { IfOk result (λ x. x ≡ operands.text token.now) }
{
    let bytes = token.text.text(alloc)?;
    Ok(value(token.line, ExprKind::Text(bytes), 1))
}

/// A name as an operand, which can be written to (C11 section 6.5.1).
pub fn name(alloc: Global, token: &Signed<'_>) -> Result<Operand, AllocError>
    ensures { IfOk result (λ x. x ≡ operands.name token.now) }
{
    let name = Bytes::from_slice(alloc, token.text.bytes())?;
    Ok(Operand {
        line: token.line,
        form: Form::Target(Target::Name(name)),
        height: 1,
    })
}

/// A name as what is written to.
pub fn name_lvalue(alloc: Global, token: &Signed<'_>) -> Result<Lvalue, AllocError>
    ensures { IfOk result (λ x. x ≡ operands.name_lvalue token.now) }
{
    let name = Bytes::from_slice(alloc, token.text.bytes())?;
    Ok(Lvalue {
        line: token.line,
        target: Target::Name(name),
        height: 1,
    })
}

/// An expression in parentheses, one node more than what is in them (C11 section 6.5.1).
pub fn paren(alloc: Global, token: &Signed<'_>, inner: Operand) -> Result<Operand, AllocError>
    requires { inner.height ≤ 64 }
    ensures { IfOk result (λ x. x ≡ operands.paren token.now inner) }
{
    let height = inner.height + 1;
    let inner = shared(alloc, inner)?;
    Ok(value(token.line, ExprKind::Paren(inner), height))
}

/// The arguments of a call without any.
pub fn no_arguments(alloc: Global) -> Arguments
    ensures { result ≡ operands.no_arguments }
{
    Arguments {
        list: Items::new(alloc),
        height: 0,
    }
}

/// The arguments of a call with one.
pub fn first_argument(alloc: Global, argument: Operand) -> Result<Arguments, AllocError>
    ensures { IfOk result (λ x. x ≡ operands.first_argument argument) }
{
    let height = argument.height;
    let mut list = Items::new(alloc);
    list.push(expr_of(alloc, argument)?)?;
    Ok(Arguments { list, height })
}

/// One argument more, behind those that were read.
pub fn next_argument(
    alloc: Global,
    arguments: &mut Arguments,
    argument: Operand,
) -> Result<(), AllocError>
    ensures { OnOk result (arguments.new ≡ operands.next_argument arguments.old argument) }
{
    let height = arguments.height.max(argument.height);
    let expr = expr_of(alloc, argument)?;
    arguments.list.push(expr)?;
    arguments.height = height;
    Ok(())
}

/// A call of the function that the token names (C11 section 6.5.2.2).
pub fn call(alloc: Global, token: &Signed<'_>, arguments: Arguments) -> Result<Operand, AllocError>
    requires { arguments.height ≤ 64 }
    ensures { IfOk result (λ x. x ≡ operands.call token.now arguments) }
{
    let height = arguments.height + 1;
    let name = Bytes::from_slice(alloc, token.text.bytes())?;
    Ok(value(token.line, ExprKind::Call(name, arguments.list), height))
}

/// An index into an array or pointer (C11 section 6.5.2.1).
pub fn element(alloc: Global, base: Operand, index: Operand) -> Result<Element, AllocError>
    requires base { base.height ≤ 64 }
    requires index { index.height ≤ 64 }
    ensures { IfOk result (λ x. x ≡ operands.element base index) }
{
    let line = base.line;
    let height = above(base.height, index.height);
    let base = expr_of(alloc, base)?;
    let index = expr_of(alloc, index)?;
    Ok(Element {
        line,
        base,
        index,
        height,
    })
}

/// The nodes on the longest path through a node above two parts.
fn above(left: u32, right: u32) -> u32
    requires left { left ≤ 65 }
    requires right { right ≤ 65 }
    ensures { result ≡ suc (max left right) }
{
    left.max(right) + 1
}

/// A tree that stands where one was taken out.
fn nothing() -> Expr {
    Expr {
        line: 0,
        kind: ExprKind::Number(0),
    }
}

/// What was read so far, taken out to be put into something larger.
pub fn take_element(read: &mut Element) -> Element
    ensures { result ≡ read.old }
{
    mem::replace(
        read,
        Element {
            line: 0,
            base: nothing(),
            index: nothing(),
            height: 0,
        },
    )
}

/// What was read so far, taken out to be put into something larger.
pub fn take_operand(read: &mut Operand) -> Operand
    ensures { result ≡ read.old }
{
    mem::replace(read, value(0, ExprKind::Number(0), 0))
}

/// An index as an operand, which can be written to.
pub fn element_operand(element: Element) -> Operand
    ensures { result ≡ operands.element_operand element }
{
    Operand {
        line: element.line,
        form: Form::Target(Target::Index(element.base, element.index)),
        height: element.height,
    }
}

/// An index as what is written to.
pub fn element_lvalue(element: Element) -> Lvalue
    ensures { result ≡ operands.element_lvalue element }
{
    Lvalue {
        line: element.line,
        target: Target::Index(element.base, element.index),
        height: element.height,
    }
}

fn unary_value(alloc: Global, operator: UnaryOperator, part: Expr) -> Result<Form, AllocError>
    ensures { IfOk result (λ x. x ≡ form.Value (kind.Unary operator part)) }
{
    Ok(Form::Value(unary_kind(alloc, operator, part)?))
}

fn unary_form(alloc: Global, operator: UnaryOperator, part: Expr) -> Result<Form, AllocError>
    ensures { IfOk result (λ x. x ≡ operands.unary_form operator part) }
{
    match operator {
        UnaryOperator::Deref => Ok(Form::Target(Target::Deref(part))),
        UnaryOperator::Minus => unary_value(alloc, UnaryOperator::Minus, part),
        UnaryOperator::Not => unary_value(alloc, UnaryOperator::Not, part),
        UnaryOperator::Complement => unary_value(alloc, UnaryOperator::Complement, part),
    }
}

/// An operator before an operand (C11 section 6.5.3.3); after `*` it can be written to.
pub fn unary_operand(
    alloc: Global,
    token: &Signed<'_>,
    operator: UnaryOperator,
    part: Operand,
) -> Result<Operand, AllocError>
    requires { part.height ≤ 64 }
    ensures { IfOk result (λ x. x ≡ operands.unary_operand token.now operator part) }
{
    let line = token.line;
    let height = part.height + 1;
    let part = expr_of(alloc, part)?;
    let form = unary_form(alloc, operator, part)?;
    Ok(Operand { line, form, height })
}

/// What a pointer leads to, as what is written to (C11 section 6.5.3.2).
pub fn deref_lvalue(alloc: Global, token: &Signed<'_>, part: Operand) -> Result<Lvalue, AllocError>
    requires { part.height ≤ 64 }
    ensures { IfOk result (λ x. x ≡ operands.deref_lvalue token.now part) }
{
    let line = token.line;
    let height = part.height + 1;
    let target = Target::Deref(expr_of(alloc, part)?);
    Ok(Lvalue {
        line,
        target,
        height,
    })
}

/// The address of an element (C11 section 6.5.3.2).
pub fn address(alloc: Global, token: &Signed<'_>, element: Element) -> Result<Operand, AllocError>
    ensures { IfOk result (λ x. x ≡ operands.address token.now element) }
{
    let height = element.height;
    let base = Shared::new(alloc, element.base)?;
    let index = Shared::new(alloc, element.index)?;
    Ok(value(token.line, ExprKind::AddressOf(base, index), height))
}

/// `++` or `--` before what is written to (C11 section 6.5.3.1).
pub fn before(
    alloc: Global,
    token: &Signed<'_>,
    operator: StepOperator,
    lvalue: Lvalue,
) -> Result<Operand, AllocError>
    requires { lvalue.height ≤ 64 }
    ensures { IfOk result (λ x. x ≡ operands.before token.now operator lvalue) }
{
    let height = lvalue.height + 1;
    let place = shared_place(alloc, lvalue)?;
    Ok(value(token.line, ExprKind::Before(operator, place), height))
}

/// `++` or `--` after what is written to (C11 section 6.5.2.4).
pub fn after(alloc: Global, operator: StepOperator, lvalue: Lvalue) -> Result<Operand, AllocError>
    requires { lvalue.height ≤ 64 }
    ensures { IfOk result (λ x. x ≡ operands.after operator lvalue) }
{
    let line = lvalue.line;
    let height = lvalue.height + 1;
    let place = shared_place(alloc, lvalue)?;
    Ok(value(line, ExprKind::After(operator, place), height))
}

/// A cast, to a pointer where a `*` stood (C11 section 6.5.4).
pub fn cast(
    alloc: Global,
    token: &Signed<'_>,
    base: Base,
    pointer: bool,
    part: Operand,
) -> Result<Operand, AllocError>
    requires { part.height ≤ 64 }
    ensures { IfOk result (λ x. x ≡ operands.cast token.now base pointer part) }
{
    let height = part.height + 1;
    let part = shared(alloc, part)?;
    Ok(value(token.line, ExprKind::Cast(base, pointer, part), height))
}

/// `sizeof` of a name (C11 section 6.5.3.4).
pub fn size_of_name(
    alloc: Global,
    token: &Signed<'_>,
    named: &Signed<'_>,
) -> Result<Operand, AllocError>
    ensures { IfOk result (λ x. x ≡ operands.size_of_name token.now named.now) }
{
    let name = Bytes::from_slice(alloc, named.text.bytes())?;
    Ok(value(token.line, ExprKind::SizeOfName(name), 1))
}

/// `sizeof` of a type (C11 section 6.5.3.4).
pub fn size_of_type(token: &Signed<'_>, base: Base) -> Operand
    ensures { result ≡ operands.size_of_type token.now base }
{
    value(token.line, ExprKind::SizeOfType(base), 1)
}

/// An operator between two operands (C11 sections 6.5.5 to 6.5.14).
pub fn binary(
    alloc: Global,
    operator: BinaryOperator,
    left: Operand,
    right: Operand,
) -> Result<Operand, AllocError>
    requires left { left.height ≤ 64 }
    requires right { right.height ≤ 64 }
    ensures { IfOk result (λ x. x ≡ operands.binary operator left right) }
{
    let line = left.line;
    let height = above(left.height, right.height);
    let (left, right) = shared_both(alloc, left, right)?;
    Ok(value(line, ExprKind::Binary(operator, left, right), height))
}

fn conditional_kind(
    alloc: Global,
    test: Operand,
    then: Operand,
    otherwise: Operand,
) -> Result<ExprKind, AllocError>
    ensures { IfOk result (λ k. k ≡ kind.Conditional (operands.expr_of test) (operands.expr_of then) (operands.expr_of otherwise)) }
{
    let (test, then) = shared_both(alloc, test, then)?;
    let otherwise = shared(alloc, otherwise)?;
    Ok(ExprKind::Conditional(test, then, otherwise))
}

/// A condition and the two expressions that it chooses from (C11 section 6.5.15).
pub fn conditional(
    alloc: Global,
    test: Operand,
    then: Operand,
    otherwise: Operand,
) -> Result<Operand, AllocError>
    requires test { test.height ≤ 64 }
    requires then { then.height ≤ 64 }
    requires otherwise { otherwise.height ≤ 64 }
    ensures { IfOk result (λ x. x ≡ operands.conditional test then otherwise) }
{
    let line = test.line;
    let height = above(test.height, then.height.max(otherwise.height));
    let kind = conditional_kind(alloc, test, then, otherwise)?;
    Ok(value(line, kind, height))
}

/// An assignment to what is written to (C11 section 6.5.16).
pub fn assign(
    alloc: Global,
    operator: AssignOperator,
    lvalue: Lvalue,
    right: Operand,
) -> Result<Operand, AllocError>
    requires lvalue { lvalue.height ≤ 65 }
    requires right { right.height ≤ 64 }
    ensures { IfOk result (λ x. x ≡ operands.assign operator lvalue right) }
{
    let line = lvalue.line;
    let height = above(
        written(operator, &lvalue.target, lvalue.height),
        right.height,
    );
    let place = shared_place(alloc, lvalue)?;
    let right = shared(alloc, right)?;
    Ok(value(line, ExprKind::Assign(operator, place, right), height))
}
