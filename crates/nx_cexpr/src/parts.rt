ghost use Rattle.std.specs.Prelude.{◌≡◌, ◌≤◌, IfOk};
ghost use Rattle.nx_ctree.specs.Expressions.{written as nodes_written};
ghost use Rattle.nx_ctree.specs.declared.expression.ExprKind.TheVariants as kind;
ghost use Rattle.nx_ctree.specs.declared.expression.PlaceKind.TheVariants as place;
ghost use Rattle.nx_cexpr.specs.declared.operand.Form.TheVariants as form;
ghost use Rattle.nx_cexpr.specs.Operands as operands;

use crate::operand::{Form, Lvalue, Operand, Tall, Target};
use nx_ctree::{AssignOperator, Expr, ExprKind, Place, PlaceKind, UnaryOperator};
use nx_shared::Shared;
use std::alloc::{AllocError, Global};

fn index_kind(alloc: Global, base: Expr, index: Expr) -> Result<ExprKind, AllocError>
    ensures { IfOk result (λ k. k ≡ kind.Index base index) }
{
    let base = Shared::new(alloc, base)?;
    let index = Shared::new(alloc, index)?;
    Ok(ExprKind::Index(base, index))
}

/// A unary operator before an expression (C11 section 6.5.3).
pub fn unary_kind(
    alloc: Global,
    operator: UnaryOperator,
    part: Expr,
) -> Result<ExprKind, AllocError>
    ensures { IfOk result (λ k. k ≡ kind.Unary operator part) }
{
    let part = Shared::new(alloc, part)?;
    Ok(ExprKind::Unary(operator, part))
}

fn target_kind(alloc: Global, target: Target) -> Result<ExprKind, AllocError>
    ensures { IfOk result (λ k. k ≡ operands.target_kind target) }
{
    match target {
        Target::Name(name) => Ok(ExprKind::Name(name)),
        Target::Index(base, index) => index_kind(alloc, base, index),
        Target::Deref(pointer) => unary_kind(alloc, UnaryOperator::Deref, pointer),
    }
}

fn form_kind(alloc: Global, form: Form) -> Result<ExprKind, AllocError>
    ensures { IfOk result (λ k. k ≡ operands.form_kind form) }
{
    match form {
        Form::Target(target) => target_kind(alloc, target),
        Form::Value(kind) => Ok(kind),
    }
}

/// An operand's tree.
pub fn expr_of(alloc: Global, operand: Operand) -> Result<Expr, AllocError>
    ensures { IfOk result (λ a. a ≡ operands.expr_of operand) }
{
    let line = operand.line;
    let kind = form_kind(alloc, operand.form)?;
    Ok(Expr { line, kind })
}

/// An operand's tree as a part of another.
pub fn shared(alloc: Global, operand: Operand) -> Result<Shared<Expr>, AllocError>
    ensures { IfOk result (λ a. a ≡ operands.expr_of operand) }
{
    let expr = expr_of(alloc, operand)?;
    Shared::new(alloc, expr)
}

/// Two operands' trees as parts of another.
pub fn shared_both(
    alloc: Global,
    first: Operand,
    second: Operand,
) -> Result<(Shared<Expr>, Shared<Expr>), AllocError>
    ensures { IfOk result (λ x. (x.0 ≡ operands.expr_of first) × (x.1 ≡ operands.expr_of second)) }
{
    let first = shared(alloc, first)?;
    let second = shared(alloc, second)?;
    Ok((first, second))
}

/// An operand's tree, and the nodes on its longest path.
pub fn tall(alloc: Global, operand: Operand) -> Result<Tall, AllocError>
    ensures { IfOk result (λ x. x ≡ operands.tall operand) }
{
    let height = operand.height;
    let expr = expr_of(alloc, operand)?;
    Ok(Tall { expr, height })
}

fn index_place(alloc: Global, base: Expr, index: Expr) -> Result<PlaceKind, AllocError>
    ensures { IfOk result (λ k. k ≡ place.Index base index) }
{
    let base = Shared::new(alloc, base)?;
    let index = Shared::new(alloc, index)?;
    Ok(PlaceKind::Index(base, index))
}

fn deref_place(alloc: Global, pointer: Expr) -> Result<PlaceKind, AllocError>
    ensures { IfOk result (λ k. k ≡ place.Deref pointer) }
{
    let pointer = Shared::new(alloc, pointer)?;
    Ok(PlaceKind::Deref(pointer))
}

fn place_kind(alloc: Global, target: Target) -> Result<PlaceKind, AllocError>
    ensures { IfOk result (λ k. k ≡ operands.place_kind target) }
{
    match target {
        Target::Name(name) => Ok(PlaceKind::Name(name)),
        Target::Index(base, index) => index_place(alloc, base, index),
        Target::Deref(pointer) => deref_place(alloc, pointer),
    }
}

fn place_of(alloc: Global, lvalue: Lvalue) -> Result<Place, AllocError>
    ensures { IfOk result (λ p. p ≡ operands.place_of lvalue) }
{
    let line = lvalue.line;
    let kind = place_kind(alloc, lvalue.target)?;
    Ok(Place { line, kind })
}

/// What is written to as a part of a tree.
pub fn shared_place(alloc: Global, lvalue: Lvalue) -> Result<Shared<Place>, AllocError>
    ensures { IfOk result (λ p. p ≡ operands.place_of lvalue) }
{
    let place = place_of(alloc, lvalue)?;
    Shared::new(alloc, place)
}

fn lvalue_by(line: u32, form: Form, height: u32) -> Option<Lvalue>
    ensures { result ≡ operands.lvalue_by line form height }
{
    match form {
        Form::Target(target) => Some(Lvalue {
            line,
            target,
            height,
        }),
        Form::Value(_) => None,
    }
}

/// The operand as something to write to, if it is.
pub fn lvalue_of(operand: Operand) -> Option<Lvalue>
    ensures { result ≡ operands.lvalue_of operand }
{
    lvalue_by(operand.line, operand.form, operand.height)
}

fn post_target(line: u32, target: Target, height: u32) -> Option<Lvalue>
    ensures { result ≡ operands.post_lvalue_by line (form.Target target) height }
{
    match target {
        Target::Name(name) => Some(Lvalue {
            line,
            target: Target::Name(name),
            height,
        }),
        Target::Index(base, index) => Some(Lvalue {
            line,
            target: Target::Index(base, index),
            height,
        }),
        Target::Deref(_) => None,
    }
}

fn post_by(line: u32, form: Form, height: u32) -> Option<Lvalue>
    ensures { result ≡ operands.post_lvalue_by line form height }
{
    match form {
        Form::Target(target) => post_target(line, target, height),
        Form::Value(_) => None,
    }
}

/// The operand as something that `++` or `--` may stand after, if it is.
pub fn post_lvalue(operand: Operand) -> Option<Lvalue>
    ensures { result ≡ operands.post_lvalue operand }
{
    post_by(operand.line, operand.form, operand.height)
}

/// How many nodes what is written to has: a name that is only written has none.
pub fn written(operator: AssignOperator, target: &Target, height: u32) -> u32
    ensures gives { result ≡ nodes_written operator (operands.place_kind target.now) height }
    ensures within { result ≤ height }
{
    match operator {
        AssignOperator::Set => match target {
            Target::Name(_) => 0,
            Target::Index(_, _) => height,
            Target::Deref(_) => height,
        },
        AssignOperator::Add
        | AssignOperator::Subtract
        | AssignOperator::Multiply
        | AssignOperator::Divide
        | AssignOperator::Remainder => height,
    }
}
