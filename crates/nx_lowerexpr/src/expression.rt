// The code of expressions, from its end.

ghost use Rattle.std.specs.Prelude.{◌≡◌, ◌+◌, ◌<◌, ◌^◌, ◌∷◌, [], ◌++◌, drop, option_map, IfOk, OnOk};
ghost use Rattle.nx_checked.specs.Trees.{count, expr_of, place_of, args_of};
ghost use Rattle.nx_lower.specs.Code.{expr_code, loaded_code, place_code, fetched_code, args_code, right_code};
ghost use Rattle.nx_lower.specs.Bodies.{option_code};
ghost use Rattle.nx_lowerexpr.specs.Sources.{source_of};

use crate::code::Code;
use crate::operations::{
    binary, by_one, cut, prefix, put_conversion, put_kept, put_negate, put_raise, put_step, right,
    stepping, truth, width,
};
use crate::variables::{call_at, put_arguments, put_array, put_read, put_write, text_static};
use nx_checked::{Checked, CheckedExpr, CheckedPlace, Element, StepValue};
use nx_shared::Shared;
use nx_slot::{Comparison, Operand, SlotOp, Unary};
use std::alloc::AllocError;

// How many cells there are before a value and after it. No more values wait than memory can hold.
fn check_depth(n: usize, d: usize) -> Result<(), AllocError>
    ensures cells { OnOk result (n < 2 ^ 32) }
    ensures depth { OnOk result (d < 2 ^ 32) }
{
    if n > 0xffffffff || d > 0xffffffff {
        return Err(AllocError);
    }
    Ok(())
}

/// Puts the code of an expression over n cells, where d values wait, before other code.
#[cycle(put)]
pub fn put_expr(
    code: &mut Code,
    program: &Checked,
    n: usize,
    d: usize,
    e: &CheckedExpr,
) -> Result<(), AllocError>
    ensures { OnOk result (code.new ≡ expr_code (source_of program.now) n d (expr_of e.now) ++ code.old) }
{
    check_depth(n, d)?;
    let to = n + d;
    let next = n + (d + 1);
    match e {
        CheckedExpr::Constant(c) => code.put(SlotOp::Move {
            to,
            from: Operand::Number(*c),
        }),
        CheckedExpr::Literal(i) => {
            let object = text_static(program, *i)?;
            code.put(SlotOp::Static { to, object })
        }
        CheckedExpr::Function(f) => code.put(SlotOp::Entry {
            to,
            function: *f as usize,
        }),
        CheckedExpr::Read(x) => put_read(code, program, *x, to),
        CheckedExpr::Array(a) => put_array(code, program, *a, to),
        CheckedExpr::Load(w, p) => put_loaded(code, program, n, d, *w, p.get()),
        CheckedExpr::AddressOf(w, a, i) => {
            code.put(SlotOp::Index {
                to,
                base: to,
                index: right(i.get(), next),
                width: width(*w),
            })?;
            put_right(code, program, n, d + 1, i.get())?;
            put_expr(code, program, n, d, a.get())
        }
        CheckedExpr::Unary(op, a) => {
            code.put(prefix(*op, to))?;
            put_expr(code, program, n, d, a.get())
        }
        CheckedExpr::Binary(op, a, b) => {
            code.put(SlotOp::Apply {
                op: binary(*op),
                to,
                left: to,
                right: right(b.get(), next),
            })?;
            put_right(code, program, n, d + 1, b.get())?;
            put_expr(code, program, n, d, a.get())
        }
        CheckedExpr::And(a, b) => {
            code.put(truth(to))?;
            let end = code.len();
            put_expr(code, program, n, d, b.get())?;
            code.put(SlotOp::SkipUnless {
                test: Comparison::Unequal,
                left: to,
                right: Operand::Number(0),
                past: code.len() - end,
            })?;
            put_expr(code, program, n, d, a.get())
        }
        CheckedExpr::Or(a, b) => {
            code.put(truth(to))?;
            let end = code.len();
            put_expr(code, program, n, d, b.get())?;
            code.put(SlotOp::SkipUnless {
                test: Comparison::Equal,
                left: to,
                right: Operand::Number(0),
                past: code.len() - end,
            })?;
            put_expr(code, program, n, d, a.get())
        }
        CheckedExpr::Conditional(c, a, b) => {
            let end = code.len();
            put_expr(code, program, n, d, b.get())?;
            let between = code.len();
            code.put(SlotOp::Skip {
                past: between - end,
            })?;
            put_expr(code, program, n, d, a.get())?;
            code.put(SlotOp::SkipUnless {
                test: Comparison::Unequal,
                left: to,
                right: Operand::Number(0),
                past: code.len() - between,
            })?;
            put_expr(code, program, n, d, c.get())
        }
        CheckedExpr::Convert(kind, a) => {
            put_conversion(code, *kind, to)?;
            put_expr(code, program, n, d, a.get())
        }
        CheckedExpr::Advance(w, a, i) => {
            code.put(SlotOp::Index {
                to,
                base: to,
                index: right(i.get(), next),
                width: width(*w),
            })?;
            put_right(code, program, n, d + 1, i.get())?;
            put_expr(code, program, n, d, a.get())
        }
        CheckedExpr::AdvanceBy(w, i, a) => {
            code.put(SlotOp::Index {
                to,
                base: next,
                index: Operand::Cell(to),
                width: width(*w),
            })?;
            put_expr(code, program, n, d + 1, a.get())?;
            put_expr(code, program, n, d, i.get())
        }
        CheckedExpr::Retreat(w, a, i) => {
            code.put(SlotOp::Index {
                to,
                base: to,
                index: Operand::Cell(next),
                width: width(*w),
            })?;
            code.put(SlotOp::Change {
                op: Unary::Negate,
                to: next,
                from: next,
            })?;
            put_expr(code, program, n, d + 1, i.get())?;
            put_expr(code, program, n, d, a.get())
        }
        CheckedExpr::Assign(s, x, e) => {
            put_write(code, program, *x, to)?;
            put_kept(code, *s, to)?;
            put_expr(code, program, n, d, e.get())
        }
        CheckedExpr::AssignElement(w, p, e) => {
            code.put(cut(*w, to, next))?;
            code.put(SlotOp::Store {
                place: to,
                value: next,
                width: width(*w),
            })?;
            put_expr(code, program, n, d + 1, e.get())?;
            put_place(code, program, n, d, *w, p.get())
        }
        CheckedExpr::Compound(op, s, x, e) => {
            put_write(code, program, *x, to)?;
            put_raise(code, *op, *s, to, to, Operand::Cell(next))?;
            put_negate(code, *op, *s, next)?;
            put_expr(code, program, n, d + 1, e.get())?;
            put_read(code, program, *x, to)
        }
        CheckedExpr::CompoundElement(op, w, p, e) => {
            code.put(cut(*w, to, next))?;
            code.put(SlotOp::Store {
                place: to,
                value: next,
                width: width(*w),
            })?;
            code.put(SlotOp::Apply {
                op: binary(*op),
                to: next,
                left: next,
                right: Operand::Cell(n + (d + 1 + 1)),
            })?;
            put_expr(code, program, n, d + 1 + 1, e.get())?;
            put_fetched(code, program, n, d, *w, p.get())
        }
        CheckedExpr::Step(v, up, s, x) => {
            let new = match v {
                StepValue::New => to,
                StepValue::Old => next,
            };
            put_write(code, program, *x, new)?;
            put_raise(
                code,
                stepping(*up),
                *s,
                new,
                to,
                Operand::Number(by_one(*up, *s)),
            )?;
            put_read(code, program, *x, to)
        }
        CheckedExpr::StepElement(v, up, w, p) => {
            put_step(code, n, d, *v, *up, *w)?;
            put_fetched(code, program, n, d, *w, p.get())
        }
        CheckedExpr::Kernel(k, xs) => {
            code.put(SlotOp::Ask {
                number: call_at(program, *k),
                first: to,
                count: count_of(xs.as_slice()),
            })?;
            put_args(code, program, n, d, xs.as_slice())
        }
        CheckedExpr::Call(f, xs) => {
            code.put(SlotOp::Go {
                function: *f as usize,
                first: to,
                count: count_of(xs.as_slice()),
            })?;
            put_arguments(code, program, *f, to)?;
            put_args(code, program, n, d, xs.as_slice())
        }
    }
}

// Puts the code of an operand on the right.
#[cycle(put)]
fn put_right(
    code: &mut Code,
    program: &Checked,
    n: usize,
    d: usize,
    e: &CheckedExpr,
) -> Result<(), AllocError>
    ensures { OnOk result (code.new ≡ right_code (expr_of e.now) (expr_code (source_of program.now) n d (expr_of e.now)) ++ code.old) }
{
    match e {
        CheckedExpr::Constant(_) => Ok(()),
        _ => put_expr(code, program, n, d, e),
    }
}

// Puts the code of an element that is read.
#[cycle(put)]
fn put_loaded(
    code: &mut Code,
    program: &Checked,
    n: usize,
    d: usize,
    w: Element,
    p: &CheckedPlace,
) -> Result<(), AllocError>
    ensures { OnOk result (code.new ≡ loaded_code (source_of program.now) n d w (place_of p.now) ++ code.old) }
{
    check_depth(n, d)?;
    let to = n + d;
    code.put(SlotOp::Load {
        to,
        place: to,
        width: width(w),
    })?;
    match p {
        CheckedPlace::Index(a, i) => {
            code.put(SlotOp::Index {
                to,
                base: to,
                index: right(i.get(), n + (d + 1)),
                width: width(w),
            })?;
            put_right(code, program, n, d + 1, i.get())?;
            put_expr(code, program, n, d, a.get())
        }
        CheckedPlace::Deref(a) => put_expr(code, program, n, d, a.get()),
    }
}

// Puts the code of an element that is written.
#[cycle(put)]
fn put_place(
    code: &mut Code,
    program: &Checked,
    n: usize,
    d: usize,
    w: Element,
    p: &CheckedPlace,
) -> Result<(), AllocError>
    ensures { OnOk result (code.new ≡ place_code (source_of program.now) n d w (place_of p.now) ++ code.old) }
{
    check_depth(n, d)?;
    match p {
        CheckedPlace::Index(a, i) => {
            code.put(SlotOp::Index {
                to: n + d,
                base: n + d,
                index: right(i.get(), n + (d + 1)),
                width: width(w),
            })?;
            put_right(code, program, n, d + 1, i.get())?;
            put_expr(code, program, n, d, a.get())
        }
        CheckedPlace::Deref(a) => put_expr(code, program, n, d, a.get()),
    }
}

// Puts the code of an element that is read and then written.
#[cycle(put)]
fn put_fetched(
    code: &mut Code,
    program: &Checked,
    n: usize,
    d: usize,
    w: Element,
    p: &CheckedPlace,
) -> Result<(), AllocError>
    ensures { OnOk result (code.new ≡ fetched_code (source_of program.now) n d w (place_of p.now) ++ code.old) }
{
    check_depth(n, d)?;
    let next = n + (d + 1);
    code.put(SlotOp::Load {
        to: next,
        place: n + d,
        width: width(w),
    })?;
    match p {
        CheckedPlace::Index(a, i) => {
            code.put(SlotOp::Index {
                to: n + d,
                base: n + d,
                index: right(i.get(), next),
                width: width(w),
            })?;
            put_right(code, program, n, d + 1, i.get())?;
            put_expr(code, program, n, d, a.get())
        }
        CheckedPlace::Deref(a) => put_expr(code, program, n, d, a.get()),
    }
}

// Puts the code of arguments, the first of them over d values.
#[cycle(put)]
fn put_args(
    code: &mut Code,
    program: &Checked,
    n: usize,
    d: usize,
    xs: &[CheckedExpr],
) -> Result<(), AllocError>
    ensures { OnOk result (code.new ≡ args_code (source_of program.now) n d (args_of xs.now) ++ code.old) }
{
    check_depth(n, d)?;
    let mut left = xs.len();
    while left > 0 {
        left -= 1;
        put_expr(code, program, n, d + left, &xs[left])?;
    }
    Ok(())
}

// How many arguments there are.
#[tactic(auto, using(nx_cmean::proofs::Arguments::count_args))]
fn count_of(xs: &[CheckedExpr]) -> usize
    ensures { result ≡ count (args_of xs.now) }
{
    xs.len()
}

/// Puts the code of an expression that may be absent, and whose value nobody wants.
pub fn put_option(
    code: &mut Code,
    program: &Checked,
    n: usize,
    e: &Option<Shared<CheckedExpr>>,
) -> Result<(), AllocError>
    ensures { OnOk result (code.new ≡ option_code (source_of program.now) n (option_map expr_of e.now) ++ code.old) }
{
    match e {
        None => Ok(()),
        Some(e) => put_expr(code, program, n, 0, e.get()),
    }
}
