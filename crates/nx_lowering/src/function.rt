// The slot code of a function.

ghost use Rattle.std.specs.Prelude.{◌≡◌, ◌∷◌, ◌++◌, map, length, max, IfOk, OnOk};
ghost use Rattle.nx_checked.specs.Frames.{frame_of};
ghost use Rattle.nx_checked.specs.Trees.{expr_of, fun_of};
ghost use Rattle.nx_lower.specs.Bodies.{start_code, starts_code, makes_code, initials_code, cells_of, fun_code, fun_temps, array_of, lower_fun};
ghost use Rattle.nx_lowerexpr.specs.Sources.{source_of};

use crate::statement::put_stmts;
use nx_checked::{Checked, CheckedExpr, CheckedFunction, Scalar, Shape};
use nx_lowerexpr::{Code, array_bytes, put_expr, width};
use nx_slot::{Operand, SlotArray, SlotFunction, SlotOp};
use nx_temporaries::{of_all, of_stmts};
use sqlite_items::Items;
use std::alloc::{AllocError, Global};

fn put_start(code: &mut Code, s: Scalar, i: usize) -> Result<(), AllocError>
    ensures { OnOk result (code.new ≡ start_code s i ++ code.old) }
{
    match s {
        Scalar::Int => code.put(SlotOp::Move {
            to: i,
            from: Operand::Number(0),
        }),
        Scalar::Char => code.put(SlotOp::Move {
            to: i,
            from: Operand::Number(0),
        }),
        Scalar::Pointer(_) => {
            code.put(SlotOp::Forge { to: i, from: i })?;
            code.put(SlotOp::Move {
                to: i,
                from: Operand::Number(0),
            })
        }
    }
}

// Locals start in their cells. There are no more of them than memory can hold.
fn put_starts(code: &mut Code, locals: &[Scalar], i: usize) -> Result<(), AllocError>
    ensures { OnOk result (code.new ≡ starts_code locals.now i ++ code.old) }
{
    match locals {
        [] => Ok(()),
        [s, rest @ ..] => {
            if i > 0xffffffff {
                return Err(AllocError);
            }
            put_starts(code, rest, i + 1)?;
            put_start(code, *s, i)
        }
    }
}

fn put_makes(code: &mut Code, arrays: &[Shape], k: usize) -> Result<(), AllocError>
    ensures { OnOk result (code.new ≡ makes_code arrays.now k ++ code.old) }
{
    match arrays {
        [] => Ok(()),
        [_, rest @ ..] => {
            if k > 0xffffffff {
                return Err(AllocError);
            }
            put_makes(code, rest, k + 1)?;
            code.put(SlotOp::Make { array: k })
        }
    }
}

fn put_initials(
    code: &mut Code,
    program: &Checked,
    n: usize,
    es: &[CheckedExpr],
) -> Result<(), AllocError>
    ensures { OnOk result (code.new ≡ initials_code (source_of program.now) n (map expr_of es.now) ++ code.old) }
{
    match es {
        [] => Ok(()),
        [e, rest @ ..] => {
            put_initials(code, program, n, rest)?;
            put_expr(code, program, n, 0, e)
        }
    }
}

// How many cells parameters and locals take. There are no more of them than memory can hold.
fn cells(g: &CheckedFunction) -> Result<usize, AllocError>
    ensures { IfOk result (λ n. n ≡ cells_of (fun_of g.now)) }
{
    let params = g.params.len();
    let locals = g.locals.len();
    if params > 0xffffffff || locals > 0xffffffff {
        return Err(AllocError);
    }
    Ok(params + locals)
}

// The operations of a function.
#[tactic(auto, unfolding(nx_lower::specs::Bodies::fun_code))]
fn body(alloc: Global, program: &Checked, g: &CheckedFunction) -> Result<Items<SlotOp>, AllocError>
    ensures { IfOk result (λ ops. ops ≡ fun_code (source_of program.now) (fun_of g.now)) }
{
    let n = cells(g)?;
    let mut code = Code::new(alloc);
    code.put(SlotOp::Give {
        value: Operand::Number(0),
    })?;
    put_stmts(&mut code, program, n, 0, 0, g.body.get().as_slice())?;
    put_initials(&mut code, program, n, g.initials.as_slice())?;
    put_makes(&mut code, g.arrays.as_slice(), 0)?;
    put_starts(&mut code, g.locals.as_slice(), g.params.len())?;
    Ok(Items::from_vec(code.into_ops()))
}

fn arrays(alloc: Global, shapes: &[Shape]) -> Result<Items<SlotArray>, AllocError>
    ensures { IfOk result (λ l. l ≡ map array_of shapes.now) }
{
    let mut all = Items::new(alloc);
    for s in shapes {
        all.push(SlotArray {
            bytes: array_bytes(*s) as usize,
            width: width(s.element),
        })?;
    }
    Ok(all)
}

fn temporaries(g: &CheckedFunction) -> Result<u32, AllocError>
    ensures { IfOk result (λ n. n ≡ fun_temps (fun_of g.now)) }
{
    let first = of_all(g.initials.as_slice())?;
    let then = of_stmts(g.body.get().as_slice())?;
    Ok(first.max(then))
}

/// The slot code of a function of a program.
pub fn lower_function(
    alloc: Global,
    program: &Checked,
    g: &CheckedFunction,
) -> Result<SlotFunction, AllocError>
    requires { g.now.frame ≡ frame_of g.now }
    ensures { IfOk result (λ f. f ≡ lower_fun (source_of program.now) (fun_of g.now)) }
{
    Ok(SlotFunction {
        frame: g.frame,
        params: g.params.len(),
        locals: cells(g)?,
        temporaries: temporaries(g)? as usize,
        arrays: arrays(alloc, g.arrays.as_slice())?,
        ops: body(alloc, program, g)?,
    })
}
