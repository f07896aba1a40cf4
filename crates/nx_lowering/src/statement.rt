// The code of statements, from its end.

ghost use Rattle.std.specs.Prelude.{◌≡◌, ◌<◌, ◌≤◌, ◌∷◌, [], ◌++◌, length, option_map, List, OnOk};
ghost use Rattle.nx_checked.specs.Trees.{expr_of, stmt_of, stmts_of};
ghost use Rattle.nx_slot.specs.declared.op.SlotOp.{SlotOp};
ghost use Rattle.nx_slot.specs.declared.op.SlotOp.TheVariants.{Back as back};
ghost use Rattle.nx_lower.specs.Bodies.{test_code, stmt_code, stmts_code};
ghost use Rattle.nx_lowerexpr.specs.Sources.{source_of};
ghost use Rattle.nx_lowering.specs.Loops.{while_parts, do_parts, for_parts, return_code};

use nx_checked::{Checked, CheckedExpr, CheckedStmt};
use nx_lowerexpr::{Code, put_expr, put_option};
use nx_shared::Shared;
use nx_slot::{Comparison, Operand, SlotOp};
use std::alloc::AllocError;

// Passes operations where the number in a cell is 0.
fn test(i: usize, past: usize) -> SlotOp
    ensures { result ≡ test_code i past }
{
    SlotOp::SkipUnless {
        test: Comparison::Unequal,
        left: i,
        right: Operand::Number(0),
        past,
    }
}

// A loop's last operation goes back to its first, where so many operations follow the last.
fn close(code: &mut Code, end: usize)
    requires { end < length code.old }
    ensures { (parts rest : List SlotOp) (x : SlotOp) → code.old ≡ parts ++ x ∷ rest → end ≡ length rest → code.new ≡ parts ++ back (length parts) ∷ rest }
{
    let by = code.len() - end - 1;
    code.patch(end, SlotOp::Back { by });
}

/// Puts the code of a statement over n cells: after it, the loop's next turn begins on operations
/// on, and its end stands out operations on.
#[cycle(statements)]
#[tactic(auto, using(crate::proofs::Closing::regroup, crate::proofs::Closing::while_closed, crate::proofs::Closing::do_closed, crate::proofs::Closing::for_closed, crate::proofs::Closing::return_same))]
pub fn put_stmt(
    code: &mut Code,
    program: &Checked,
    n: usize,
    on: usize,
    out: usize,
    s: &CheckedStmt,
) -> Result<(), AllocError>
    requires turns { on ≤ length code.old }
    requires ends { out ≤ length code.old }
    ensures { OnOk result (code.new ≡ stmt_code (source_of program.now) n on out (stmt_of s.now) ++ code.old) }
{
    match s {
        CheckedStmt::Empty => Ok(()),
        CheckedStmt::Expr(e) => put_expr(code, program, n, 0, e.get()),
        CheckedStmt::Block(ss) => put_stmts(code, program, n, on, out, ss.get().as_slice()),
        CheckedStmt::If(c, a) => {
            let end = code.len();
            put_stmt(code, program, n, on, out, a.get())?;
            code.put(test(n, code.len() - end))?;
            put_expr(code, program, n, 0, c.get())
        }
        CheckedStmt::IfElse(c, a, b) => {
            let end = code.len();
            put_stmt(code, program, n, on, out, b.get())?;
            let between = code.len();
            code.put(SlotOp::Skip {
                past: between - end,
            })?;
            let now = code.len();
            put_stmt(
                code,
                program,
                n,
                now - (end - on),
                now - (end - out),
                a.get(),
            )?;
            code.put(test(n, code.len() - between))?;
            put_expr(code, program, n, 0, c.get())
        }
        CheckedStmt::While(c, a) => {
            let end = code.len();
            code.put(SlotOp::Back { by: 0 })?;
            put_while(code, program, n, a.get(), c.get())?;
            close(code, end);
            Ok(())
        }
        CheckedStmt::Do(a, c) => {
            let end = code.len();
            code.put(SlotOp::Back { by: 0 })?;
            put_do(code, program, n, a.get(), c.get())?;
            close(code, end);
            Ok(())
        }
        CheckedStmt::For(a, c, t, b) => {
            let end = code.len();
            code.put(SlotOp::Back { by: 0 })?;
            put_for(code, program, n, c, t, b.get())?;
            close(code, end);
            put_option(code, program, n, a)
        }
        CheckedStmt::Break => code.put(SlotOp::Skip { past: out }),
        CheckedStmt::Continue => code.put(SlotOp::Skip { past: on }),
        CheckedStmt::Return(e) => put_return(code, program, n, e),
    }
}

// Puts the code of a return, with its value if it has one.
fn put_return(
    code: &mut Code,
    program: &Checked,
    n: usize,
    e: &Option<Shared<CheckedExpr>>,
) -> Result<(), AllocError>
    ensures { OnOk result (code.new ≡ return_code (source_of program.now) n (option_map expr_of e.now) ++ code.old) }
{
    match e {
        None => code.put(SlotOp::Give {
            value: Operand::Number(0),
        }),
        Some(e) => {
            code.put(SlotOp::Give {
                value: Operand::Cell(n),
            })?;
            put_expr(code, program, n, 0, e.get())
        }
    }
}

// Puts the code of a loop but for its way back, which stands there already.
#[cycle(statements)]
fn put_while(
    code: &mut Code,
    program: &Checked,
    n: usize,
    a: &CheckedStmt,
    c: &CheckedExpr,
) -> Result<(), AllocError>
    requires { 1 ≤ length code.old }
    ensures { OnOk result (code.new ≡ while_parts (source_of program.now) n (expr_of c.now) (stmt_of a.now) ++ code.old) }
{
    let end = code.len();
    put_stmt(code, program, n, 0, 1, a)?;
    code.put(test(n, code.len() - end + 1))?;
    put_expr(code, program, n, 0, c)
}

#[cycle(statements)]
fn put_do(
    code: &mut Code,
    program: &Checked,
    n: usize,
    a: &CheckedStmt,
    c: &CheckedExpr,
) -> Result<(), AllocError>
    requires { 1 ≤ length code.old }
    ensures { OnOk result (code.new ≡ do_parts (source_of program.now) n (stmt_of a.now) (expr_of c.now) ++ code.old) }
{
    let end = code.len();
    code.put(test(n, 1))?;
    put_expr(code, program, n, 0, c)?;
    let out = code.len() - end + 1;
    put_stmt(code, program, n, 0, out, a)
}

#[cycle(statements)]
fn put_for(
    code: &mut Code,
    program: &Checked,
    n: usize,
    c: &Option<Shared<CheckedExpr>>,
    t: &Option<Shared<CheckedExpr>>,
    b: &CheckedStmt,
) -> Result<(), AllocError>
    requires { 1 ≤ length code.old }
    ensures { OnOk result (code.new ≡ for_parts (source_of program.now) n (option_map expr_of c.now) (option_map expr_of t.now) (stmt_of b.now) ++ code.old) }
{
    let end = code.len();
    put_option(code, program, n, t)?;
    let out = code.len() - end + 1;
    put_stmt(code, program, n, 0, out, b)?;
    match c {
        None => Ok(()),
        Some(c) => {
            code.put(test(n, code.len() - end + 1))?;
            put_expr(code, program, n, 0, c.get())
        }
    }
}

/// Puts the code of the statements of a block.
#[cycle(statements)]
pub fn put_stmts(
    code: &mut Code,
    program: &Checked,
    n: usize,
    on: usize,
    out: usize,
    ss: &[CheckedStmt],
) -> Result<(), AllocError>
    requires turns { on ≤ length code.old }
    requires ends { out ≤ length code.old }
    ensures { OnOk result (code.new ≡ stmts_code (source_of program.now) n on out (stmts_of ss.now) ++ code.old) }
{
    let end = code.len();
    let mut left = ss.len();
    while left > 0 {
        left -= 1;
        let now = code.len();
        put_stmt(
            code,
            program,
            n,
            now - (end - on),
            now - (end - out),
            &ss[left],
        )?;
    }
    Ok(())
}
