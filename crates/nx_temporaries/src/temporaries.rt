// How many values expressions keep at most at one time.

ghost use Rattle.std.specs.Prelude.{◌≡◌, ◌+◌, max, map, option_map, IfOk};
ghost use Rattle.nx_checked.specs.Trees.{expr_of, place_of, args_of, stmt_of, stmts_of};
ghost use Rattle.nx_lower.specs.Bodies.{temps_of, place_temps, args_temps, option_temps, all_temps, stmt_temps, stmts_temps};

use nx_checked::{CheckedExpr, CheckedPlace, CheckedStmt};
use nx_shared::Shared;
use std::alloc::AllocError;

// The greater of two numbers.
fn most(a: u32, b: u32) -> u32
    ensures { result ≡ max a b }
{
    a.max(b)
}

// One more value waits. No more wait than memory can hold.
fn one_more(a: u32) -> Result<u32, AllocError>
    ensures { IfOk result (λ n. n ≡ 1 + a) }
{
    if a == 0xffffffff {
        return Err(AllocError);
    }
    Ok(1 + a)
}

// Of two operands the first waits for the second.
fn two(a: u32, b: u32) -> Result<u32, AllocError>
    ensures { IfOk result (λ n. n ≡ max a (1 + b)) }
{
    Ok(most(a, one_more(b)?))
}

// A call's own value, where it has no arguments.
fn at_least_one(n: u32) -> u32
    ensures { result ≡ max 1 n }
{
    most(1, n)
}

// The values that an expression keeps, its own among them.
#[cycle(temporaries)]
fn of_expr(e: &CheckedExpr) -> Result<u32, AllocError>
    ensures { IfOk result (λ n. n ≡ temps_of (expr_of e.now)) }
{
    match e {
        CheckedExpr::Constant(_) => Ok(1),
        CheckedExpr::Literal(_) => Ok(1),
        CheckedExpr::Function(_) => Ok(1),
        CheckedExpr::Read(_) => Ok(1),
        CheckedExpr::Array(_) => Ok(1),
        CheckedExpr::Load(_, p) => of_place(p.get()),
        CheckedExpr::AddressOf(_, a, i) => {
            let first = of_expr(a.get())?;
            two(first, of_expr(i.get())?)
        }
        CheckedExpr::Unary(_, a) => of_expr(a.get()),
        CheckedExpr::Binary(_, a, b) => {
            let first = of_expr(a.get())?;
            two(first, of_expr(b.get())?)
        }
        CheckedExpr::And(a, b) => {
            let first = of_expr(a.get())?;
            Ok(most(first, of_expr(b.get())?))
        }
        CheckedExpr::Or(a, b) => {
            let first = of_expr(a.get())?;
            Ok(most(first, of_expr(b.get())?))
        }
        CheckedExpr::Conditional(c, a, b) => {
            let c = of_expr(c.get())?;
            let a = of_expr(a.get())?;
            Ok(most(c, most(a, of_expr(b.get())?)))
        }
        CheckedExpr::Convert(_, a) => of_expr(a.get()),
        CheckedExpr::Advance(_, a, i) => {
            let first = of_expr(a.get())?;
            two(first, of_expr(i.get())?)
        }
        CheckedExpr::AdvanceBy(_, i, a) => {
            let first = of_expr(i.get())?;
            two(first, of_expr(a.get())?)
        }
        CheckedExpr::Retreat(_, a, i) => {
            let first = of_expr(a.get())?;
            two(first, of_expr(i.get())?)
        }
        CheckedExpr::Assign(_, _, e) => of_expr(e.get()),
        CheckedExpr::AssignElement(_, p, e) => {
            let p = of_place(p.get())?;
            Ok(most(p, one_more(of_expr(e.get())?)?))
        }
        CheckedExpr::Compound(_, _, _, e) => one_more(of_expr(e.get())?),
        CheckedExpr::CompoundElement(_, _, p, e) => {
            let p = of_place(p.get())?;
            Ok(most(p, one_more(one_more(of_expr(e.get())?)?)?))
        }
        CheckedExpr::Step(_, _, _, _) => Ok(2),
        CheckedExpr::StepElement(_, _, _, p) => Ok(most(of_place(p.get())?, 3)),
        CheckedExpr::Kernel(_, xs) => Ok(at_least_one(of_args(xs.as_slice())?)),
        CheckedExpr::Call(_, xs) => Ok(at_least_one(of_args(xs.as_slice())?)),
    }
}

#[cycle(temporaries)]
fn of_place(p: &CheckedPlace) -> Result<u32, AllocError>
    ensures { IfOk result (λ n. n ≡ place_temps (place_of p.now)) }
{
    match p {
        CheckedPlace::Index(a, i) => {
            let first = of_expr(a.get())?;
            two(first, of_expr(i.get())?)
        }
        CheckedPlace::Deref(a) => of_expr(a.get()),
    }
}

// Arguments, each of which waits for those after it.
#[cycle(temporaries)]
fn of_args(xs: &[CheckedExpr]) -> Result<u32, AllocError>
    ensures { IfOk result (λ n. n ≡ args_temps (args_of xs.now)) }
{
    let mut all = 0;
    let mut left = xs.len();
    while left > 0 {
        left -= 1;
        let own = of_expr(&xs[left])?;
        all = most(own, one_more(all)?);
    }
    Ok(all)
}

fn of_option(e: &Option<Shared<CheckedExpr>>) -> Result<u32, AllocError>
    ensures { IfOk result (λ n. n ≡ option_temps (option_map expr_of e.now)) }
{
    match e {
        None => Ok(0),
        Some(e) => of_expr(e.get()),
    }
}

/// The greatest number of values of one of these expressions, 0 without any.
pub fn of_all(es: &[CheckedExpr]) -> Result<u32, AllocError>
    ensures { IfOk result (λ n. n ≡ all_temps (map expr_of es.now)) }
{
    match es {
        [] => Ok(0),
        [e, rest @ ..] => {
            let own = of_expr(e)?;
            Ok(most(own, of_all(rest)?))
        }
    }
}

#[cycle(bodies)]
fn of_stmt(s: &CheckedStmt) -> Result<u32, AllocError>
    ensures { IfOk result (λ n. n ≡ stmt_temps (stmt_of s.now)) }
{
    match s {
        CheckedStmt::Empty => Ok(0),
        CheckedStmt::Expr(e) => of_expr(e.get()),
        CheckedStmt::Block(ss) => of_stmts(ss.get().as_slice()),
        CheckedStmt::If(c, a) => {
            let c = of_expr(c.get())?;
            Ok(most(c, of_stmt(a.get())?))
        }
        CheckedStmt::IfElse(c, a, b) => {
            let c = of_expr(c.get())?;
            let a = of_stmt(a.get())?;
            Ok(most(c, most(a, of_stmt(b.get())?)))
        }
        CheckedStmt::While(c, a) => {
            let c = of_expr(c.get())?;
            Ok(most(c, of_stmt(a.get())?))
        }
        CheckedStmt::Do(a, c) => {
            let a = of_stmt(a.get())?;
            Ok(most(a, of_expr(c.get())?))
        }
        CheckedStmt::For(a, c, t, b) => {
            let a = of_option(a)?;
            let c = of_option(c)?;
            let t = of_option(t)?;
            Ok(most(a, most(c, most(t, of_stmt(b.get())?))))
        }
        CheckedStmt::Break => Ok(0),
        CheckedStmt::Continue => Ok(0),
        CheckedStmt::Return(e) => of_option(e),
    }
}

/// The greatest number of values of an expression of these statements, 0 without any.
#[cycle(bodies)]
pub fn of_stmts(ss: &[CheckedStmt]) -> Result<u32, AllocError>
    ensures { IfOk result (λ n. n ≡ stmts_temps (stmts_of ss.now)) }
{
    let mut all = 0;
    let mut left = ss.len();
    while left > 0 {
        left -= 1;
        let own = of_stmt(&ss[left])?;
        all = most(own, all);
    }
    Ok(all)
}
