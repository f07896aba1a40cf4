ghost use Rattle.std.specs.Prelude.{◌≡◌, ◌∷◌, drop, OnOk, IfOk, option_map};
ghost use Rattle.nx_checked.specs.Trees.{count, expr_of, place_of, args_of, stmt_of, stmts_of};
ghost use Rattle.nx_cmean.specs.Items.{items_then, loaded_then, place_then, fetched_then, all_then, option_then, rest_then, test_then, after_loop, next_turn, begun, Enter, Called};
ghost use Rattle.nx_cmean.specs.Shape.{items_of};

use crate::stack::Stack;
use nx_checked::{
    ArrayName, Cell, CheckedExpr, CheckedPlace, CheckedStmt, Element, IntOperator, Scalar, Shape,
    StepValue,
};
use nx_cobjects::{Infix, Prefix};
use nx_shared::Shared;
use sqlite_items::Items;
use std::alloc::AllocError;

/// An operand.
#[derive(Clone, Copy)]
pub enum Leaf {
    Number(u32),
    Text(u32),
    Function(u32),
    Array(ArrayName),
}

/// One thing that remains to be done. Parts that are perhaps not reached are held as trees.
#[derive(Drop)]
pub enum Item {
    Take(Leaf),
    Get(Cell),
    Alter(Prefix),
    Apply(Infix),
    Write(Scalar, Cell),
    Raise(IntOperator, Scalar, Cell),
    Bump(StepValue, bool, Scalar, Cell),
    Reached,
    Fetch(Element),
    FetchAt(Element),
    Lay(Element),
    Lift(IntOperator, Element),
    Shift(StepValue, bool, Element),
    AndThen(Shared<CheckedExpr>),
    OrElse(Shared<CheckedExpr>),
    Choose(Shared<CheckedExpr>, Shared<CheckedExpr>),
    Chosen,
    Ask(u32, usize),
    Enter(u32, usize),
    Called,
    Forget,
    Exec(Shared<CheckedStmt>),
    /// The statements of a block from a place on.
    Rest(Shared<Items<CheckedStmt>>, usize),
    Test(Shared<CheckedStmt>, Option<Shared<CheckedStmt>>),
    FirstTest(Shared<CheckedExpr>, Shared<CheckedStmt>),
    TestLoop(Shared<CheckedExpr>, Option<Shared<CheckedExpr>>, Shared<CheckedStmt>),
    Turn(Option<Shared<CheckedExpr>>, Option<Shared<CheckedExpr>>, Shared<CheckedStmt>),
    Again(Option<Shared<CheckedExpr>>, Option<Shared<CheckedExpr>>, Shared<CheckedStmt>),
    Leave,
    Fall,
    Start(Scalar),
    Gap(u32),
    Make(Shape),
}

/// Puts an expression's items before what remains.
#[cycle(put)]
pub fn put_expr(todo: &mut Stack<Item>, e: &CheckedExpr) -> Result<(), AllocError>
    ensures { OnOk result (items_of todo.new ≡ items_then (expr_of e.now) (items_of todo.old)) }
{
    match e {
        CheckedExpr::Constant(n) => todo.push(Item::Take(Leaf::Number(*n))),
        CheckedExpr::Literal(i) => todo.push(Item::Take(Leaf::Text(*i))),
        CheckedExpr::Function(f) => todo.push(Item::Take(Leaf::Function(*f))),
        CheckedExpr::Read(x) => todo.push(Item::Get(*x)),
        CheckedExpr::Array(a) => todo.push(Item::Take(Leaf::Array(*a))),
        CheckedExpr::Load(w, p) => put_loaded(todo, *w, p.get()),
        CheckedExpr::AddressOf(w, a, i) => {
            todo.push(Item::Apply(Infix::Advance(*w)))?;
            put_expr(todo, i.get())?;
            put_expr(todo, a.get())
        }
        CheckedExpr::Unary(op, a) => {
            todo.push(Item::Alter(Prefix::Number(*op)))?;
            put_expr(todo, a.get())
        }
        CheckedExpr::Binary(op, a, b) => {
            todo.push(Item::Apply(Infix::Number(*op)))?;
            put_expr(todo, b.get())?;
            put_expr(todo, a.get())
        }
        CheckedExpr::And(a, b) => {
            todo.push(Item::AndThen(b.another()?))?;
            put_expr(todo, a.get())
        }
        CheckedExpr::Or(a, b) => {
            todo.push(Item::OrElse(b.another()?))?;
            put_expr(todo, a.get())
        }
        CheckedExpr::Conditional(c, a, b) => {
            todo.push(Item::Choose(a.another()?, b.another()?))?;
            put_expr(todo, c.get())
        }
        CheckedExpr::Convert(to, a) => {
            todo.push(Item::Alter(Prefix::Cast(*to)))?;
            put_expr(todo, a.get())
        }
        CheckedExpr::Advance(w, a, i) => {
            todo.push(Item::Apply(Infix::Advance(*w)))?;
            put_expr(todo, i.get())?;
            put_expr(todo, a.get())
        }
        CheckedExpr::AdvanceBy(w, i, a) => {
            todo.push(Item::Apply(Infix::AdvanceBy(*w)))?;
            put_expr(todo, a.get())?;
            put_expr(todo, i.get())
        }
        CheckedExpr::Retreat(w, a, i) => {
            todo.push(Item::Apply(Infix::Retreat(*w)))?;
            put_expr(todo, i.get())?;
            put_expr(todo, a.get())
        }
        CheckedExpr::Assign(s, x, e) => {
            todo.push(Item::Write(*s, *x))?;
            put_expr(todo, e.get())
        }
        CheckedExpr::AssignElement(w, p, e) => {
            todo.push(Item::Lay(*w))?;
            put_expr(todo, e.get())?;
            put_place(todo, *w, p.get())
        }
        CheckedExpr::Compound(op, s, x, e) => {
            todo.push(Item::Raise(*op, *s, *x))?;
            put_expr(todo, e.get())?;
            todo.push(Item::Get(*x))
        }
        CheckedExpr::CompoundElement(op, w, p, e) => {
            todo.push(Item::Lift(*op, *w))?;
            put_expr(todo, e.get())?;
            put_fetched(todo, *w, p.get())
        }
        CheckedExpr::Step(v, up, s, x) => {
            todo.push(Item::Bump(*v, *up, *s, *x))?;
            todo.push(Item::Get(*x))
        }
        CheckedExpr::StepElement(v, up, w, p) => {
            todo.push(Item::Shift(*v, *up, *w))?;
            put_fetched(todo, *w, p.get())
        }
        CheckedExpr::Kernel(n, xs) => {
            todo.push(Item::Ask(*n, count_of(xs.as_slice())))?;
            put_all(todo, xs.as_slice())
        }
        CheckedExpr::Call(f, xs) => {
            put_call(todo, *f, count_of(xs.as_slice()))?;
            put_all(todo, xs.as_slice())
        }
    }
}

// Puts the items of an element that is read.
#[cycle(put)]
fn put_loaded(todo: &mut Stack<Item>, w: Element, p: &CheckedPlace) -> Result<(), AllocError>
    ensures { OnOk result (items_of todo.new ≡ loaded_then w (place_of p.now) (items_of todo.old)) }
{
    match p {
        CheckedPlace::Index(a, i) => {
            todo.push(Item::Apply(Infix::Load(w)))?;
            put_expr(todo, i.get())?;
            put_expr(todo, a.get())
        }
        CheckedPlace::Deref(a) => {
            todo.push(Item::Alter(Prefix::Load(w)))?;
            put_expr(todo, a.get())
        }
    }
}

// Puts the items of an element that is written.
#[cycle(put)]
fn put_place(todo: &mut Stack<Item>, w: Element, p: &CheckedPlace) -> Result<(), AllocError>
    ensures { OnOk result (items_of todo.new ≡ place_then w (place_of p.now) (items_of todo.old)) }
{
    match p {
        CheckedPlace::Index(a, i) => {
            todo.push(Item::Apply(Infix::Advance(w)))?;
            put_expr(todo, i.get())?;
            put_expr(todo, a.get())
        }
        CheckedPlace::Deref(a) => {
            todo.push(Item::Reached)?;
            put_expr(todo, a.get())
        }
    }
}

// Puts the items of an element that is read and then written.
#[cycle(put)]
fn put_fetched(todo: &mut Stack<Item>, w: Element, p: &CheckedPlace) -> Result<(), AllocError>
    ensures { OnOk result (items_of todo.new ≡ fetched_then w (place_of p.now) (items_of todo.old)) }
{
    match p {
        CheckedPlace::Index(a, i) => {
            todo.push(Item::FetchAt(w))?;
            put_expr(todo, i.get())?;
            put_expr(todo, a.get())
        }
        CheckedPlace::Deref(a) => {
            todo.push(Item::Fetch(w))?;
            put_expr(todo, a.get())
        }
    }
}

// Puts the items of arguments.
#[cycle(put)]
#[tactic(auto, using(crate::proofs::Arguments::all_last, crate::proofs::Arguments::all_of))]
fn put_all(todo: &mut Stack<Item>, xs: &[CheckedExpr]) -> Result<(), AllocError>
    ensures { OnOk result (items_of todo.new ≡ all_then (args_of xs.now) (items_of todo.old)) }
{
    let mut left = xs.len();
    while left > 0 {
        left -= 1;
        put_expr(todo, &xs[left])?;
    }
    Ok(())
}

// How many arguments there are.
#[tactic(auto, using(crate::proofs::Arguments::count_args))]
fn count_of(xs: &[CheckedExpr]) -> usize
    ensures { result ≡ count (args_of xs.now) }
{
    xs.len()
}

// Puts a call of a function whose arguments are there.
fn put_call(todo: &mut Stack<Item>, f: u32, count: usize) -> Result<(), AllocError>
    ensures { OnOk result (items_of todo.new ≡ Enter f count ∷ Called ∷ items_of todo.old) }
{
    todo.push(Item::Called)?;
    todo.push(Item::Enter(f, count))
}

/// Puts the items of an expression that may be absent, and whose value nobody wants.
pub fn put_option(todo: &mut Stack<Item>, e: &Option<Shared<CheckedExpr>>) -> Result<(), AllocError>
    ensures { OnOk result (items_of todo.new ≡ option_then (option_map expr_of e.now) (items_of todo.old)) }
{
    match e {
        None => Ok(()),
        Some(e) => {
            todo.push(Item::Forget)?;
            put_expr(todo, e.get())
        }
    }
}

/// One owner more of an expression that may be absent.
pub fn another_option(
    e: &Option<Shared<CheckedExpr>>,
) -> Result<Option<Shared<CheckedExpr>>, AllocError>
    ensures { IfOk result (λ a. a ≡ e.now) }
{
    match e {
        None => Ok(None),
        Some(e) => Ok(Some(e.another()?)),
    }
}

/// Puts a loop's test, and what follows it.
pub fn put_test(
    todo: &mut Stack<Item>,
    c: &Option<Shared<CheckedExpr>>,
    t: Option<Shared<CheckedExpr>>,
    s: Shared<CheckedStmt>,
) -> Result<(), AllocError>
    ensures { OnOk result (items_of todo.new ≡ test_then (option_map expr_of c.now) (option_map expr_of t) (stmt_of s) (items_of todo.old)) }
{
    match c {
        Some(c) => {
            todo.push(Item::TestLoop(c.another()?, t, s))?;
            put_expr(todo, c.get())
        }
        None => {
            let body = s.another()?;
            todo.push(Item::Turn(None, t, s))?;
            todo.push(Item::Exec(body))
        }
    }
}

/// Puts the statements of a block from a place on.
#[tactic(auto, using(crate::proofs::Blocks::rest_there))]
pub fn put_rest(
    todo: &mut Stack<Item>,
    ss: Shared<Items<CheckedStmt>>,
    at: usize,
) -> Result<(), AllocError>
    ensures { OnOk result (items_of todo.new ≡ rest_then (stmts_of (drop at ss)) (items_of todo.old)) }
{
    if at < ss.get().len() {
        todo.push(Item::Rest(ss, at))
    } else {
        Ok(())
    }
}

// Takes away what remains of the innermost loop.
fn leave_loop(todo: &mut Stack<Item>) -> Result<(), AllocError>
    ensures { OnOk result (items_of todo.new ≡ after_loop (items_of todo.old)) }
{
    while let Some(item) = todo.pop() {
        match item {
            Item::Turn(_, _, _) => return Ok(()),
            Item::FirstTest(_, _) => return Ok(()),
            Item::Fall => return todo.push(Item::Fall),
            _ => {}
        }
    }
    Ok(())
}

// Takes away what remains of the innermost loop's turn.
fn end_turn(todo: &mut Stack<Item>) -> Result<(), AllocError>
    ensures { OnOk result (items_of todo.new ≡ next_turn (items_of todo.old)) }
{
    while let Some(item) = todo.pop() {
        match item {
            Item::Turn(c, t, s) => return todo.push(Item::Turn(c, t, s)),
            Item::FirstTest(c, s) => return todo.push(Item::FirstTest(c, s)),
            Item::Fall => return todo.push(Item::Fall),
            _ => {}
        }
    }
    Ok(())
}

/// Puts what a statement begins with.
pub fn begin(todo: &mut Stack<Item>, s: &CheckedStmt) -> Result<(), AllocError>
    ensures { OnOk result (items_of todo.new ≡ begun (stmt_of s.now) (items_of todo.old)) }
{
    match s {
        CheckedStmt::Empty => Ok(()),
        CheckedStmt::Expr(e) => {
            todo.push(Item::Forget)?;
            put_expr(todo, e.get())
        }
        CheckedStmt::Block(ss) => put_rest(todo, ss.another()?, 0),
        CheckedStmt::If(c, a) => {
            todo.push(Item::Test(a.another()?, None))?;
            put_expr(todo, c.get())
        }
        CheckedStmt::IfElse(c, a, b) => {
            todo.push(Item::Test(a.another()?, Some(b.another()?)))?;
            put_expr(todo, c.get())
        }
        CheckedStmt::While(c, s) => {
            todo.push(Item::TestLoop(c.another()?, None, s.another()?))?;
            put_expr(todo, c.get())
        }
        CheckedStmt::Do(s, c) => {
            todo.push(Item::FirstTest(c.another()?, s.another()?))?;
            todo.push(Item::Exec(s.another()?))
        }
        CheckedStmt::For(a, c, t, s) => {
            put_test(todo, c, another_option(t)?, s.another()?)?;
            put_option(todo, a)
        }
        CheckedStmt::Break => leave_loop(todo),
        CheckedStmt::Continue => end_turn(todo),
        CheckedStmt::Return(None) => todo.push(Item::Fall),
        CheckedStmt::Return(Some(e)) => {
            todo.push(Item::Leave)?;
            put_expr(todo, e.get())
        }
    }
}
