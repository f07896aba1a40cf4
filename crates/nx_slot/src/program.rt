use crate::op::{SlotOp, Width};
use nx_base::Bytes;
use sqlite_items::Items;

/// An array of a function.
#[derive(Clone, Copy, Debug, PartialEq, Eq)]
pub struct SlotArray {
    /// How many bytes it has.
    pub bytes: usize,
    /// What it holds.
    pub width: Width,
}

/// A function.
#[derive(Debug, Drop)]
pub struct SlotFunction {
    /// How many bytes of stack a call of it takes, a multiple of 16.
    pub frame: u32,
    /// How many parameters it has. They are its first cells.
    pub params: usize,
    /// How many cells its parameters and other locals take.
    pub locals: usize,
    /// How many further cells its expressions take, for values that wait.
    pub temporaries: usize,
    /// Its arrays, in the order in which they are made.
    pub arrays: Items<SlotArray>,
    /// What it does.
    pub ops: Items<SlotOp>,
}

/// A program.
#[derive(Debug, Drop)]
pub struct SlotProgram {
    /// Its functions, in the order of their definitions.
    pub functions: Items<SlotFunction>,
    /// The place of the main function among them, counted from 0.
    pub main: usize,
    /// The first bytes of its globals.
    pub globals: Bytes,
    /// The bytes of its literals.
    pub literals: Bytes,
}
