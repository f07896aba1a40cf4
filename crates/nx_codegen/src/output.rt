/// What a ref's two words address.
#[derive(Clone, Copy, Debug, PartialEq, Eq)]
pub enum Target {
    /// A function, by its place in the program, counted from 0.
    Function(usize),
    /// A call of the kernel, by its number.
    Call(u16),
    /// A byte of the program's globals, counted from 0.
    Global(u32),
    /// A byte of the program's literals, counted from 0.
    Literal(u32),
}

/// A place at which a link fills in an address: two words, LUI and then ADDI, JALR, LW or SW, which together hold it.
#[derive(Clone, Copy, Debug, PartialEq, Eq)]
pub struct Ref {
    /// The place of the first of the two words in the function's, counted from 0.
    pub at: usize,
    /// What is addressed.
    pub target: Target,
}

/// A function's words, and the refs in them, in the order of their places. RISC-V Unprivileged ISA, RV32I 2.1 and M 2.0.
#[derive(Debug, Drop)]
pub struct Words {
    /// The words. Those of refs hold the address 0.
    pub words: Vec<u32>,
    /// The refs.
    pub refs: Vec<Ref>,
}
