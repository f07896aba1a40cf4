/// What an operation reads.
#[derive(Clone, Copy, Debug, PartialEq, Eq)]
pub enum Operand {
    /// The value of a cell, counted from 0.
    Cell(usize),
    /// A number of 32 bits.
    Number(u32),
}

/// A comparison of two numbers, which are signed.
#[derive(Clone, Copy, Debug, PartialEq, Eq)]
pub enum Comparison {
    Equal,
    Unequal,
    Less,
    AtMost,
    Greater,
    AtLeast,
}

/// What is made of two numbers. Results wrap; divisions by zero and shifts are those of RV32IM.
#[derive(Clone, Copy, Debug, PartialEq, Eq)]
pub enum Binary {
    Add,
    Subtract,
    Multiply,
    Divide,
    Remainder,
    And,
    Or,
    Xor,
    ShiftLeft,
    /// The sign is kept.
    ShiftRight,
    /// 1 where it holds, else 0.
    Compare(Comparison),
}

/// What is made of one number.
#[derive(Clone, Copy, Debug, PartialEq, Eq)]
pub enum Unary {
    Negate,
    /// The low 8 bits.
    LowByte,
}

/// How many bytes an element has.
#[derive(Clone, Copy, Debug, PartialEq, Eq)]
pub enum Width {
    /// One.
    Byte,
    /// Four, the lowest first.
    Word,
}

/// Where an object stands that is there from the start, by a count of bytes from the section's first.
#[derive(Clone, Copy, Debug, PartialEq, Eq)]
pub enum Section {
    /// Among the program's globals.
    Global(u32),
    /// Among its literals.
    Literal(u32),
}

/// An object that is there from the start.
#[derive(Clone, Copy, Debug, PartialEq, Eq)]
pub struct StaticObject {
    /// Its name: its place among all objects, globals first and then literals, counted from 0.
    pub name: usize,
    /// Where its bytes stand.
    pub section: Section,
}

/// One operation. Cells are counted from 0: parameters, then other locals, then temporaries. A jump says how many
/// operations it passes.
#[derive(Clone, Copy, Debug, PartialEq, Eq)]
pub enum SlotOp {
    /// A cell gets a value.
    Move {
        to: usize,
        from: Operand,
    },
    /// A cell gets the pointer of a number, which points to nothing.
    Forge {
        to: usize,
        from: usize,
    },
    Apply {
        op: Binary,
        to: usize,
        left: usize,
        right: Operand,
    },
    Change {
        op: Unary,
        to: usize,
        from: usize,
    },
    /// Passes operations where a comparison doesn't hold.
    SkipUnless {
        test: Comparison,
        left: usize,
        right: Operand,
        past: usize,
    },
    Skip {
        past: usize,
    },
    /// Goes back by so many operations.
    Back {
        by: usize,
    },
    /// A call of the kernel, with the values of cells from one on. Its value comes to the first of them.
    Ask {
        number: u16,
        first: usize,
        count: usize,
    },
    /// A call of a function, in the same way.
    Go {
        function: usize,
        first: usize,
        count: usize,
    },
    /// The function is over, and gives a value.
    Give {
        value: Operand,
    },
    /// The function's next array is made, of zeros.
    Make {
        array: usize,
    },
    /// A cell gets a pointer to the first element of an array of the function.
    Local {
        to: usize,
        array: usize,
    },
    /// A cell gets a pointer to the first element of an object that is there from the start.
    Static {
        to: usize,
        object: StaticObject,
    },
    /// A cell gets a function, for a call that starts a thread with it.
    Entry {
        to: usize,
        function: usize,
    },
    /// A cell gets the number that is the first element of a global.
    Fetch {
        to: usize,
        object: StaticObject,
    },
    /// The first element of a global gets a number.
    Keep {
        object: StaticObject,
        from: usize,
    },
    /// A pointer is moved up by a number of elements.
    Index {
        to: usize,
        base: usize,
        index: Operand,
        width: Width,
    },
    /// A cell gets the element at a pointer.
    Load {
        to: usize,
        place: usize,
        width: Width,
    },
    /// The element at a pointer gets a number.
    Store {
        place: usize,
        value: usize,
        width: Width,
    },
}
