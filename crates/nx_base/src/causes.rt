// The exception codes of the register mcause. RISC-V Privileged Architecture 1.12, table 3.6.

/// The address of the next instruction is no multiple of four.
pub const FETCH_MISALIGNED: u8 = 0;

/// The next instruction may not be executed.
pub const FETCH_FAULT: u8 = 1;

/// The word is no instruction.
pub const ILLEGAL_INSTRUCTION: u8 = 2;

/// An `ebreak` was executed.
pub const BREAKPOINT: u8 = 3;

/// The address of a load is no multiple of its width.
pub const LOAD_MISALIGNED: u8 = 4;

/// The bytes of a load may not be read.
pub const LOAD_FAULT: u8 = 5;

/// The address of a store is no multiple of its width.
pub const STORE_MISALIGNED: u8 = 6;

/// The bytes of a store may not be written.
pub const STORE_FAULT: u8 = 7;

/// The page tables don't allow the next instruction to be executed.
pub const FETCH_PAGE_FAULT: u8 = 12;

/// The page tables don't allow the bytes of a load to be read.
pub const LOAD_PAGE_FAULT: u8 = 13;

/// The page tables don't allow the bytes of a store to be written.
pub const STORE_PAGE_FAULT: u8 = 15;
