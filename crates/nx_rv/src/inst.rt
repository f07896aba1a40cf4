use nx_base::{AluOp, Cond};

/// An instruction. RISC-V Unprivileged ISA, RV32I 2.1 chapter 2 and M 2.0 chapter 7.
///
/// Its fields are in range where registers are below 32, the `imm` of `Lui` and `Auipc` is a
/// multiple of 4096, the `offset` of `Jal` is even and from -1048576 to 1048574, that of `Branch`
/// is even and from -4096 to 4094, and every other `imm` is from -2048 to 2047. A `width` is 1, 2
/// or 4 bytes, and a load of 4 bytes is `signed`. The `op` of `OpImm` is `Add`, `Slt`, `Sltu`,
/// `Xor`, `Or`, `And`, `Sll`, `Srl` or `Sra`; for the last three `imm` is from 0 to 31. The `imm`
/// of `Fence` is bits 31 to 20 of its word.
#[derive(Clone, Copy, Debug, PartialEq, Eq)]
pub enum Inst {
    /// Puts `imm` into `rd`.
    Lui {
        rd: u8,
        imm: u32,
    },
    /// Puts the pc plus `imm` into `rd`.
    Auipc {
        rd: u8,
        imm: u32,
    },
    /// Jumps to the pc plus `offset`, and puts the address after this instruction into `rd`.
    Jal {
        rd: u8,
        offset: i32,
    },
    /// Jumps to `rs1` plus `imm`, with bit 0 cleared, and puts the address after this instruction
    /// into `rd`.
    Jalr {
        rd: u8,
        rs1: u8,
        imm: i32,
    },
    /// Goes to the pc plus `offset` where `cond` holds of `rs1` and `rs2`.
    Branch {
        cond: Cond,
        rs1: u8,
        rs2: u8,
        offset: i32,
    },
    /// Puts the number of `width` bytes at `rs1` plus `imm` into `rd`, extended by its sign where it
    /// is `signed`, else by zeros.
    Load {
        width: u8,
        signed: bool,
        rd: u8,
        rs1: u8,
        imm: i32,
    },
    /// Puts the low `width` bytes of `rs2` at `rs1` plus `imm`.
    Store {
        width: u8,
        rs1: u8,
        rs2: u8,
        imm: i32,
    },
    /// Puts the result of `op` on `rs1` and `imm` into `rd`.
    OpImm {
        op: AluOp,
        rd: u8,
        rs1: u8,
        imm: i32,
    },
    /// Puts the result of `op` on `rs1` and `rs2` into `rd`.
    Op {
        op: AluOp,
        rd: u8,
        rs1: u8,
        rs2: u8,
    },
    /// Orders accesses to memory. On one hart it does nothing.
    Fence {
        rd: u8,
        rs1: u8,
        imm: i32,
    },
    /// Makes a call of the environment.
    Ecall,
    /// Traps for a debugger.
    Ebreak,
}
