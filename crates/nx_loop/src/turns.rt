use nx_base::{AluOp, Cond};
use nx_rv::{Inst, encode};

/// How many instructions stand in the loop, with the one before it.
pub const TURN_WORDS: usize = 7;

const T0: u8 = 5;

const T1: u8 = 6;

/// The register that counts the turns.
pub const A0: u8 = 10;

/// A loop that counts its turns in a0 and adds each count to a word in memory, at the start of a page.
pub fn turn_words(word_at: u32) -> [u32; TURN_WORDS] {
    [
        encode(&Inst::Lui {
            rd: T0,
            imm: word_at,
        }),
        encode(&Inst::OpImm {
            op: AluOp::Add,
            rd: A0,
            rs1: A0,
            imm: 1,
        }),
        encode(&Inst::Load {
            width: 4,
            signed: true,
            rd: T1,
            rs1: T0,
            imm: 0,
        }),
        encode(&Inst::Op {
            op: AluOp::Add,
            rd: T1,
            rs1: T1,
            rs2: A0,
        }),
        encode(&Inst::Store {
            width: 4,
            rs1: T0,
            rs2: T1,
            imm: 0,
        }),
        encode(&Inst::Branch {
            cond: Cond::Ne,
            rs1: A0,
            rs2: 0,
            offset: -16,
        }),
        // The count is 0 again after 2^32 turns.
        encode(&Inst::Jal { rd: 0, offset: -20 }),
    ]
}
