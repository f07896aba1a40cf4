ghost use Rattle.std.specs.Prelude.{◌≡◌, Some, pos, IfSome, MatchOption};
ghost use Rattle.nx_rv.specs.declared.inst.Inst.{Inst};
ghost use Rattle.nx_rv.specs.declared.inst.Inst.TheVariants.{Branch, Load, Store, OpImm, Op};
ghost use Rattle.nx_rv.specs.Formats.{funct3, funct7, rd_of, rs1_of, rs2_of, imm_b, imm_i, imm_s};
ghost use Rattle.nx_rv.specs.Codes.{branch_of, fence_of, jalr_of, load_of, op_imm_of, op_of, base_op_of, other_op_of, multiply_of, store_of, system_of};
ghost use Rattle.nx_rv.specs.Table.{Row, IsInRange, decode_of};

use crate::fields::{funct3, funct7, imm_b, imm_i, imm_j, imm_s, imm_u, opcode, rd, rs1, rs2};
use crate::inst::Inst;
use nx_base::{AluOp, Cond};

// Each function here is inlined into the machine's step, which then needs no second test of what
// the first ones found.

/// The instruction of a word. There is none exactly where no row of the table matches.
#[inline(always)]
#[tactic(auto, using(crate::proofs::Rows::decoded_in_range, crate::proofs::Rows::decoded_row))]
pub fn decode(word: u32) -> Option<Inst>
    ensures table { result ≡ decode_of word }
    ensures in_range { IfSome result IsInRange }
    ensures row { MatchOption result ((i : Inst) → ¬ Row word i) (λ i. Row word i) }
{
    inst_of(word)
}

// The table, read from words to instructions, opcode by opcode.
#[inline(always)]
#[tactic(auto, unfolding(crate::specs::Table::decode_of))]
fn inst_of(word: u32) -> Option<Inst>
    ensures { result ≡ decode_of word }
{
    match opcode(word) {
        0x37 => Some(Inst::Lui {
            rd: rd(word),
            imm: imm_u(word),
        }),
        0x17 => Some(Inst::Auipc {
            rd: rd(word),
            imm: imm_u(word),
        }),
        0x6F => Some(Inst::Jal {
            rd: rd(word),
            offset: imm_j(word),
        }),
        0x67 => jalr(word),
        0x63 => branches(word),
        0x03 => loads(word),
        0x23 => stores(word),
        0x13 => immediates(word),
        0x33 => operations(word),
        0x0F => fence(word),
        0x73 => system(word),
        _ => None,
    }
}

#[inline(always)]
#[tactic(auto, unfolding(crate::specs::Codes::jalr_of))]
fn jalr(word: u32) -> Option<Inst>
    ensures { result ≡ jalr_of (funct3 word) (rd_of word) (rs1_of word) (imm_i word) }
{
    match funct3(word) {
        0 => Some(Inst::Jalr {
            rd: rd(word),
            rs1: rs1(word),
            imm: imm_i(word),
        }),
        _ => None,
    }
}

#[inline(always)]
#[tactic(auto, unfolding(crate::specs::Codes::branch_of))]
fn branches(word: u32) -> Option<Inst>
    ensures { result ≡ branch_of (funct3 word) (rs1_of word) (rs2_of word) (imm_b word) }
{
    match funct3(word) {
        0 => branch(Cond::Eq, word),
        1 => branch(Cond::Ne, word),
        4 => branch(Cond::Lt, word),
        5 => branch(Cond::Ge, word),
        6 => branch(Cond::Ltu, word),
        7 => branch(Cond::Geu, word),
        _ => None,
    }
}

#[inline(always)]
fn branch(cond: Cond, word: u32) -> Option<Inst>
    ensures { result ≡ Some (Branch cond (rs1_of word) (rs2_of word) (imm_b word)) }
{
    Some(Inst::Branch {
        cond,
        rs1: rs1(word),
        rs2: rs2(word),
        offset: imm_b(word),
    })
}

#[inline(always)]
#[tactic(auto, unfolding(crate::specs::Codes::load_of))]
fn loads(word: u32) -> Option<Inst>
    ensures { result ≡ load_of (funct3 word) (rd_of word) (rs1_of word) (imm_i word) }
{
    match funct3(word) {
        0 => load(1, true, word),
        1 => load(2, true, word),
        2 => load(4, true, word),
        4 => load(1, false, word),
        5 => load(2, false, word),
        _ => None,
    }
}

#[inline(always)]
fn load(width: u8, signed: bool, word: u32) -> Option<Inst>
    ensures { result ≡ Some (Load width signed (rd_of word) (rs1_of word) (imm_i word)) }
{
    Some(Inst::Load {
        width,
        signed,
        rd: rd(word),
        rs1: rs1(word),
        imm: imm_i(word),
    })
}

#[inline(always)]
#[tactic(auto, unfolding(crate::specs::Codes::store_of))]
fn stores(word: u32) -> Option<Inst>
    ensures { result ≡ store_of (funct3 word) (rs1_of word) (rs2_of word) (imm_s word) }
{
    match funct3(word) {
        0 => store(1, word),
        1 => store(2, word),
        2 => store(4, word),
        _ => None,
    }
}

#[inline(always)]
fn store(width: u8, word: u32) -> Option<Inst>
    ensures { result ≡ Some (Store width (rs1_of word) (rs2_of word) (imm_s word)) }
{
    Some(Inst::Store {
        width,
        rs1: rs1(word),
        rs2: rs2(word),
        imm: imm_s(word),
    })
}

#[inline(always)]
#[tactic(auto, unfolding(crate::specs::Codes::op_imm_of))]
fn immediates(word: u32) -> Option<Inst>
    ensures { result ≡ op_imm_of (funct3 word) (funct7 word) (rd_of word) (rs1_of word) (rs2_of word) (imm_i word) }
{
    match (funct3(word), funct7(word)) {
        (0, _) => immediate(AluOp::Add, word),
        (2, _) => immediate(AluOp::Slt, word),
        (3, _) => immediate(AluOp::Sltu, word),
        (4, _) => immediate(AluOp::Xor, word),
        (6, _) => immediate(AluOp::Or, word),
        (7, _) => immediate(AluOp::And, word),
        (1, 0x00) => shift(AluOp::Sll, word),
        (5, 0x00) => shift(AluOp::Srl, word),
        (5, 0x20) => shift(AluOp::Sra, word),
        _ => None,
    }
}

#[inline(always)]
fn immediate(op: AluOp, word: u32) -> Option<Inst>
    ensures { result ≡ Some (OpImm op (rd_of word) (rs1_of word) (imm_i word)) }
{
    Some(Inst::OpImm {
        op,
        rd: rd(word),
        rs1: rs1(word),
        imm: imm_i(word),
    })
}

#[inline(always)]
fn shift(op: AluOp, word: u32) -> Option<Inst>
    ensures { result ≡ Some (OpImm op (rd_of word) (rs1_of word) (pos (rs2_of word))) }
{
    Some(Inst::OpImm {
        op,
        rd: rd(word),
        rs1: rs1(word),
        imm: i32::from(rs2(word)),
    })
}

#[inline(always)]
#[tactic(auto, unfolding(crate::specs::Codes::op_of))]
fn operations(word: u32) -> Option<Inst>
    ensures { result ≡ op_of (funct3 word) (funct7 word) (rd_of word) (rs1_of word) (rs2_of word) }
{
    match funct7(word) {
        0x00 => base_operations(word),
        0x20 => other_operations(word),
        0x01 => multiplications(word),
        _ => None,
    }
}

#[inline(always)]
#[tactic(auto, unfolding(crate::specs::Codes::base_op_of))]
fn base_operations(word: u32) -> Option<Inst>
    ensures { result ≡ base_op_of (funct3 word) (rd_of word) (rs1_of word) (rs2_of word) }
{
    match funct3(word) {
        0 => operation(AluOp::Add, word),
        1 => operation(AluOp::Sll, word),
        2 => operation(AluOp::Slt, word),
        3 => operation(AluOp::Sltu, word),
        4 => operation(AluOp::Xor, word),
        5 => operation(AluOp::Srl, word),
        6 => operation(AluOp::Or, word),
        7 => operation(AluOp::And, word),
        _ => None,
    }
}

#[inline(always)]
#[tactic(auto, unfolding(crate::specs::Codes::other_op_of))]
fn other_operations(word: u32) -> Option<Inst>
    ensures { result ≡ other_op_of (funct3 word) (rd_of word) (rs1_of word) (rs2_of word) }
{
    match funct3(word) {
        0 => operation(AluOp::Sub, word),
        5 => operation(AluOp::Sra, word),
        _ => None,
    }
}

#[inline(always)]
#[tactic(auto, unfolding(crate::specs::Codes::multiply_of))]
fn multiplications(word: u32) -> Option<Inst>
    ensures { result ≡ multiply_of (funct3 word) (rd_of word) (rs1_of word) (rs2_of word) }
{
    match funct3(word) {
        0 => operation(AluOp::Mul, word),
        1 => operation(AluOp::Mulh, word),
        2 => operation(AluOp::Mulhsu, word),
        3 => operation(AluOp::Mulhu, word),
        4 => operation(AluOp::Div, word),
        5 => operation(AluOp::Divu, word),
        6 => operation(AluOp::Rem, word),
        7 => operation(AluOp::Remu, word),
        _ => None,
    }
}

#[inline(always)]
fn operation(op: AluOp, word: u32) -> Option<Inst>
    ensures { result ≡ Some (Op op (rd_of word) (rs1_of word) (rs2_of word)) }
{
    Some(Inst::Op {
        op,
        rd: rd(word),
        rs1: rs1(word),
        rs2: rs2(word),
    })
}

#[inline(always)]
#[tactic(auto, unfolding(crate::specs::Codes::fence_of))]
fn fence(word: u32) -> Option<Inst>
    ensures { result ≡ fence_of (funct3 word) (rd_of word) (rs1_of word) (imm_i word) }
{
    match funct3(word) {
        0 => Some(Inst::Fence {
            rd: rd(word),
            rs1: rs1(word),
            imm: imm_i(word),
        }),
        _ => None,
    }
}

#[inline(always)]
#[tactic(auto, unfolding(crate::specs::Codes::system_of))]
fn system(word: u32) -> Option<Inst>
    ensures { result ≡ system_of word }
{
    match word {
        0x00000073 => Some(Inst::Ecall),
        0x00100073 => Some(Inst::Ebreak),
        _ => None,
    }
}
