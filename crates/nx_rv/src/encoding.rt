ghost use Rattle.std.specs.Prelude.{◌≡◌, ◌<◌};
ghost use Rattle.nx_rv.specs.Formats.{low_bits};
ghost use Rattle.nx_rv.specs.Codes.{branch_funct3, load_funct3, store_funct3, op_funct3, op_funct7, is_shift};
ghost use Rattle.nx_rv.specs.Table.{Row, IsInRange, FitsOpImm, encode_of, op_imm_word};

use crate::fields::{pack_b, pack_i, pack_j, pack_r, pack_s, pack_u};
use crate::inst::Inst;
use nx_base::{AluOp, Cond};

/// The word of an instruction. Of each field only the bits that its format has count. Where the
/// fields are in range, the word decodes to this instruction.
#[tactic(auto, using(crate::proofs::Rows::encoded_row))]
pub fn encode(inst: &Inst) -> u32
    ensures table { result ≡ encode_of inst.now }
    ensures row { IsInRange inst.now → Row result inst.now }
{
    word_of(inst)
}

// The table, read from instructions to words.
#[tactic(auto, unfolding(crate::specs::Table::encode_of, crate::specs::Table::masked, crate::specs::Table::table_word))]
fn word_of(inst: &Inst) -> u32
    ensures { result ≡ encode_of inst.now }
{
    match *inst {
        Inst::Lui { rd, imm } => pack_u(0x37, rd % 32, imm / 4096 * 4096),
        Inst::Auipc { rd, imm } => pack_u(0x17, rd % 32, imm / 4096 * 4096),
        Inst::Jal { rd, offset } => pack_j(0x6F, rd % 32, low_bits(2097152, offset)),
        Inst::Jalr { rd, rs1, imm } => pack_i(0x67, rd % 32, 0, rs1 % 32, low_bits(4096, imm)),
        Inst::Branch {
            cond,
            rs1,
            rs2,
            offset,
        } => {
            pack_b(
                0x63,
                branch_funct3(cond),
                rs1 % 32,
                rs2 % 32,
                low_bits(8192, offset),
            )
        }
        Inst::Load {
            width,
            signed,
            rd,
            rs1,
            imm,
        } => {
            pack_i(
                0x03,
                rd % 32,
                load_funct3(width, signed),
                rs1 % 32,
                low_bits(4096, imm),
            )
        }
        Inst::Store {
            width,
            rs1,
            rs2,
            imm,
        } => {
            pack_s(
                0x23,
                store_funct3(width),
                rs1 % 32,
                rs2 % 32,
                low_bits(4096, imm),
            )
        }
        Inst::OpImm { op, rd, rs1, imm } => op_imm_word(op, rd % 32, rs1 % 32, imm),
        Inst::Op { op, rd, rs1, rs2 } => {
            pack_r(
                0x33,
                rd % 32,
                op_funct3(op),
                rs1 % 32,
                rs2 % 32,
                op_funct7(op),
            )
        }
        Inst::Fence { rd, rs1, imm } => pack_i(0x0F, rd % 32, 0, rs1 % 32, low_bits(4096, imm)),
        Inst::Ecall => 0x00000073,
        Inst::Ebreak => 0x00100073,
    }
}

// An operation with an immediate; a shift has five bits of it.
#[tactic(auto, unfolding(crate::specs::Table::op_imm_word))]
fn op_imm_word(op: AluOp, rd: u8, rs1: u8, imm: i32) -> u32
    requires rd_fits { rd < 32 }
    requires rs1_fits { rs1 < 32 }
    ensures { result ≡ op_imm_word op rd rs1 imm }
{
    if is_shift(op) {
        pack_r(
            0x13,
            rd,
            op_funct3(op),
            rs1,
            low_bits(32, imm) as u8,
            op_funct7(op),
        )
    } else {
        pack_i(0x13, rd, op_funct3(op), rs1, low_bits(4096, imm))
    }
}

// The number's 32 bits modulo a power of two: its low bits.
#[tactic(auto, unfolding(crate::specs::Formats::low_bits))]
fn low_bits(modulus: u32, number: i32) -> u32
    requires { 0 < modulus }
    ensures value { result ≡ low_bits modulus number }
    ensures small { result < modulus }
{
    number.cast_unsigned() % modulus
}

fn branch_funct3(cond: Cond) -> u8
    ensures value { result ≡ branch_funct3 cond }
    ensures small { result < 8 }
{
    match cond {
        Cond::Eq => 0,
        Cond::Ne => 1,
        Cond::Lt => 4,
        Cond::Ge => 5,
        Cond::Ltu => 6,
        Cond::Geu => 7,
    }
}

fn load_funct3(width: u8, signed: bool) -> u8
    ensures value { result ≡ load_funct3 width signed }
    ensures small { result < 8 }
{
    match (width, signed) {
        (1, true) => 0,
        (2, true) => 1,
        (_, true) => 2,
        (1, false) => 4,
        (_, false) => 5,
    }
}

fn store_funct3(width: u8) -> u8
    ensures value { result ≡ store_funct3 width }
    ensures small { result < 8 }
{
    match width {
        1 => 0,
        2 => 1,
        _ => 2,
    }
}

fn op_funct3(op: AluOp) -> u8
    ensures value { result ≡ op_funct3 op }
    ensures small { result < 8 }
{
    match op {
        AluOp::Add | AluOp::Sub | AluOp::Mul => 0,
        AluOp::Sll | AluOp::Mulh => 1,
        AluOp::Slt | AluOp::Mulhsu => 2,
        AluOp::Sltu | AluOp::Mulhu => 3,
        AluOp::Xor | AluOp::Div => 4,
        AluOp::Srl | AluOp::Sra | AluOp::Divu => 5,
        AluOp::Or | AluOp::Rem => 6,
        AluOp::And | AluOp::Remu => 7,
    }
}

fn op_funct7(op: AluOp) -> u8
    ensures value { result ≡ op_funct7 op }
    ensures small { result < 128 }
{
    match op {
        AluOp::Sub | AluOp::Sra => 0x20,
        AluOp::Mul
        | AluOp::Mulh
        | AluOp::Mulhsu
        | AluOp::Mulhu
        | AluOp::Div
        | AluOp::Divu
        | AluOp::Rem
        | AluOp::Remu => 0x01,
        _ => 0x00,
    }
}

fn is_shift(op: AluOp) -> bool
    ensures { result ≡ is_shift op }
{
    matches!(op, AluOp::Sll | AluOp::Srl | AluOp::Sra)
}
