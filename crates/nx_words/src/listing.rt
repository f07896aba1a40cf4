ghost use Rattle.std.specs.Prelude.{◌≡◌, IfSome, MatchOption, None};
ghost use Rattle.nx_rv.specs.Table.{decode_of};

use nx_base::{AluOp, Cond};
use nx_rv::{Inst, decode, encode};
use std::fmt;

/// The instruction of a word, with the word that it encodes to.
pub fn round_trip(word: u32) -> Option<(Inst, u32)>
    ensures instruction { MatchOption result (decode_of word ≡ None) (λ found. decode_of word ≡ Some found.0) }
    ensures encoded { IfSome result (λ found. found.1 ≡ word) }
{
    let inst = decode(word)?;
    Some((inst, encode(&inst)))
}

/// Prints an instruction as the manual's mnemonic and the fields by name, in decimal.
#[derive(Clone, Copy, Debug, PartialEq, Eq)]
pub struct Listing(pub Inst);

impl fmt::Display for Listing {
    fn fmt<W: fmt::Write>(&self, f: &mut fmt::Formatter<W>) -> fmt::Result {
        match self.0 {
            Inst::Lui { rd, imm } => write!(f, "lui rd={rd} imm={imm}"),
            Inst::Auipc { rd, imm } => write!(f, "auipc rd={rd} imm={imm}"),
            Inst::Jal { rd, offset } => write!(f, "jal rd={rd} offset={offset}"),
            Inst::Jalr { rd, rs1, imm } => write!(f, "jalr rd={rd} rs1={rs1} imm={imm}"),
            Inst::Branch {
                cond,
                rs1,
                rs2,
                offset,
            } => {
                let name = branch_name(cond);
                write!(f, "{name} rs1={rs1} rs2={rs2} offset={offset}")
            }
            Inst::Load {
                width,
                signed,
                rd,
                rs1,
                imm,
            } => {
                let name = load_name(width, signed);
                write!(f, "{name} rd={rd} rs1={rs1} imm={imm}")
            }
            Inst::Store {
                width,
                rs1,
                rs2,
                imm,
            } => {
                let name = store_name(width);
                write!(f, "{name} rs1={rs1} rs2={rs2} imm={imm}")
            }
            Inst::OpImm { op, rd, rs1, imm } => {
                let name = immediate_name(op);
                write!(f, "{name} rd={rd} rs1={rs1} imm={imm}")
            }
            Inst::Op { op, rd, rs1, rs2 } => {
                let name = operation_name(op);
                write!(f, "{name} rd={rd} rs1={rs1} rs2={rs2}")
            }
            Inst::Fence { rd, rs1, imm } => write!(f, "fence rd={rd} rs1={rs1} imm={imm}"),
            Inst::Ecall => write!(f, "ecall"),
            Inst::Ebreak => write!(f, "ebreak"),
        }
    }
}

fn branch_name(cond: Cond) -> &'static str {
    match cond {
        Cond::Eq => "beq",
        Cond::Ne => "bne",
        Cond::Lt => "blt",
        Cond::Ge => "bge",
        Cond::Ltu => "bltu",
        Cond::Geu => "bgeu",
    }
}

fn load_name(width: u8, signed: bool) -> &'static str {
    match (width, signed) {
        (1, true) => "lb",
        (1, false) => "lbu",
        (2, true) => "lh",
        (2, false) => "lhu",
        _ => "lw",
    }
}

fn store_name(width: u8) -> &'static str {
    match width {
        1 => "sb",
        2 => "sh",
        _ => "sw",
    }
}

// No word has an immediate under an operation of the last arm.
fn immediate_name(op: AluOp) -> &'static str {
    match op {
        AluOp::Add => "addi",
        AluOp::Slt => "slti",
        AluOp::Sltu => "sltiu",
        AluOp::Xor => "xori",
        AluOp::Or => "ori",
        AluOp::And => "andi",
        AluOp::Sll => "slli",
        AluOp::Srl => "srli",
        AluOp::Sra => "srai",
        _ => operation_name(op),
    }
}

fn operation_name(op: AluOp) -> &'static str {
    match op {
        AluOp::Add => "add",
        AluOp::Sub => "sub",
        AluOp::Sll => "sll",
        AluOp::Slt => "slt",
        AluOp::Sltu => "sltu",
        AluOp::Xor => "xor",
        AluOp::Srl => "srl",
        AluOp::Sra => "sra",
        AluOp::Or => "or",
        AluOp::And => "and",
        AluOp::Mul => "mul",
        AluOp::Mulh => "mulh",
        AluOp::Mulhsu => "mulhsu",
        AluOp::Mulhu => "mulhu",
        AluOp::Div => "div",
        AluOp::Divu => "divu",
        AluOp::Rem => "rem",
        AluOp::Remu => "remu",
    }
}
