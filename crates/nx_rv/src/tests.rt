use super::*;
use nx_base::{AluOp, Cond};

fn jalr(rd: u8, rs1: u8, imm: i32) -> Inst {
    Inst::Jalr { rd, rs1, imm }
}

fn branch(cond: Cond, rs1: u8, rs2: u8, offset: i32) -> Inst {
    Inst::Branch {
        cond,
        rs1,
        rs2,
        offset,
    }
}

fn load(width: u8, signed: bool, rd: u8, rs1: u8, imm: i32) -> Inst {
    Inst::Load {
        width,
        signed,
        rd,
        rs1,
        imm,
    }
}

fn store(width: u8, rs1: u8, rs2: u8, imm: i32) -> Inst {
    Inst::Store {
        width,
        rs1,
        rs2,
        imm,
    }
}

fn op_imm(op: AluOp, rd: u8, rs1: u8, imm: i32) -> Inst {
    Inst::OpImm { op, rd, rs1, imm }
}

fn op(op: AluOp, rd: u8, rs1: u8, rs2: u8) -> Inst {
    Inst::Op { op, rd, rs1, rs2 }
}

fn fence(rd: u8, rs1: u8, imm: i32) -> Inst {
    Inst::Fence { rd, rs1, imm }
}

// The words are clang's, for riscv32 with the extension M.
#[test]
fn words_of_an_assembler(rt: HostRuntime) {
    let rows = [
        (0x00000013, op_imm(AluOp::Add, 0, 0, 0)),
        (
            0x800402B7,
            Inst::Lui {
                rd: 5,
                imm: 0x80040000,
            },
        ),
        (
            0xFFFFF317,
            Inst::Auipc {
                rd: 6,
                imm: 0xFFFFF000,
            },
        ),
        (0x008000EF, Inst::Jal { rd: 1, offset: 8 }),
        (0xFFDFF06F, Inst::Jal { rd: 0, offset: -4 }),
        (
            0x26BA6FEF,
            Inst::Jal {
                rd: 31,
                offset: 0xA6A6A,
            },
        ),
        (0x00008067, jalr(0, 1, 0)),
        (0x81450063, branch(Cond::Eq, 10, 20, -4096)),
        (0x7F559FE3, branch(Cond::Ne, 11, 21, 4094)),
        (0xFF664FE3, branch(Cond::Lt, 12, 22, -2)),
        (0x0176D1E3, branch(Cond::Ge, 13, 23, 2050)),
        (0x55876A63, branch(Cond::Ltu, 14, 24, 1364)),
        (0xAB97F5E3, branch(Cond::Geu, 15, 25, -1366)),
        (0x80040183, load(1, true, 3, 8, -2048)),
        (0x7FF49203, load(2, true, 4, 9, 2047)),
        (0xFFF52283, load(4, true, 5, 10, -1)),
        (0x0005C303, load(1, false, 6, 11, 0)),
        (0x55565383, load(2, false, 7, 12, 1365)),
        (0x80DE0023, store(1, 28, 13, -2048)),
        (0x7EEE9FA3, store(2, 29, 14, 2047)),
        (0xFEFF2FA3, store(4, 30, 15, -1)),
        (0xFFFF8093, op_imm(AluOp::Add, 1, 31, -1)),
        (0x7FFF2113, op_imm(AluOp::Slt, 2, 30, 2047)),
        (0x800EB193, op_imm(AluOp::Sltu, 3, 29, -2048)),
        (0x001E4213, op_imm(AluOp::Xor, 4, 28, 1)),
        (0xAAADE293, op_imm(AluOp::Or, 5, 27, -1366)),
        (0x555D7313, op_imm(AluOp::And, 6, 26, 1365)),
        (0x01FF9093, op_imm(AluOp::Sll, 1, 31, 31)),
        (0x001F5113, op_imm(AluOp::Srl, 2, 30, 1)),
        (0x410ED193, op_imm(AluOp::Sra, 3, 29, 16)),
        (0x002F80B3, op(AluOp::Add, 1, 31, 2)),
        (0x403F0133, op(AluOp::Sub, 2, 30, 3)),
        (0x004E91B3, op(AluOp::Sll, 3, 29, 4)),
        (0x005E2233, op(AluOp::Slt, 4, 28, 5)),
        (0x006DB2B3, op(AluOp::Sltu, 5, 27, 6)),
        (0x007D4333, op(AluOp::Xor, 6, 26, 7)),
        (0x008CD3B3, op(AluOp::Srl, 7, 25, 8)),
        (0x409C5433, op(AluOp::Sra, 8, 24, 9)),
        (0x00ABE4B3, op(AluOp::Or, 9, 23, 10)),
        (0x00BB7533, op(AluOp::And, 10, 22, 11)),
        (0x02CA85B3, op(AluOp::Mul, 11, 21, 12)),
        (0x02DA1633, op(AluOp::Mulh, 12, 20, 13)),
        (0x02E9A6B3, op(AluOp::Mulhsu, 13, 19, 14)),
        (0x02F93733, op(AluOp::Mulhu, 14, 18, 15)),
        (0x0308C7B3, op(AluOp::Div, 15, 17, 16)),
        (0x03185833, op(AluOp::Divu, 16, 16, 17)),
        (0x0327E8B3, op(AluOp::Rem, 17, 15, 18)),
        (0x03377933, op(AluOp::Remu, 18, 14, 19)),
        (0x0FF0000F, fence(0, 0, 255)),
        (0x8330000F, fence(0, 0, -1997)),
        (0x00000073, Inst::Ecall),
        (0x00100073, Inst::Ebreak),
    ];
    for (word, inst) in &rows {
        let found = decode(*word);
        assert_eq!(rt; found, Some(*inst), "at {word}");
        if let Some(found) = found {
            assert_eq!(rt; encode(&found), *word);
        }
    }
}

#[test]
fn words_of_no_row(rt: HostRuntime) {
    let words = [
        0x00000000, // all zeros
        0xFFFFFFFF, // all ones
        0x00002063, // opcode 0x63, funct3 2
        0x00003003, // a load of 8 bytes
        0x00006003, // an unsigned load of 4
        0x00003023, // a store of 8
        0x02001013, // a shift by 32
        0x40001013, // to the left, with the bit of SRAI
        0x40004033, // XOR with the bit of SUB
        0x04000033, // an unknown funct7
        0x00001067, // JALR with funct3 1
        0x0000100F, // FENCE.I
        0x00200073, // URET
        0x10500073, // WFI
        0x00000173, // ECALL with an rd
    ];
    for word in words {
        assert_eq!(rt; decode(word), None, "at {word}");
    }
}

// Of a field that is out of range the bits of its format count.
#[test]
fn fields_out_of_range_are_cut(rt: HostRuntime) {
    let rows = [
        (op(AluOp::Add, 33, 63, 66), op(AluOp::Add, 1, 31, 2)),
        (
            op_imm(AluOp::Add, 0, 0, 4096 + 5),
            op_imm(AluOp::Add, 0, 0, 5),
        ),
        (branch(Cond::Eq, 0, 0, 7), branch(Cond::Eq, 0, 0, 6)),
        (
            Inst::Lui {
                rd: 255,
                imm: 0x12345FFF,
            },
            Inst::Lui {
                rd: 31,
                imm: 0x12345000,
            },
        ),
    ];
    for (given, cut) in rows {
        assert_eq!(rt; encode(&given), encode(&cut));
    }
}
