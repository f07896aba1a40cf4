use super::*;
use nx_base::{AluOp, Cond};

// The edge cases that the manual names: RV32I 2.1 section 2.4, M 2.0 sections 7.1 and 7.2.
#[test]
fn operations_of_the_manual(rt: HostRuntime) {
    let most = 0x80000000;
    let all = 0xFFFFFFFF;
    let cases = [
        (AluOp::Add, all, 1, 0),
        (AluOp::Sub, 0, 1, all),
        (AluOp::Sll, 1, 33, 2),
        (AluOp::Slt, most, 0, 1),
        (AluOp::Slt, 0, all, 0),
        (AluOp::Sltu, 0, all, 1),
        (AluOp::Xor, 0xF0F0, 0xFF00, 0x0FF0),
        (AluOp::Srl, most, 31, 1),
        (AluOp::Sra, most, 31, all),
        (AluOp::Sra, 0x40000000, 36, 0x04000000),
        (AluOp::Or, 0xF0F0, 0xFF00, 0xFFF0),
        (AluOp::And, 0xF0F0, 0xFF00, 0xF000),
        (AluOp::Mul, all, all, 1),
        (AluOp::Mulh, all, all, 0),
        (AluOp::Mulh, most, most, 0x40000000),
        (AluOp::Mulh, most, 0x7FFFFFFF, 0xC0000000),
        (AluOp::Mulhsu, all, all, all),
        (AluOp::Mulhsu, most, all, most),
        (AluOp::Mulhu, all, all, 0xFFFFFFFE),
        (AluOp::Div, 7, 0, all),
        (AluOp::Div, most, all, most),
        (AluOp::Div, 0xFFFFFFF9, 2, 0xFFFFFFFD),
        (AluOp::Divu, 7, 0, all),
        (AluOp::Divu, most, all, 0),
        (AluOp::Rem, 7, 0, 7),
        (AluOp::Rem, most, all, 0),
        (AluOp::Rem, 0xFFFFFFF9, 2, all),
        (AluOp::Remu, 7, 0, 7),
        (AluOp::Remu, most, all, most),
    ];
    for (op, a, b, result) in cases {
        assert_eq!(rt; alu(op, a, b), result, "{op:?} of {a} and {b}");
    }
}

#[test]
fn branches_of_the_manual(rt: HostRuntime) {
    let cases = [
        (Cond::Eq, 1, 1, true),
        (Cond::Ne, 1, 1, false),
        (Cond::Lt, 0xFFFFFFFF, 0, true),
        (Cond::Lt, 5, 5, false),
        (Cond::Ge, 0xFFFFFFFF, 0, false),
        (Cond::Ge, 5, 5, true),
        (Cond::Ltu, 0xFFFFFFFF, 0, false),
        (Cond::Geu, 0xFFFFFFFF, 0, true),
    ];
    for (cond, a, b, result) in cases {
        assert_eq!(rt; taken(cond, a, b), result, "{cond:?} of {a} and {b}");
    }
}
