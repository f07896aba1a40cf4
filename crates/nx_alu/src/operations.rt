ghost use Rattle.std.specs.Prelude.{◌≡◌, ◌*ℤ◌};
ghost use Rattle.nx_base.specs.Arithmetic.{alu_of, taken_of, upper_of, signed};

use nx_base::{AluOp, Cond};

/// What an operation on two words gives. RISC-V Unprivileged ISA, RV32I 2.1 section 2.4 and M 2.0.
#[tactic(auto, unfolding(nx_base::specs::Arithmetic::alu_of))]
pub fn alu(op: AluOp, a: u32, b: u32) -> u32
    ensures { result ≡ alu_of op a b }
{
    match op {
        AluOp::Add => a.wrapping_add(b),
        AluOp::Sub => a.wrapping_sub(b),
        AluOp::Sll => a.wrapping_shl(b),
        AluOp::Slt => u32::from(a.cast_signed() < b.cast_signed()),
        AluOp::Sltu => u32::from(a < b),
        AluOp::Xor => a ^ b,
        AluOp::Srl => a.wrapping_shr(b),
        AluOp::Sra => a.cast_signed().wrapping_shr(b).cast_unsigned(),
        AluOp::Or => a | b,
        AluOp::And => a & b,
        AluOp::Mul => a.wrapping_mul(b),
        AluOp::Mulh => upper_signed(a.cast_signed(), b.cast_signed()),
        AluOp::Mulhsu => upper(i64::from(a.cast_signed()) * i64::from(b)),
        AluOp::Mulhu => (u64::from(a) * u64::from(b) / 4294967296) as u32,
        AluOp::Div if b == 0 => u32::MAX,
        AluOp::Div => a
            .cast_signed()
            .wrapping_div(b.cast_signed())
            .cast_unsigned(),
        AluOp::Divu if b == 0 => u32::MAX,
        AluOp::Divu => a / b,
        AluOp::Rem if b == 0 => a,
        AluOp::Rem => a
            .cast_signed()
            .wrapping_rem(b.cast_signed())
            .cast_unsigned(),
        AluOp::Remu if b == 0 => a,
        AluOp::Remu => a % b,
    }
}

// The upper 32 of the 64 bits of a product of signed numbers.
fn upper_signed(a: i32, b: i32) -> u32
    ensures { result ≡ upper_of (a *ℤ b) }
{
    upper(i64::from(a) * i64::from(b))
}

// The upper 32 of the 64 bits of a product.
fn upper(product: i64) -> u32
    ensures { result ≡ upper_of product }
{
    (product.cast_unsigned() / 4294967296) as u32
}

/// Whether a branch on two words is taken. RISC-V Unprivileged ISA, RV32I 2.1 section 2.5.
#[tactic(auto, unfolding(nx_base::specs::Arithmetic::taken_of))]
pub fn taken(cond: Cond, a: u32, b: u32) -> bool
    ensures { result ≡ taken_of cond a b }
{
    match cond {
        Cond::Eq => a == b,
        Cond::Ne => a != b,
        Cond::Lt => a.cast_signed() < b.cast_signed(),
        Cond::Ge => a.cast_signed() >= b.cast_signed(),
        Cond::Ltu => a < b,
        Cond::Geu => a >= b,
    }
}
