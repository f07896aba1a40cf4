/// An operation on two words. RISC-V Unprivileged ISA, RV32I 2.1 section 2.4 and M 2.0.
#[derive(Clone, Copy, Debug, PartialEq, Eq)]
pub enum AluOp {
    /// The sum, modulo 2^32.
    Add,
    /// The difference, modulo 2^32.
    Sub,
    /// The first word shifted left by the low five bits of the second.
    Sll,
    /// 1 where the first is less than the second as signed words, else 0.
    Slt,
    /// 1 where the first is less than the second as unsigned words, else 0.
    Sltu,
    /// The exclusive or of the bits.
    Xor,
    /// The first word shifted right by the low five bits of the second, with zeros.
    Srl,
    /// The same, with copies of the sign bit.
    Sra,
    /// The or of the bits.
    Or,
    /// The and of the bits.
    And,
    /// The low 32 bits of the product.
    Mul,
    /// The high 32 bits of the product of signed words.
    Mulh,
    /// The high 32 bits of the product of a signed and an unsigned word.
    Mulhsu,
    /// The high 32 bits of the product of unsigned words.
    Mulhu,
    /// The quotient of signed words, toward zero.
    Div,
    /// The quotient of unsigned words.
    Divu,
    /// The remainder of signed words, with the sign of the first.
    Rem,
    /// The remainder of unsigned words.
    Remu,
}

/// A comparison of two words that a branch makes. RISC-V Unprivileged ISA, RV32I 2.1 section 2.5.
#[derive(Clone, Copy, Debug, PartialEq, Eq)]
pub enum Cond {
    /// Equal.
    Eq,
    /// Not equal.
    Ne,
    /// Less, as signed words.
    Lt,
    /// Not less, as signed words.
    Ge,
    /// Less, as unsigned words.
    Ltu,
    /// Not less, as unsigned words.
    Geu,
}
