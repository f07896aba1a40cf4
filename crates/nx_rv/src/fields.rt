ghost use Rattle.std.specs.Prelude.{◌≡◌, ◌+◌, ◌*◌, ◌%◌, ◌^◌, ◌<◌, ◌≤◌};
ghost use Rattle.std.specs.Int.{w32, cast_unsigned};
ghost use Rattle.nx_rv.specs.Formats.{opcode, rd_of, funct3, rs1_of, rs2_of, funct7, extended, IsWithin, imm_i, imm_s, imm_b, imm_u, imm_j, pack, pack_i, pack_s, pack_b, pack_u, pack_j};

/// Bits 6 to 0. RISC-V Unprivileged ISA, RV32I 2.1 section 2.2.
#[tactic(auto, unfolding(crate::specs::Formats::opcode))]
pub fn opcode(word: u32) -> u8
    ensures value { result ≡ opcode word }
    ensures small { result < 128 }
{
    (word % 128) as u8
}

/// Bits 11 to 7.
#[tactic(auto, unfolding(crate::specs::Formats::rd_of))]
pub fn rd(word: u32) -> u8
    ensures value { result ≡ rd_of word }
    ensures small { result < 32 }
{
    (word / 128 % 32) as u8
}

/// Bits 14 to 12.
#[tactic(auto, unfolding(crate::specs::Formats::funct3))]
pub fn funct3(word: u32) -> u8
    ensures value { result ≡ funct3 word }
    ensures small { result < 8 }
{
    (word / 128 / 32 % 8) as u8
}

/// Bits 19 to 15.
#[tactic(auto, unfolding(crate::specs::Formats::rs1_of))]
pub fn rs1(word: u32) -> u8
    ensures value { result ≡ rs1_of word }
    ensures small { result < 32 }
{
    (word / 128 / 32 / 8 % 32) as u8
}

/// Bits 24 to 20.
#[tactic(auto, unfolding(crate::specs::Formats::rs2_of))]
pub fn rs2(word: u32) -> u8
    ensures value { result ≡ rs2_of word }
    ensures small { result < 32 }
{
    (word / 128 / 32 / 8 / 32 % 32) as u8
}

/// Bits 31 to 25.
#[tactic(auto, unfolding(crate::specs::Formats::funct7))]
pub fn funct7(word: u32) -> u8
    ensures value { result ≡ funct7 word }
    ensures small { result < 128 }
{
    (word / 128 / 32 / 8 / 32 / 32) as u8
}

// A number of fewer bits, whose sign is at half its range.
#[tactic(auto, unfolding(crate::specs::Formats::extended))]
fn extend(half: u32, n: u32) -> i32
    requires small { half ≤ 1048576 }
    requires below { n < 2 * half }
    ensures { result ≡ extended half n }
{
    if n < half {
        n.cast_signed()
    } else {
        (n + (u32::MAX - 2 * half + 1)).cast_signed()
    }
}

/// The immediate of format I. RISC-V Unprivileged ISA, RV32I 2.1 section 2.3.
#[tactic(auto, unfolding(crate::specs::Formats::imm_i))]
pub fn imm_i(word: u32) -> i32
    ensures { result ≡ imm_i word }
{
    extend(2048, rs2(word) as u32 + 32 * funct7(word) as u32)
}

/// The immediate of format S.
#[tactic(auto, unfolding(crate::specs::Formats::imm_s))]
pub fn imm_s(word: u32) -> i32
    ensures { result ≡ imm_s word }
{
    extend(2048, rd(word) as u32 + 32 * funct7(word) as u32)
}

/// The immediate of format B.
#[tactic(auto, unfolding(crate::specs::Formats::imm_b))]
pub fn imm_b(word: u32) -> i32
    ensures { result ≡ imm_b word }
{
    let (low, high) = (rd(word) as u32, funct7(word) as u32);
    let middle = 2 * (low / 2) + 32 * (high % 64);
    extend(4096, middle + 2048 * (low % 2) + 4096 * (high / 64))
}

/// The immediate of format U.
#[tactic(auto, unfolding(crate::specs::Formats::imm_u))]
pub fn imm_u(word: u32) -> u32
    ensures { result ≡ imm_u word }
{
    word / 4096 * 4096
}

/// The immediate of format J.
#[tactic(auto, unfolding(crate::specs::Formats::imm_j))]
pub fn imm_j(word: u32) -> i32
    ensures { result ≡ imm_j word }
{
    let (middle, high) = (rs2(word) as u32, funct7(word) as u32);
    let low = 2 * (middle / 2 + 16 * (high % 64)) + 2048 * (middle % 2);
    let upper = funct3(word) as u32 + 8 * rs1(word) as u32;
    extend(1048576, low + 4096 * upper + 1048576 * (high / 64))
}

// A word from its fields.
#[tactic(auto, unfolding(crate::specs::Formats::pack))]
fn pack(code: u32, rd: u32, f3: u32, rs1: u32, rs2: u32, f7: u32) -> u32
    requires code_fits { code < 128 }
    requires rd_fits { rd < 32 }
    requires f3_fits { f3 < 8 }
    requires rs1_fits { rs1 < 32 }
    requires rs2_fits { rs2 < 32 }
    requires f7_fits { f7 < 128 }
    ensures { result ≡ pack code rd f3 rs1 rs2 f7 }
{
    code + 128 * (rd + 32 * (f3 + 8 * (rs1 + 32 * (rs2 + 32 * f7))))
}

/// A word of format R.
pub fn pack_r(code: u8, rd: u8, f3: u8, rs1: u8, rs2: u8, f7: u8) -> u32
    requires code_fits { code < 128 }
    requires rd_fits { rd < 32 }
    requires f3_fits { f3 < 8 }
    requires rs1_fits { rs1 < 32 }
    requires rs2_fits { rs2 < 32 }
    requires f7_fits { f7 < 128 }
    ensures { result ≡ pack code rd f3 rs1 rs2 f7 }
{
    pack(
        code as u32,
        rd as u32,
        f3 as u32,
        rs1 as u32,
        rs2 as u32,
        f7 as u32,
    )
}

/// A word of format I, with the low 12 bits of its immediate.
#[tactic(auto, unfolding(crate::specs::Formats::pack_i))]
pub fn pack_i(code: u8, rd: u8, f3: u8, rs1: u8, n: u32) -> u32
    requires code_fits { code < 128 }
    requires rd_fits { rd < 32 }
    requires f3_fits { f3 < 8 }
    requires rs1_fits { rs1 < 32 }
    requires imm_fits { n < 4096 }
    ensures { result ≡ pack_i code rd f3 rs1 n }
{
    pack(
        code as u32,
        rd as u32,
        f3 as u32,
        rs1 as u32,
        n % 32,
        n / 32,
    )
}

/// A word of format S, with the low 12 bits of its immediate.
#[tactic(auto, unfolding(crate::specs::Formats::pack_s))]
pub fn pack_s(code: u8, f3: u8, rs1: u8, rs2: u8, n: u32) -> u32
    requires code_fits { code < 128 }
    requires f3_fits { f3 < 8 }
    requires rs1_fits { rs1 < 32 }
    requires rs2_fits { rs2 < 32 }
    requires imm_fits { n < 4096 }
    ensures { result ≡ pack_s code f3 rs1 rs2 n }
{
    pack(
        code as u32,
        n % 32,
        f3 as u32,
        rs1 as u32,
        rs2 as u32,
        n / 32,
    )
}

/// A word of format B, with the low 13 bits of its immediate.
#[tactic(auto, unfolding(crate::specs::Formats::pack_b))]
pub fn pack_b(code: u8, f3: u8, rs1: u8, rs2: u8, n: u32) -> u32
    requires code_fits { code < 128 }
    requires f3_fits { f3 < 8 }
    requires rs1_fits { rs1 < 32 }
    requires rs2_fits { rs2 < 32 }
    requires imm_fits { n < 8192 }
    ensures { result ≡ pack_b code f3 rs1 rs2 n }
{
    pack(
        code as u32,
        2 * (n / 2 % 16) + n / 2048 % 2,
        f3 as u32,
        rs1 as u32,
        rs2 as u32,
        n / 32 % 64 + 64 * (n / 4096),
    )
}

/// A word of format U.
#[tactic(auto, unfolding(crate::specs::Formats::pack_u))]
pub fn pack_u(code: u8, rd: u8, imm: u32) -> u32
    requires code_fits { code < 128 }
    requires rd_fits { rd < 32 }
    requires imm_fits { imm % 4096 ≡ 0 }
    ensures { result ≡ pack_u code rd imm }
{
    code as u32 + 128 * rd as u32 + imm
}

/// A word of format J, with the low 21 bits of its immediate.
#[tactic(auto, unfolding(crate::specs::Formats::pack_j))]
pub fn pack_j(code: u8, rd: u8, n: u32) -> u32
    requires code_fits { code < 128 }
    requires rd_fits { rd < 32 }
    requires imm_fits { n < 2097152 }
    ensures { result ≡ pack_j code rd n }
{
    pack(
        code as u32,
        rd as u32,
        n / 4096 % 8,
        n / 4096 / 8 % 32,
        2 * (n / 2 % 16) + n / 2048 % 2,
        n / 32 % 64 + 64 * (n / 1048576),
    )
}
