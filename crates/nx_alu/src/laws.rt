ghost use Rattle.std.specs.Prelude.{◌≡◌, ◌≢◌, ℕ, ◌+◌, ◌-◌, ◌*◌, ◌^◌, ◌<◌, not, pos, ◌+ℤ◌, ◌*ℤ◌, unsigned_abs, int_rem};
ghost use Rattle.std.specs.Int.{w64, cast_unsigned};
ghost use Rattle.nx_base.specs.declared.operations.AluOp.TheVariants.{Mul, Mulh, Mulhsu, Mulhu, Div, Divu, Rem, Remu};
ghost use Rattle.nx_base.specs.declared.operations.Cond.TheVariants.{Eq, Ne, Lt, Ge, Ltu, Geu};
ghost use Rattle.nx_base.specs.Arithmetic.{alu_of, taken_of, signed};

/// A law: the upper and the lower half make up the product, of signed words, of a signed and an
/// unsigned one, and of unsigned ones.
pub fn halves_make_the_product()
    ensures signed { (a b : ℕ) → a < 2 ^ 32 → b < 2 ^ 32 → cast_unsigned w64 (signed a *ℤ signed b) ≡ 2 ^ 32 * alu_of Mulh a b + alu_of Mul a b }
    ensures mixed { (a b : ℕ) → a < 2 ^ 32 → b < 2 ^ 32 → cast_unsigned w64 (signed a *ℤ pos b) ≡ 2 ^ 32 * alu_of Mulhsu a b + alu_of Mul a b }
    ensures unsigned { (a b : ℕ) → a * b ≡ 2 ^ 32 * alu_of Mulhu a b + alu_of Mul a b }
{}

/// A law: the dividend is the divisor times the quotient and the remainder, which is smaller than
/// the divisor, except in a division by zero and in the signed one that overflows.
pub fn quotient_and_remainder_make_the_dividend()
    ensures signed { (a b : ℕ) → a < 2 ^ 32 → b < 2 ^ 32 → 0 < b → (b ≡ 2 ^ 32 - 1 → a ≢ 2 ^ 31) → signed (alu_of Div a b) *ℤ signed b +ℤ signed (alu_of Rem a b) ≡ signed a }
    ensures signed_smaller { (a b : ℕ) → a < 2 ^ 32 → b < 2 ^ 32 → 0 < b → unsigned_abs (signed (alu_of Rem a b)) < unsigned_abs (signed b) }
    ensures unsigned { (a b : ℕ) → 0 < b → b * alu_of Divu a b + alu_of Remu a b ≡ a }
    ensures unsigned_smaller { (a b : ℕ) → 0 < b → alu_of Remu a b < b }
{}

/// A law: of two opposite branches exactly one is taken.
pub fn branches_come_in_pairs()
    ensures equal { (a b : ℕ) → taken_of Ne a b ≡ not (taken_of Eq a b) }
    ensures signed { (a b : ℕ) → taken_of Ge a b ≡ not (taken_of Lt a b) }
    ensures unsigned { (a b : ℕ) → taken_of Geu a b ≡ not (taken_of Ltu a b) }
{}
