ghost use Rattle.std.specs.Prelude.{◌≡◌, ℕ, ◌^◌, ◌<◌, Some};
ghost use Rattle.nx_base.specs.declared.regs.Regs.{Regs};
ghost use Rattle.nx_base.specs.Views.{View};
ghost use Rattle.nx_rv.specs.declared.inst.Inst.{Inst};
ghost use Rattle.nx_rv.specs.Execution.{HaltsInPlace, turn};
ghost use Rattle.nx_rv.specs.Table.{Row, IsInRange, decode_of, encode_of};

/// A law: a word that decodes is the one that its instruction encodes to.
pub fn a_decoded_word_encodes_to_itself()
    ensures { (w : ℕ) (i : Inst) → w < 2 ^ 32 → decode_of w ≡ Some i → encode_of i ≡ w }
{}

/// A law: an instruction whose fields are in range is the one that its word decodes to.
pub fn an_encoded_instruction_decodes_to_itself()
    ensures { (i : Inst) → IsInRange i → decode_of (encode_of i) ≡ Some i }
{}

/// A law: the table gives a word one instruction, and an instruction one word.
pub fn the_table_is_one_to_one()
    ensures instruction { (w : ℕ) (i j : Inst) → Row w i → Row w j → i ≡ j }
    ensures word { (v w : ℕ) (i : Inst) → Row v i → Row w i → v ≡ w }
{}

/// A law: an instruction that traps leaves the registers, the pc and the view as they were, and so
/// does a call, except that the pc is then at the next instruction.
pub fn an_instruction_halts_in_place()
    ensures { (r : Regs) (v : View) → HaltsInPlace r v (turn r v) }
{}
