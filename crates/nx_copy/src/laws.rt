ghost use Rattle.std.specs.Prelude.{◌≡◌, ℕ, List, Ok};
ghost use Rattle.nx_base.specs.declared.access.Access.TheVariants as access;
ghost use Rattle.nx_base.specs.declared.calls.Kind.{Kind};
ghost use Rattle.nx_base.specs.declared.regs.Regs.{Regs};
ghost use Rattle.nx_base.specs.Calls.{Call, Rows};
ghost use Rattle.nx_base.specs.Copying.{cook, words_from};
ghost use Rattle.nx_base.specs.Good.{is_good};
ghost use Rattle.nx_base.specs.Registers.{reg};
ghost use Rattle.nx_base.specs.Views.{View};
ghost use Rattle.nx_copy.specs.Copies.{AreGoodOutputs};

/// A law: where a call was taken from registers and a view, the bytes of its outputs are good for
/// storing, and they stay so in a view in which what was good is good.
pub fn what_was_taken_can_be_answered()
    ensures taken { (rows : Rows) (v : View) (regs : Regs) (c : Call) → cook rows v regs ≡ Ok c → AreGoodOutputs v (rows (reg regs 10)).kinds (words_from regs 11 (rows (reg regs 10)).kinds) }
    ensures stays { (v w : View) (kinds : List Kind) (words : List ℕ) → ((at n : ℕ) → is_good w at n access.Store ≡ is_good v at n access.Store) → AreGoodOutputs v kinds words → AreGoodOutputs w kinds words }
{}
