ghost use Rattle.std.specs.Prelude.{◌≡◌, ℕ, List, []};
ghost use Rattle.nx_config.specs.declared.limits.Limits.{Limits};
ghost use Rattle.nx_ktables.specs.declared.tables.Tables.{Tables as AllTables};
ghost use Rattle.nx_kbounds.specs.Laws.{AreLate};
ghost use Rattle.nx_kturns.specs.Standing.{Stands};
ghost use Rattle.nx_kturns.specs.Turns.{IsFirst};

use nx_pool::BlockStore;

/// A law: the tables of boot, with slots for two threads at least, and a store of as many blocks
/// that has handed out no chain, stand for a state that was reached: that of boot.
pub fn boot_stands<B: BlockStore>()
    ensures { (store : B) (limits : Limits) (programs : List (List ℕ)) (input late : List ℕ) (t : AllTables) → IsFirst (B.content store) limits programs input late t → AreLate late
        → B.holds store [] → limits.blocks ≡ B.blocks store → Stands (B.holds store) (B.content store) (B.blocks store) t }
{}
