ghost use Rattle.std.specs.Prelude.{◌≡◌, ℕ, ◌+◌, ◌^◌, ◌<◌, ◌≤◌, min, List, [], ◌∷◌, length, Ok};
ghost use Rattle.nx_base.specs.declared.calls.Kind.{Kind};
ghost use Rattle.nx_base.specs.declared.calls.KCall.{KCall};
ghost use Rattle.nx_base.specs.declared.regs.Regs.{Regs};
ghost use Rattle.nx_base.specs.Calls.{Call, Rows, IsWellFormed};
ghost use Rattle.nx_base.specs.Copying.{cook, deliver};
ghost use Rattle.nx_base.specs.Ranges.{OnlyIn, shape_of};
ghost use Rattle.nx_base.specs.KernelCalls.{kinds_of};
ghost use Rattle.nx_base.specs.Replies.{output_rooms, FitsCall};
ghost use Rattle.nx_base.specs.Views.{View, fetch_word, load_bytes, store_bytes, AreApart};

/// A law: after a store a load of its bytes gives what was stored, where they may be loaded at
/// all, and every load and fetch of other bytes gives what it gave before.
pub fn a_store_changes_its_bytes_alone()
    ensures same { (v new : View) (at n x y : ℕ) → x < 256 ^ n → load_bytes v at n ≡ Ok y → store_bytes v at n x ≡ Ok new → load_bytes new at n ≡ Ok x }
    ensures load { (v new : View) (at n x b m : ℕ) → AreApart at n b m → store_bytes v at n x ≡ Ok new → load_bytes new b m ≡ load_bytes v b m }
    ensures fetch { (v new : View) (at n x b : ℕ) → AreApart at n b 4 → store_bytes v at n x ≡ Ok new → fetch_word new b ≡ fetch_word v b }
{}

/// A law: no call of the kernel's table has more than two outputs, and a reply without bytes fits
/// every call. Of `mq_receive` the outputs are a message of at most its size and of at most
/// 4,096 bytes, and a priority of four bytes.
pub fn a_call_has_at_most_two_outputs()
    ensures two { (c : KCall) (words : List ℕ) → length (output_rooms (kinds_of c) words) ≤ 2 }
    ensures none { (kinds : List Kind) (words : List ℕ) → FitsCall kinds words ([] ∷ [] ∷ []) }
    ensures receive { (queue at size priority : ℕ) → output_rooms (kinds_of KCall.MqReceive) (queue ∷ at ∷ size ∷ priority ∷ []) ≡ min size 4096 ∷ 4 ∷ [] }
{}

/// A law: after a store every range that shares no address with its bytes shows what it showed, may
/// be written where it might, and runs what it ran; and the windows stay, except for their bytes.
pub fn a_store_changes_its_range_alone()
    ensures only { (v new : View) (at n x : ℕ) → store_bytes v at n x ≡ Ok new → OnlyIn (record { low = at; top = at + n } ∷ []) v new }
    ensures shape { (v new : View) (at n x : ℕ) → store_bytes v at n x ≡ Ok new → shape_of new ≡ shape_of v }
{}

/// A law: a call that was taken from registers and a view has the inputs of its row.
pub fn a_call_taken_from_a_view_is_well_formed()
    ensures { (rows : Rows) (v : View) (regs : Regs) (c : Call) → cook rows v regs ≡ Ok c → IsWellFormed rows c }
{}

/// A law: outputs that are put into a view leave its windows, except for their bytes.
pub fn a_delivery_leaves_the_windows()
    ensures { (rows : Rows) (v : View) (regs : Regs) (outputs : List (List ℕ)) → shape_of (deliver rows v regs outputs) ≡ shape_of v }
{}
