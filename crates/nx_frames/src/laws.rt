ghost use Rattle.std.specs.Prelude.{◌≡◌, ◌≢◌, ℕ, ◌+◌, ◌≤◌, ◌⊎◌, List, ◌∷◌, ◌++◌};
ghost use Rattle.nx_frames.specs.declared.frames.Taken.{Taken};
ghost use Rattle.nx_frames.specs.Chains.{IsFrame};
ghost use Rattle.nx_frames.specs.Stock.{Stock, Holds, Takes, KeepsOthers, AreHeld, frames_of};

/// A law: two different frames of a stock share no byte.
pub fn frames_share_no_byte()
    ensures { (first count a b : ℕ) → IsFrame first count a → IsFrame first count b → a ≢ b → (a + 4096 ≤ b) ⊎ (b + 4096 ≤ a) }
{}

/// A law: as long as what is taken, given back and joined is kept in a list, each of it came from
/// the stock, and no frame is in two of it or free. The order of the list has no part in it.
pub fn each_frame_is_owned_once()
    ensures taken { (old new : Stock) (ram after : List ℕ) (n : ℕ) (t : Taken) (held : List Taken) → Takes old new ram after n t → AreHeld old held → AreHeld new (t ∷ held) }
    ensures given { (old new : Stock) (t : Taken) (held : List Taken) → AreHeld old (t ∷ held) → KeepsOthers old new (frames_of old t) → AreHeld new held }
    ensures joined { (old new : Stock) (t more into : Taken) (held : List Taken) → AreHeld old (t ∷ more ∷ held) → Holds new into → frames_of new into ≡ frames_of old t ++ frames_of old more → KeepsOthers old new (frames_of old t ++ frames_of old more) → AreHeld new (into ∷ held) }
    ensures first { (s : Stock) (t : Taken) (before after : List Taken) → AreHeld s (before ++ t ∷ after) → AreHeld s (t ∷ before ++ after) }
    ensures back { (s : Stock) (t : Taken) (before after : List Taken) → AreHeld s (t ∷ before ++ after) → AreHeld s (before ++ t ∷ after) }
{}
