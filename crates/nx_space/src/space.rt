ghost use Rattle.std.specs.Prelude.{◌≡◌, ℕ, ◌*◌, ◌^◌, ◌<◌, ◌≤◌, ◌%◌, true, false, length, Ok, Err, MatchResult, IfOk, IfErr, OnOk, OnErr};
ghost use Rattle.nx_base.specs.declared.access.Access.TheVariants as access;
ghost use Rattle.nx_base.specs.ByteLists.{AreBytes};
ghost use Rattle.nx_base.specs.Views.{fetch_word, load_bytes, store_bytes};
ghost use Rattle.nx_base.specs.Good.{is_good};
ghost use Rattle.nx_ram.specs.Widths.{IsWidth};
ghost use Rattle.nx_space.specs.World.{Home, World, IsEntered, has_view, view_in, seen_by};
ghost use Rattle.nx_space.specs.Lawful.{IsWorld, OnlyEntered};
ghost use Rattle.nx_space.specs.Starts.{program_of, start_regs, thread_regs, start_need, grow_need, free, started, grown, finished, but_outside};

use nx_base::{Access, Regs};
use nx_frames::TooFew;

/// The views of several groups, of which one is entered. A refused access answers the cause of its
/// trap. RISC-V Privileged Architecture 1.12, section 3.1.15.
pub trait Space {
    /// All views, what they stand over, and the frames of each group.
    ghost world: { Self → World };

    /// The word to run at an address of the entered view.
    fn fetch(&mut self, at: u32) -> Result<u32, u8>
        requires entered { IsEntered (world self.old) }
        requires aligned { at % 4 ≡ 0 }
        ensures answer { result ≡ fetch_word (view_in (world self.old)) at }
        ensures same { world self.new ≡ world self.old };

    /// The number of `width` bytes at an address of the entered view, without a sign.
    fn load(&mut self, at: u32, width: u8) -> Result<u32, u8>
        requires entered { IsEntered (world self.old) }
        requires width { IsWidth width }
        requires aligned { at % width ≡ 0 }
        ensures answer { result ≡ load_bytes (view_in (world self.old)) at width }
        ensures small { IfOk result (λ n. n < 2 ^ (8 * width)) }
        ensures same { world self.new ≡ world self.old };

    /// Writes the low `width` bytes of a number at an address of the entered view, and no other
    /// byte of any view.
    fn store(&mut self, at: u32, width: u8, value: u32) -> Result<(), u8>
        requires entered { IsEntered (world self.old) }
        requires width { IsWidth width }
        requires aligned { at % width ≡ 0 }
        ensures answer { MatchResult result
            (λ _. store_bytes (view_in (world self.old)) at width value ≡ Ok (view_in (world self.new)))
            (λ cause. store_bytes (view_in (world self.old)) at width value ≡ Err cause) }
        ensures only { OnlyEntered (world self.old) (world self.new) }
        ensures refused { OnErr result (world self.new ≡ world self.old) };

    /// Whether each of the `len` bytes at an address of the entered view may be used so, and none
    /// is a region's or lies past the last address. No bytes are good anywhere.
    fn good(&mut self, at: u32, len: u32, access: Access) -> bool
        requires entered { IsEntered (world self.old) }
        ensures answer { result ≡ is_good (view_in (world self.old)) at len access }
        ensures same { world self.new ≡ world self.old };

    /// The byte at an address that is good for loading.
    fn peek(&mut self, at: u32) -> u8
        requires entered { IsEntered (world self.old) }
        requires good { is_good (view_in (world self.old)) at 1 access.Load ≡ true }
        ensures answer { load_bytes (view_in (world self.old)) at 1 ≡ Ok result }
        ensures same { world self.new ≡ world self.old };

    /// Writes the byte at an address that is good for storing, and no other byte of any view.
    fn poke(&mut self, at: u32, value: u8)
        requires entered { IsEntered (world self.old) }
        requires good { is_good (view_in (world self.old)) at 1 access.Store ≡ true }
        ensures answer { store_bytes (view_in (world self.old)) at 1 value ≡ Ok (view_in (world self.new)) }
        ensures only { OnlyEntered (world self.old) (world self.new) };

    /// Enters a group's view.
    fn enter(&mut self, group: u32)
        requires { has_view (world self.old).groups group ≡ true }
        ensures { world self.new ≡ record (world self.old) { entered = group } };

    /// Gives a new group its view, with the stack of `slot` set to zeros. The data are set to their
    /// first contents where `fresh`, and always where each group has its own. This answers the
    /// registers of its main thread.
    fn start(&mut self, group: u32, prog: usize, slot: u32, fresh: bool) -> Result<Regs, TooFew>
        requires new { has_view (world self.old).groups group ≡ false }
        requires room { length (world self.old).groups < (world self.old).memory_map.threads }
        requires prog { prog < length (world self.old).memory_map.programs }
        requires slot { slot < (world self.old).memory_map.threads }
        ensures regs { IfOk result (λ regs. regs ≡ start_regs (world self.old).memory_map prog slot) }
        ensures started { OnOk result (world self.new ≡ but_outside (started (world self.old) group prog slot fresh) (world self.new)) }
        ensures enough { OnOk result (start_need (world self.old).memory_map prog slot ≤ free (world self.old)) }
        ensures too_few { IfErr result (λ few. (few ≡ record { need = start_need (world self.old).memory_map prog slot; free = free (world self.old) }) × (few.free < few.need)) }
        ensures refused { OnErr result (world self.new ≡ world self.old) };

    /// Gives a group the stack of `slot`, set to zeros. This answers the registers of a new thread,
    /// whose entry and argument the caller sets.
    fn grow_stack_slot(&mut self, group: u32, slot: u32) -> Result<Regs, TooFew>
        requires group { has_view (world self.old).groups group ≡ true }
        requires slot { slot < (world self.old).memory_map.threads }
        ensures regs { IfOk result (λ regs. regs ≡ thread_regs (world self.old).memory_map (program_of (world self.old).groups group) slot) }
        ensures grown { OnOk result (world self.new ≡ but_outside (grown (world self.old) group slot) (world self.new)) }
        ensures enough { OnOk result (grow_need (world self.old) group slot ≤ free (world self.old)) }
        ensures too_few { IfErr result (λ few. (few ≡ record { need = grow_need (world self.old) group slot; free = free (world self.old) }) × (few.free < few.need)) }
        ensures refused { OnErr result (world self.new ≡ world self.old) };

    /// Takes a group's view away, and gives back what was its alone.
    fn finish(&mut self, group: u32)
        requires { has_view (world self.old).groups group ≡ true }
        ensures { world self.new ≡ but_outside (finished (world self.old) group) (world self.new) };

    /// What holds of every world.
    ghost lawful: { (s : Self) → IsWorld (world s) };

    /// What views show is bytes.
    ghost bytes: { (s : Self) (group : ℕ) (home : Home) → AreBytes (seen_by (world s) group home) };
}
