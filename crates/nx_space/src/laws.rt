ghost use Rattle.std.specs.Prelude.{◌≡◌, ◌≢◌, ℕ, ◌%◌, ◌<◌, Bool, true, false, length};
ghost use Rattle.nx_base.specs.declared.access.Access.{Access};
ghost use Rattle.nx_base.specs.declared.access.Mode.TheVariants as mode;
ghost use Rattle.nx_base.specs.Good.{allows as may, is_found, is_good};
ghost use Rattle.nx_base.specs.Views.{find_bytes};
ghost use Rattle.nx_ram.specs.Widths.{IsWidth};
ghost use Rattle.nx_pmp.specs.declared.pmp.Pmp.{Pmp};
ghost use Rattle.nx_pmp.specs.Protection.{allows};
ghost use Rattle.nx_space.specs.Shared.{Sharing, IsSharing};
ghost use Rattle.nx_space.specs.Protected.{protected_world, IsProtected};
ghost use Rattle.nx_space.specs.World.{World, MemoryMap, Common, IsEntered, has_view, group_of, group_in, view_of, view_in, pool_of};
ghost use Rattle.nx_space.specs.Lawful.{IsWorld, IsOutside, OnlyEntered, IsLeft};
ghost use Rattle.nx_space.specs.Starts.{start_need, grow_need, free, started, grown, finished, but_outside};

/// A law: accesses of the entered view, one after another, change nothing else, and no group's
/// frames.
pub fn accesses_change_the_entered_view_only()
    ensures none { (w : World) → OnlyEntered w w }
    ensures more { (u v w : World) → OnlyEntered u v → OnlyEntered v w → OnlyEntered u w }
    ensures frames { (v w : World) → OnlyEntered v w → free w ≡ free v }
{}

/// A law: a pointer that is good stays good, whatever is written through the entered view.
pub fn what_is_good_stays_good()
    ensures entered { (v w : World) → OnlyEntered v w → IsEntered v → IsEntered w }
    ensures good { (v w : World) (at n : ℕ) (a : Access) → OnlyEntered v w → is_good (view_in w) at n a ≡ is_good (view_in v) at n a }
{}

/// A law: without pages no start and no stack needs a frame.
pub fn without_pages_nothing_needs_a_frame()
    ensures start { (memory_map : MemoryMap) (program slot : ℕ) → memory_map.is_paged ≡ false → start_need memory_map program slot ≡ 0 }
    ensures stack { (w : World) (number slot : ℕ) → w.memory_map.is_paged ≡ false → grow_need w number slot ≡ 0 }
{}

/// A law: a group has a view from its start on, and a start leaves the memory map and the windows of the
/// others.
pub fn a_started_group_has_a_view()
    ensures memory_map { (w new : World) (number program slot : ℕ) (fresh : Bool) → new ≡ but_outside (started w number program slot fresh) new → new.memory_map ≡ w.memory_map }
    ensures own { (w new : World) (number program slot : ℕ) (fresh : Bool) → new ≡ but_outside (started w number program slot fresh) new → has_view new.groups number ≡ true }
    ensures others { (w new : World) (number program slot other : ℕ) (fresh : Bool) → new ≡ but_outside (started w number program slot fresh) new → has_view w.groups other ≡ true → (has_view new.groups other ≡ true) × ((group_of new.groups other).parts ≡ (group_of w.groups other).parts) }
{}

/// A law: a start, a thread's stack and the end of a group leave each other group: its windows, what
/// is good in its view, and with pages the whole view.
pub fn the_other_groups_are_left()
    ensures start { (w new : World) (number program slot other : ℕ) (fresh : Bool) → IsWorld w → program < length w.memory_map.programs → slot < w.memory_map.threads → new ≡ but_outside (started w number program slot fresh) new → has_view w.groups other ≡ true → other ≢ number → IsLeft w new other }
    ensures stack { (w new : World) (number slot other : ℕ) → IsWorld w → has_view w.groups number ≡ true → slot < w.memory_map.threads → new ≡ but_outside (grown w number slot) new → has_view w.groups other ≡ true → other ≢ number → IsLeft w new other }
    ensures end { (w new : World) (number other : ℕ) → new ≡ but_outside (finished w number) new → has_view w.groups other ≡ true → other ≢ number → IsLeft w new other }
{}

/// A law: starts, threads' stacks and ends leave the kernel's pool, and so do accesses where no
/// window of the entered view lets it be written, as with pages none does.
pub fn the_pool_stays()
    ensures start { (w new : World) (number program slot : ℕ) (fresh : Bool) → IsWorld w → program < length w.memory_map.programs → slot < w.memory_map.threads → new ≡ but_outside (started w number program slot fresh) new → pool_of new ≡ pool_of w }
    ensures stack { (w new : World) (number slot : ℕ) → IsWorld w → has_view w.groups number ≡ true → slot < w.memory_map.threads → new ≡ but_outside (grown w number slot) new → pool_of new ≡ pool_of w }
    ensures end { (w new : World) (number : ℕ) → new ≡ but_outside (finished w number) new → pool_of new ≡ pool_of w }
    ensures access { (v w : World) → OnlyEntered v w → ((i : ℕ) → i < v.memory_map.pool → IsOutside (group_in v).parts (Common 0) i) → pool_of w ≡ pool_of v }
    ensures paged { (v w : World) → OnlyEntered v w → IsWorld v → IsEntered v → v.memory_map.is_paged ≡ true → pool_of w ≡ pool_of v }
{}

/// A law: a group sees all of what another writes, or nothing of it. Without pages all groups have
/// one view; with pages no other group sees what is written through the entered view.
pub fn a_group_sees_all_of_a_write_or_nothing()
    ensures shared { (w : World) (g h : ℕ) → IsWorld w → w.memory_map.is_paged ≡ false → has_view w.groups g ≡ true → has_view w.groups h ≡ true → view_of w g ≡ view_of w h }
    ensures paged { (v w : World) (h : ℕ) → IsWorld v → v.memory_map.is_paged ≡ true → OnlyEntered v w → has_view v.groups h ≡ true → h ≢ v.entered → view_of w h ≡ view_of v h }
{}

/// A law: the view of a protected space is what its entries allow in user mode: an aligned access is
/// allowed exactly where a window of the entered view has its bytes and lets it be made.
pub fn the_entries_allow_what_the_view_does()
    ensures { (pmp : Pmp) (s : Sharing) (at n : ℕ) (access : Access) → IsSharing s → IsProtected pmp s → IsEntered (protected_world pmp s) → IsWidth n → at % n ≡ 0 → allows pmp at n access mode.User ≡ is_found (find_bytes (may access) (view_in (protected_world pmp s)).windows at n) }
{}
