ghost use Rattle.std.specs.Prelude.{◌≡◌, ◌≢◌, ℕ, ◌+◌, ◌-◌, ◌^◌, ◌<◌, ◌≤◌, ◌==◌, Bool, true, ◌&&◌, ◌||◌, nat_le, Some, Ok};
ghost use Rattle.nx_base.specs.ByteLists.{AreBytes, get_bytes, from_le};
ghost use Rattle.nx_base.specs.Views.{load_bytes};
ghost use Rattle.nx_base.specs.Good.{is_good};
ghost use Rattle.nx_base.specs.declared.access.Access.{Access};
ghost use Rattle.nx_base.specs.declared.access.Access.TheVariants as access;
ghost use Rattle.nx_sv32.specs.Walk.{ram_start, walk};
ghost use Rattle.nx_tables.specs.Maps.{satp_of};
ghost use Rattle.nx_space.specs.World.{Home, World, IsEntered, has_view, group_of, view_in, seen_by};
ghost use Rattle.nx_space.specs.Lawful.{IsWorld};
ghost use Rattle.nx_space.specs.Starts.{frames_of, free, start_need, grow_need, started, grown, finished, but_outside};
ghost use Rattle.nx_paged.specs.Tenants.{has_tenant, root_of};
ghost use Rattle.nx_paged.specs.Walks.{all_walked};
ghost use Rattle.nx_paged.specs.Paging.{Paging, paged_world, IsPlaced, IsPaged};
ghost use Rattle.nx_paged.specs.State.{world_of};

use crate::paged::PagedSpace;

/// A law: the worlds of a paged space are as all worlds of a space are, and what its views show is
/// bytes.
pub fn a_paged_world_is_lawful(space: &PagedSpace)
    ensures world { IsWorld (world_of space.now) }
    ensures bytes { (group : ℕ) (home : Home) → AreBytes (seen_by (world_of space.now) group home) }
{
    let _same = space;
}

/// A law: with pages, a start and a stack of a thread take exactly the frames that they need, and the end
/// of a group gives back exactly those that it had.
pub fn frames_are_taken_and_given_back()
    ensures start { (w new : World) (number program slot : ℕ) (fresh : Bool) → w.memory_map.is_paged ≡ true → start_need w.memory_map program slot ≤ free w → new ≡ but_outside (started w number program slot fresh) new → free new + start_need w.memory_map program slot ≡ free w }
    ensures stack { (w new : World) (number slot : ℕ) → w.memory_map.is_paged ≡ true → has_view w.groups number ≡ true → grow_need w number slot ≤ free w → new ≡ but_outside (grown w number slot) new → free new + grow_need w number slot ≡ free w }
    ensures end { (w new : World) (number : ℕ) → IsWorld w → has_view w.groups number ≡ true → new ≡ but_outside (finished w number) new → free new ≡ free w + frames_of w.memory_map (group_of w.groups number) }
{}

/// A law: no byte of the RAM is in the pages of two groups, whatever they do with it.
pub fn groups_share_no_byte()
    ensures { (s : Paging) (g h at other to : ℕ) (access second : Access) → IsPaged s → has_tenant s.tenants g ≡ true → has_tenant s.tenants h ≡ true → g ≢ h → at < 4294967296 → other < 4294967296 → walk s.ram (satp_of (root_of s.tenants g)) at access ≡ Some to → walk s.ram (satp_of (root_of s.tenants h)) other second ≢ Some to }
{}

/// A law: what is good in the entered view is what the walk from its group's root gives an address, and
/// the byte that it shows there is the one that the walk leads to.
pub fn the_view_is_what_the_walk_gives()
    ensures good { (s : Paging) (access : Access) (at n : ℕ) → IsPlaced s → IsPaged s → IsEntered (paged_world s) → is_good (view_in (paged_world s)) at n access ≡ ((n == 0) || (nat_le (at + n) (2 ^ 32) && all_walked s.ram (satp_of (root_of s.tenants s.entered)) access at n)) }
    ensures byte { (s : Paging) (at to : ℕ) → IsPlaced s → IsPaged s → IsEntered (paged_world s) → at < 4294967296 → walk s.ram (satp_of (root_of s.tenants s.entered)) at access.Load ≡ Some to → load_bytes (view_in (paged_world s)) at 1 ≡ Ok (from_le (get_bytes s.ram (to - ram_start) 1)) }
{}
