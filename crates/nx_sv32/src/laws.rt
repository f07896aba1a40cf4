ghost use Rattle.std.specs.Prelude.{◌≡◌, ◌↔◌, ℕ, ◌+◌, ◌*◌, ◌/◌, ◌%◌, ◌^◌, ◌<◌, ◌≤◌, List, length, Some};
ghost use Rattle.nx_base.specs.declared.access.Access.{Access};
ghost use Rattle.nx_sv32.specs.Entries.{page_number};
ghost use Rattle.nx_sv32.specs.Walk.{walk, first_number, page_offset, root_number};
ghost use Rattle.nx_sv32.specs.Translation.{IsTranslated, IsInRam, SamePage, table_entry};

/// A law: an address is translated exactly where no step of a walk is a page fault, by a page or by
/// a superpage.
pub fn an_address_is_translated_by_its_leaf()
    ensures { (ram : List ℕ) (satp at to : ℕ) (access : Access) → (walk ram satp at access ≡ Some to) ↔ IsTranslated ram satp at access to }
{}

/// A law: a physical address lies in the RAM and has the page offset of its virtual address. In a
/// RAM of whole pages, the addresses of one page are translated to those of one page.
pub fn a_page_is_translated_as_a_whole()
    ensures offset { (ram : List ℕ) (satp at to : ℕ) (access : Access) → 2147483648 ≤ satp → walk ram satp at access ≡ Some to → IsInRam ram to × (page_offset to ≡ page_offset at) }
    ensures page { (ram : List ℕ) (satp at other to : ℕ) (access : Access) → 2147483648 ≤ satp → length ram % 4096 ≡ 0 → at / 4096 ≡ other / 4096 → walk ram satp at access ≡ Some to → walk ram satp other access ≡ Some (4096 * (to / 4096) + page_offset other) }
{}

/// A law: whether and how an address is translated depends on the bytes of the root and of the table
/// to which the root's entry points, and on no other byte of the RAM.
pub fn a_walk_reads_its_tables_alone()
    ensures { (old new : List ℕ) (satp at : ℕ) (access : Access) → at < 2 ^ 32 → length new ≡ length old → SamePage old new (root_number satp) → SamePage old new (page_number (table_entry old (root_number satp) (first_number at))) → walk new satp at access ≡ walk old satp at access }
{}
