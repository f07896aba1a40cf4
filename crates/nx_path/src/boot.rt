// The tree at boot.
ghost use Rattle.std.specs.Prelude.{◌≡◌, ◌≤◌, ◌<◌, ◌+◌, [], ◌∷◌, ◌++◌, Some, None, length, take, slice_get};
ghost use Rattle.indexmap.specs.IndexMap.{spare, index_map_len};
ghost use Rattle.nx_ksys.specs.Paths.{node_at};
ghost use Rattle.nx_ksys.specs.Boot.{fixed, first_entries};
ghost use Rattle.nx_path.specs.Entries.{seen, AreNames};

use crate::entries::put;
use crate::normal::{Path, to_path};
use crate::rename::join;
use indexmap::IndexMap;
use nx_base::Text;
use nx_ksys::{Node, NodeKind};

// A node of boot comes to a path that has none.
fn fix_path(live: &mut IndexMap<Path, Node>, path: Path, kind: NodeKind)
    requires room { 0 < spare live.old }
    requires absent { node_at (seen live.old) path.items ≡ None }
    ensures entries { seen live.new ≡ seen live.old ++ (path.items, fixed kind) ∷ [] }
    ensures room { spare live.old ≤ spare live.new + 1 }
{
    put(live, path, Node { kind, fixed: true });
}

fn fix(live: &mut IndexMap<Path, Node>, path: &[u8], kind: NodeKind)
    requires room { 0 < spare live.old }
    requires short { length path.now ≤ 255 }
    requires absent { node_at (seen live.old) path.now ≡ None }
    ensures entries { seen live.new ≡ seen live.old ++ (path.now, fixed kind) ∷ [] }
    ensures room { spare live.old ≤ spare live.new + 1 }
{
    fix_path(live, to_path(path), kind);
}

// The first four nodes.
fn fix_roots(live: &mut IndexMap<Path, Node>)
    requires room { 4 ≤ spare live.old }
    requires empty { seen live.old ≡ [] }
    ensures entries { seen live.new ≡ take 4 (first_entries []) }
    ensures room { spare live.old ≤ spare live.new + 4 }
{
    fix(live, b"", NodeKind::Directory);
    fix(live, b"/bin", NodeKind::Directory);
    fix(live, b"/dev", NodeKind::Directory);
    fix(live, b"/dev/console", NodeKind::Console);
}

// And those after them that are no programs.
fn fix_others(live: &mut IndexMap<Path, Node>)
    requires room { 4 ≤ spare live.old }
    requires roots { seen live.old ≡ take 4 (first_entries []) }
    ensures entries { seen live.new ≡ first_entries [] }
    ensures room { spare live.old ≤ spare live.new + 4 }
{
    fix(live, b"/dev/null", NodeKind::Null);
    fix(live, b"/tmp", NodeKind::Directory);
    fix(live, b"/var", NodeKind::Directory);
    fix(live, b"/var/mqueue", NodeKind::Directory);
}

fn name_at(programs: &[Text], place: usize) -> &[u8]
    requires { place < length programs.now }
    ensures { slice_get programs.now place ≡ Some result.now }
{
    match programs.get(place) {
        Some(program) => program.as_str().as_bytes(),
        None => unreachable!(),
    }
}

fn fix_programs(live: &mut IndexMap<Path, Node>, programs: &[Text])
    requires room { length programs.now ≤ spare live.old }
    requires first { seen live.old ≡ first_entries [] }
    requires names { AreNames programs.now }
    requires few { length programs.now ≤ 65536 }
    ensures entries { seen live.new ≡ first_entries programs.now }
    ensures room { spare live.old ≤ spare live.new + length programs.now }
{
    for place in 0..programs.len() {
        let path = join(b"/bin/", name_at(programs, place));
        fix_path(live, path, NodeKind::Program(place as u32));
    }
}

/// Puts the nodes of boot into an empty map with room for them: directories, devices, and
/// `/bin/NAME` for each program.
pub fn fix_all(live: &mut IndexMap<Path, Node>, programs: &[Text])
    requires room { 8 + length programs.now ≤ spare live.old }
    requires empty { seen live.old ≡ [] }
    requires names { AreNames programs.now }
    requires few { length programs.now ≤ 65536 }
    ensures entries { seen live.new ≡ first_entries programs.now }
    ensures room { spare live.old ≤ spare live.new + 8 + length programs.now }
    ensures count { index_map_len live.new ≡ 8 + length programs.now }
    ensures total { length (first_entries programs.now) ≡ 8 + length programs.now }
{
    fix_roots(live);
    fix_others(live);
    fix_programs(live, programs);
}
