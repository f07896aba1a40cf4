// What an `open` that was decided leaves of paths and files.
ghost use Rattle.std.specs.Prelude.{◌≡◌, ◌<◌, ℕ, [], None, length};
ghost use Rattle.nx_ksys.specs.Threads.{Schedule};
ghost use Rattle.nx_ksys.specs.State.{KernelState};
ghost use Rattle.nx_ksys.specs.Answers.{Caller};
ghost use Rattle.nx_ksys.specs.FileCalls.{describe_new, with_file, with_new_file};
ghost use Rattle.nx_path.specs.declared.opening.Opening.TheVariants as opening;
ghost use Rattle.nx_path.specs.Rows.{opens_as, is_absent};
ghost use Rattle.nx_objects.specs.Tables.{chains_of, with_objects};
ghost use Rattle.nx_ksys.specs.Paths.{node_at};
ghost use Rattle.arrayvec.specs.ArrayVec.{ArrayVec};

use nx_ksys::{Node, NodeKind, Target};
use nx_objects::Objects;
use nx_path::{Opening, Path};
use nx_pool::BlockStore;

/// The file at a place becomes an empty one.
#[tactic(auto, using(nx_objects::proofs::Chains::files_held, nx_objects::proofs::Chains::files_moved))]
pub fn empty_file<B: BlockStore>(objects: &mut Objects, place: u32, blocks: &mut B)
    requires held { B.holds blocks.old (chains_of objects.old) }
    ensures state { (k : KernelState) (s : Schedule) → let old = with_objects k s (B.content blocks.old) objects.old in
        with_objects k s (B.content blocks.new) objects.new ≡ record old { tree = with_file old.tree place [] } }
    ensures rest { objects.new ≡ record objects.old { files = objects.new.files } }
    ensures held { B.holds blocks.new (chains_of objects.new) }
    ensures alike { B.alike blocks.old blocks.new }
{
    objects.files.set_empty(place, blocks);
}

// A new empty file comes to a path.
fn make_file<B: BlockStore>(objects: &mut Objects, path: Path, place: u32, blocks: &mut B)
    requires held { B.holds blocks.old (chains_of objects.old) }
    requires absent { node_at objects.old.tree.entries path.items ≡ None }
    requires room { length objects.old.tree.entries < objects.old.tree.limit }
    ensures state { (k : KernelState) (s : Schedule) → with_objects k s (B.content blocks.new) objects.new ≡ with_new_file (with_objects k s (B.content blocks.old) objects.old) path.items place }
    ensures rest { objects.new ≡ record objects.old { tree = objects.new.tree; files = objects.new.files } }
    ensures limit { objects.new.tree.limit ≡ objects.old.tree.limit }
    ensures held { B.holds blocks.new (chains_of objects.new) }
    ensures alike { B.alike blocks.old blocks.new }
{
    let node = Node {
        kind: NodeKind::File(place),
        fixed: false,
    };
    objects.tree.add(path, node);
    empty_file(objects, place, blocks);
}

/// What was found stays, what is to be emptied is emptied, and what is to be made is made: the
/// answer is what a new description leads to.
pub fn carry_out<B: BlockStore>(objects: &mut Objects, what: Opening, blocks: &mut B) -> Target
    requires held { B.holds blocks.old (chains_of objects.old) }
    requires absent { is_absent objects.old.tree.entries what }
    requires room { (path : ArrayVec ℕ) (place : ℕ) → what ≡ opening.Made path place → length objects.old.tree.entries < objects.old.tree.limit }
    ensures row { (k : KernelState) (s : Schedule) (c : Caller) (flags : ℕ) → let old = with_objects k s (B.content blocks.old) objects.old in
        opens_as old c flags what ≡ describe_new old (with_objects k s (B.content blocks.new) objects.new) c result flags }
    ensures rest { objects.new ≡ record objects.old { tree = objects.new.tree; files = objects.new.files } }
    ensures limit { objects.new.tree.limit ≡ objects.old.tree.limit }
    ensures held { B.holds blocks.new (chains_of objects.new) }
    ensures alike { B.alike blocks.old blocks.new }
{
    match what {
        Opening::Found(target) => target,
        Opening::Emptied(place) => {
            empty_file(objects, place, blocks);
            Target::File(place)
        }
        Opening::Made(path, place) => {
            make_file(objects, path, place, blocks);
            Target::File(place)
        }
    }
}
