// What is open and stands at boot.
ghost use Rattle.std.specs.Prelude.{◌≡◌, ◌≤◌, ◌+◌, ◌-◌, ◌*◌, ℕ, List, [], ◌∷◌, Some, None, IfOk, length, replicate};
ghost use Rattle.nx_pool.specs.declared.chain.Chain.{Chain};
ghost use Rattle.nx_ksys.specs.Boot.{with_places, console_open, first_entries};
ghost use Rattle.nx_path.specs.Entries.{AreNames};
ghost use Rattle.nx_objects.specs.Tables.{chains_of, IsBooted, ArePlaced};

use crate::objects::Objects;
use nx_base::{OutOfMemory, Text};
use nx_fs::Files;
use nx_group::{Descriptions, Descriptors};
use nx_ipc::{Queues, Semaphores};
use nx_ksys::{Open, Target};
use nx_path::Tree;
use std::alloc::Global;

// 32 descriptors for each group, the first three of which lead to the first description.
#[tactic(auto, using(crate::proofs::Booting::three_placed))]
fn first_descriptors(alloc: Global, groups: u32) -> Result<Descriptors, OutOfMemory>
    requires some { 1 ≤ groups }
    requires few { groups ≤ 64 }
    ensures { IfOk result (λ d. d ≡ with_places (Some 0 ∷ Some 0 ∷ Some 0 ∷ []) (29 + 32 * (groups - 1))) }
{
    let mut descriptors = Descriptors::new(alloc, groups)?;
    descriptors.set(0, 0, Some(0));
    descriptors.set(0, 1, Some(0));
    descriptors.set(0, 2, Some(0));
    Ok(descriptors)
}

// As many places for descriptions, the first of which has the console's.
#[tactic(auto, using(crate::proofs::Booting::description_placed, crate::proofs::Booting::description_free))]
fn first_descriptions(alloc: Global, groups: u32) -> Result<Descriptions, OutOfMemory>
    requires some { 1 ≤ groups }
    requires few { groups ≤ 64 }
    ensures { IfOk result (λ d. d ≡ with_places (Some console_open ∷ []) (31 + 32 * (groups - 1))) }
{
    let mut descriptions = Descriptions::new(alloc, 32 * groups as usize)?;
    descriptions.add(
        0,
        Open {
            target: Target::Console,
            flags: 3,
            offset: 0,
        },
    );
    Ok(descriptions)
}

impl Objects {
    /// The objects of boot: the paths of directories, devices and programs, the console open as
    /// descriptors 0, 1 and 2 of the first group, and room for so many groups, at most 64, and so
    /// many objects, at most 65,536.
    pub fn boot(
        alloc: Global,
        programs: &[Text],
        groups: u32,
        objects: u32,
    ) -> Result<Objects, OutOfMemory>
        requires names { AreNames programs.now }
        requires programs { length programs.now ≤ 65536 }
        requires some { 1 ≤ groups }
        requires few { groups ≤ 64 }
        requires objects { objects ≤ 65536 }
        ensures booted { IfOk result (IsBooted programs.now groups objects) }
        ensures placed { IfOk result (ArePlaced groups) }
        ensures chains { IfOk result (λ o. chains_of o ≡ []) }
    {
        let descriptors = first_descriptors(alloc, groups)?;
        let descriptions = first_descriptions(alloc, groups)?;
        let tree = Tree::boot(alloc, programs, objects as usize)?;
        let files = Files::new(alloc, objects)?;
        let queues = Queues::new(alloc, objects, groups)?;
        let semaphores = Semaphores::new(alloc, objects)?;
        Ok(Objects {
            descriptors,
            descriptions,
            tree,
            files,
            queues,
            semaphores,
        })
    }
}
