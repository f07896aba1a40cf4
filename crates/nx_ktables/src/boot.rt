// The tables at boot.
ghost use Rattle.std.specs.Prelude.{◌≡◌, ◌≤◌, ◌-◌, ℕ, List, [], ◌∷◌, Some, IfOk, length, replicate};
ghost use Rattle.nx_pool.specs.declared.chain.Chain.{Chain};
ghost use Rattle.nx_ksys.specs.State.{Limits as FirstLimits};
ghost use Rattle.nx_ksys.specs.Boot.{with_places, shell, shell_thread as first_thread, booted};
ghost use Rattle.nx_path.specs.Entries.{AreNames};
ghost use Rattle.nx_objects.specs.Tables.{chains_of};
ghost use Rattle.nx_ktables.specs.State.{state_of, configured, rooms_of, first_rooms, IsPlaced};

use crate::tables::Tables;
use nx_base::{OutOfMemory, Text};
use nx_config::Limits;
use nx_env::Environments;
use nx_group::{Codes, Group, Groups, Values};
use nx_kernel::{Clock, Ends, Terminal};
use nx_ksys::{Asked, Doing, Thread};
use nx_objects::Objects;
use nx_sched::Threads;
use std::alloc::Global;

/// The most numbers that are given to threads in a run.
const MOST_NUMBERS: usize = 65535;

fn shell_thread() -> Thread
    ensures { result ≡ first_thread }
{
    Thread {
        number: 1,
        group: 1,
        priority: 100,
        errno: 0,
        doing: Doing::Ready(0),
        asked: Asked {
            call: None,
            words: [0; 6],
        },
    }
}

// So many slots, the first of which has the shell's thread.
#[tactic(auto, using(crate::proofs::Booting::first_placed))]
fn first_threads(alloc: Global, threads: u32) -> Result<Threads, OutOfMemory>
    requires { 1 ≤ threads }
    ensures { IfOk result (λ t. t ≡ record { threads = with_places (Some first_thread ∷ []) (threads - 1); moments = 1 }) }
{
    let mut slots = Threads::new(alloc, threads)?;
    slots.begin(0, shell_thread());
    Ok(slots)
}

// So many places, the first of which has the shell's group.
#[tactic(auto, using(crate::proofs::Booting::first_placed))]
fn first_groups(alloc: Global, threads: u32, programs: u32) -> Result<Groups, OutOfMemory>
    requires some { 1 ≤ threads }
    requires few { threads ≤ 64 }
    ensures { (limits : FirstLimits) → length limits.programs ≡ programs → IfOk result (λ g. g ≡ with_places (Some (shell limits) ∷ []) (threads - 1)) }
{
    let mut groups = Groups::new(alloc, threads)?;
    groups.begin(0, Group::new(1, programs, 0, b"", b"nsh", b""));
    Ok(groups)
}

fn copy_names(alloc: Global, programs: &[Text]) -> Result<Vec<Text>, OutOfMemory>
    ensures { IfOk result (λ v. v.items ≡ programs.now) }
{
    let mut names = Vec::new(alloc);
    for program in programs {
        names.push(Text::from_str(alloc, program.as_str())?)?;
    }
    Ok(names)
}

// Threads, groups and environments by slot.
#[derive(Drop)]
struct Members {
    threads: Threads,
    groups: Groups,
    environments: Environments,
}

fn first_members(alloc: Global, threads: u32, programs: u32) -> Result<Members, OutOfMemory>
    requires some { 1 ≤ threads }
    requires few { threads ≤ 64 }
    ensures threads { IfOk result (λ m. m.threads ≡ record { threads = with_places (Some first_thread ∷ []) (threads - 1); moments = 1 }) }
    ensures groups { (limits : FirstLimits) → length limits.programs ≡ programs → IfOk result (λ m. m.groups ≡ with_places (Some (shell limits) ∷ []) (threads - 1)) }
    ensures environments { IfOk result (λ m. m.environments ≡ replicate threads []) }
{
    let slots = first_threads(alloc, threads)?;
    let groups = first_groups(alloc, threads, programs)?;
    let environments = Environments::new(alloc, threads)?;
    Ok(Members {
        threads: slots,
        groups,
        environments,
    })
}

// What ended and was not taken yet.
#[derive(Drop)]
struct Endings {
    codes: Codes,
    values: Values,
    ended: Ends,
}

fn first_endings(alloc: Global, room: usize) -> Result<Endings, OutOfMemory>
    ensures codes { IfOk result (λ e. e.codes ≡ record { codes = []; room = room }) }
    ensures values { IfOk result (λ e. e.values ≡ record { values = []; room = room }) }
    ensures ended { IfOk result (λ e. e.ended ≡ record { ends = []; room = room }) }
{
    let codes = Codes::new(alloc, room)?;
    let values = Values::new(alloc, room)?;
    let ended = Ends::new(alloc, room)?;
    Ok(Endings {
        codes,
        values,
        ended,
    })
}

impl Tables {
    /// The tables at boot, for programs of these names, with what the console gives to read, and a
    /// lateness list in ticks. The shell is group 1, in slot 0.
    pub fn boot(
        alloc: Global,
        limits: &Limits,
        programs: &[Text],
        input: Vec<u8>,
        late: Vec<u32>,
    ) -> Result<Tables, OutOfMemory>
        requires some { 1 ≤ limits.now.threads }
        requires few { limits.now.threads ≤ 64 }
        requires nodes { limits.now.nodes ≤ 65536 }
        requires names { AreNames programs.now }
        requires programs { length programs.now ≤ 65536 }
        ensures state { IfOk result (λ t. (content : Chain → List ℕ) → state_of content t ≡ booted (configured limits.now programs.now) (limits.now.threads - 1) input.items late.items) }
        ensures chains { IfOk result (λ t. chains_of t.objects ≡ []) }
        ensures rooms { IfOk result (λ t. rooms_of t ≡ first_rooms limits.now programs.now) }
        ensures placed { IfOk result IsPlaced }
        ensures slots { IfOk result (λ t. length t.threads.threads ≡ limits.now.threads) }
    {
        let names = copy_names(alloc, programs)?;
        let members = first_members(alloc, limits.threads, programs.len() as u32)?;
        let endings = first_endings(alloc, MOST_NUMBERS)?;
        let objects = Objects::boot(alloc, programs, limits.threads, limits.nodes)?;
        let terminal = Terminal::new(alloc, limits.console as usize, input)?;
        Ok(Tables {
            programs: names,
            blocks: limits.blocks,
            limit: limits.nodes,
            threads: members.threads,
            clock: Clock::new(late),
            groups: members.groups,
            environments: members.environments,
            codes: endings.codes,
            values: endings.values,
            objects,
            terminal,
            numbers: 1,
            ended: endings.ended,
            calls: 0,
        })
    }
}
