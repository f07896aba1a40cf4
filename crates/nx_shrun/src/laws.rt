ghost use Rattle.nx_shrun.specs.Laws.{FirstCallIsGetpid, EmptyScriptsEnd, OneCallForEachReply, EarlierCallsStay, LastIsMade, CallsAreWellFormed};
ghost use Rattle.nx_shrun.specs.Places.{NextStands};
ghost use Rattle.nx_shrun.specs.Runs.{ScriptsRunByTheirGrammar};
ghost use Rattle.nx_shrun.specs.AbstractLaws.{StepsMakeOneCall, OverRunsStay};

/// A law: the first call of a script is `getpid`, and an empty script's one call is the end with
/// status 0.
#[tactic(auto, using(crate::proofs::Lists::first_is_getpid, crate::proofs::Lists::empty_ends))]
pub fn a_script_begins_with_getpid()
    ensures first { FirstCallIsGetpid }
    ensures empty { EmptyScriptsEnd }
{}

/// A law: each reply brings exactly one call, until the shell has ended; and what was called stays.
/// The last call of the list is the one that the shell made last.
#[tactic(auto, using(crate::proofs::Lists::script_grows, crate::proofs::Lists::script_begins, crate::proofs::Lists::script_last))]
pub fn a_reply_brings_one_call()
    ensures one { OneCallForEachReply }
    ensures stay { EarlierCallsStay }
    ensures last { LastIsMade }
{}

/// A law: where each reply fits its call, each call is well formed; and no call but the last is the
/// end of a group or a thread, or starts a thread in the shell's group.
#[tactic(auto, using(crate::proofs::WellFormed::script_formed))]
pub fn the_shell_makes_well_formed_calls()
    ensures { CallsAreWellFormed }
{}

/// A law: a shell that has ended ran its script by its grammar. Each item ran in its turn; of an
/// `if` what its condition's status chose; of a loop turns as long as its condition said. What
/// follows a command begins at its status. An `exit` ends all of it.
#[tactic(auto, using(crate::proofs::Structure::scripts_run))]
pub fn a_script_runs_by_its_grammar()
    ensures { ScriptsRunByTheirGrammar }
{}

/// A law: a step of an abstract run makes at most one call, and what the console showed stays.
#[tactic(auto, using(crate::proofs::AbstractSteps::steps_one_call))]
pub fn an_abstract_step_makes_at_most_one_call<G, T, W>()
    ensures { StepsMakeOneCall G T W }
{}

/// A law: an abstract run that is ended or idle stays as it is.
#[tactic(auto, using(crate::proofs::AbstractSteps::over_stays))]
pub fn an_abstract_run_that_is_over_stays<G, T, W>()
    ensures { OverRunsStay G T W }
{}

/// A law: at a place of a table where a list is coded, the command that comes next stands, with the
/// places of what remains behind it.
#[tactic(auto, using(crate::proofs::Placed::stands))]
pub fn the_next_command_stands_at_its_place()
    ensures { NextStands }
{}
