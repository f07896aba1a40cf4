ghost use Rattle.std.specs.Prelude.{IfOk};
ghost use Rattle.nx_ksys.specs.Gathered.{replies_of};
ghost use Rattle.nx_shrun.specs.ShellCalls.{started, after, shell_calls};
ghost use Rattle.nx_shrun.specs.Laws.{AllFit, EndsIn};
ghost use Rattle.nx_shell.specs.Shells.{IsAt, IsReady};

use crate::shell::Shell;
use nx_base::OutOfMemory;
use nx_ksys::Reply;
use nx_shtree::Script;
use std::alloc::Global;

/// The shell of a script after these replies, each of which fits the call that it answers. Its
/// call is the last of the script's calls.
#[tactic(auto, using(crate::proofs::Resuming::going_first, crate::proofs::Resuming::going_next, crate::proofs::Resuming::going_last))]
pub fn resumed(alloc: Global, script: &Script, replies: &[Reply]) -> Result<Shell, OutOfMemory>
    requires { AllFit (started script.now) (replies_of replies.now) }
    ensures at { IfOk result (λ x. IsAt x (after (started script.now) (replies_of replies.now))) }
    ensures last { IfOk result (λ x. EndsIn x.walk.command.call (shell_calls script.now (replies_of replies.now))) }
    ensures ready { IfOk result IsReady }
{
    let mut shell = Shell::new(alloc, script)?;
    for reply in replies {
        shell.answer(reply);
    }
    Ok(shell)
}
