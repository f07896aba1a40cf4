// Replies go to the shell and to threads.
ghost use Rattle.std.specs.Prelude.{◌≡◌, ◌≢◌, ◌<◌, ◌^◌, ℕ, nat_abs, Bool, List, OnOk};
ghost use Rattle.nx_base.specs.ByteLists.{AreBytes};
ghost use Rattle.nx_ksys.specs.Gathered.{word_of, reply_of, replies_of};
ghost use Rattle.nx_shtree.specs.Trees.{Item};
ghost use Rattle.nx_shrun.specs.Systems.{System, tell, told};
ghost use Rattle.nx_shrun.specs.AbstractRuns.{Threads, guests as guests_by};
ghost use Rattle.nx_shrun.specs.Calls.{Fits};
ghost use Rattle.nx_shell.specs.Shells.{IsReady, Answers};
ghost use Rattle.nx_abstract.specs.Standing.{StandsFor, HasRoom, FitShell, NoneForShell, lives};

use crate::kernel::Kernel;
use nx_base::OutOfMemory;
use nx_guests::{Guests, Programs};
use nx_ksys::Reply;
use nx_shell::Shell;
use std::alloc::Global;

/// The number of the shell's thread.
pub(crate) const SHELL_THREAD: u32 = 1;

/// The numbers of a reply are words, and its outputs are bytes.
fn are_told(value: i32, errno: i32, first: &[u8], second: &[u8])
    ensures value { word_of value < 2 ^ 32 }
    ensures errno { nat_abs errno < 2 ^ 32 }
    ensures first { AreBytes first.now }
    ensures second { AreBytes second.now }
{}

/// The shell gets a reply.
#[tactic(auto, using(crate::proofs::Fitting::fits))]
fn tell_shell(shell: &mut Shell, reply: &Reply)
    requires ready { IsReady shell.old }
    requires room { HasRoom shell.old.walk.command.call (reply_of reply.now) }
    ensures ready { IsReady shell.new }
    ensures answers { Answers shell.old shell.new (reply_of reply.now) }
    ensures fits { Fits shell.old.walk.command.call (reply_of reply.now) }
{
    are_told(
        reply.value,
        reply.errno,
        reply.first.as_slice(),
        reply.second.as_slice(),
    );
    shell.answer(reply);
}

/// One reply goes to its thread.
fn tell_one<K: Kernel, P: Programs + Drop>(
    alloc: Global,
    kernel: &K,
    shell: &mut Shell,
    guests: &mut Guests<P>,
    reply: &Reply,
) -> Result<(), OutOfMemory>
    requires keeps { K.keeps kernel.now }
    requires ready { IsReady shell.old }
    requires room { reply.now.tid ≡ 1 → HasRoom shell.old.walk.command.call (reply_of reply.now) }
    ensures ready { IsReady shell.new }
    ensures programs { guests.new.programs ≡ guests.old.programs }
    ensures other { reply.now.tid ≢ 1 → shell.new ≡ shell.old }
    ensures tells { OnOk result ((script : List Item) (s : System (Threads P.AllGlobals P.AllThreads))
        → StandsFor P.thread_of P.globals_of script (lives (K.state kernel.now)) (K.state kernel.now) shell.old guests.old.threads.items.items guests.old.globals.items.items s
        → StandsFor P.thread_of P.globals_of script (lives (K.state kernel.now)) (K.state kernel.now) shell.new guests.new.threads.items.items guests.new.globals.items.items (tell (guests_by (P.meaning guests.old.programs) script) s (reply_of reply.now))) }
{
    if reply.tid == SHELL_THREAD {
        tell_shell(shell, reply);
        return Ok(());
    }
    match kernel.thread(reply.tid) {
        None => Ok(()),
        Some(row) => {
            guests.answer(alloc, row.group, row.program, reply)?;
            Ok(())
        }
    }
}

/// Replies go to their threads, in their order.
pub(crate) fn tell_all<K: Kernel, P: Programs + Drop>(
    alloc: Global,
    kernel: &K,
    shell: &mut Shell,
    guests: &mut Guests<P>,
    replies: &[Reply],
) -> Result<(), OutOfMemory>
    requires keeps { K.keeps kernel.now }
    requires ready { IsReady shell.old }
    requires fits { FitShell shell.old.walk.command.call (replies_of replies.now) }
    ensures ready { IsReady shell.new }
    ensures programs { guests.new.programs ≡ guests.old.programs }
    ensures other { OnOk result (NoneForShell (replies_of replies.now) → shell.new ≡ shell.old) }
    ensures tells { OnOk result ((script : List Item) (s : System (Threads P.AllGlobals P.AllThreads))
        → StandsFor P.thread_of P.globals_of script (lives (K.state kernel.now)) (K.state kernel.now) shell.old guests.old.threads.items.items guests.old.globals.items.items s
        → StandsFor P.thread_of P.globals_of script (lives (K.state kernel.now)) (K.state kernel.now) shell.new guests.new.threads.items.items guests.new.globals.items.items (told (guests_by (P.meaning guests.old.programs) script) s (replies_of replies.now))) }
{
    for reply in replies {
        tell_one(alloc, kernel, shell, guests, reply)?;
    }
    Ok(())
}
