// What `write` and `read` do on the console, by their rows.
ghost use Rattle.std.specs.Prelude.{◌≡◌, ◌<◌, ◌≤◌, ◌-◌, ℕ, length, min};
ghost use Rattle.nx_ksys.specs.State.{Group, KernelState};
ghost use Rattle.nx_ksys.specs.Gathered.{replies_of};
ghost use Rattle.nx_ksys.specs.FileCalls.{write_console as write_row, read_console as read_row};
ghost use Rattle.nx_kernel.specs.Doing.{Does, caller_of};
ghost use Rattle.nx_kernel.specs.Waking.{scheduled, with_terminal};

use crate::calling::{Calling, refuse, succeed};
use crate::terminal::Terminal;
use nx_base::Errno;
use nx_ksys::Replies;
use nx_sched::Threads;

/// `write` to the console, of as many bytes as it has room for. ENOSPC where it has none.
pub fn write_console(
    caller: Calling,
    bytes: &[u8],
    terminal: &mut Terminal,
    threads: &mut Threads,
    replies: &mut Replies,
)
    requires few { length bytes.now ≤ 4096 }
    requires room { length replies.old.replies < replies.old.room }
    ensures does { (k : KernelState) (place : ℕ) (group : Group) → Does (with_terminal (scheduled k threads.new) terminal.new) (replies_of replies.old.replies) (replies_of replies.new.replies)
        (write_row (with_terminal (scheduled k threads.old) terminal.old) (caller_of caller place group) bytes.now (min (length bytes.now) (terminal.old.room - length terminal.old.shown))) }
    ensures console { terminal.new.room ≡ terminal.old.room }
    ensures room { replies.new.room ≡ replies.old.room }
{
    let count = terminal.room_for(bytes.len());
    if count == 0 {
        refuse(caller, Errno::Enospc, threads, replies);
        return;
    }
    terminal.show(&bytes[..count]);
    succeed(caller, count as u32, replies);
}

/// `read` from the console, of at most so many bytes of the input that is left.
pub fn read_console(caller: Calling, most: usize, terminal: &mut Terminal, replies: &mut Replies)
    requires few { most ≤ 4096 }
    requires room { length replies.old.replies < replies.old.room }
    ensures does { (k : KernelState) (place : ℕ) (group : Group) → Does (with_terminal k terminal.new) (replies_of replies.old.replies) (replies_of replies.new.replies) (read_row (with_terminal k terminal.old) (caller_of caller place group) most) }
    ensures console { terminal.new.room ≡ terminal.old.room }
    ensures room { replies.new.room ≡ replies.old.room }
{
    let bytes = terminal.front(most);
    let count = bytes.len();
    replies.tell(caller.thread.number, count as u32, bytes, b"");
    terminal.skip(count);
}
