// What becomes of a message that is sent.
ghost use Rattle.std.specs.Prelude.{◌≡◌, ◌<◌, ◌^◌, ℕ, IfOk, length, Some, not, nat_lt};
ghost use Rattle.nx_pool.specs.Chains.{blocks_for};
ghost use Rattle.nx_ksys.specs.declared.thread.Search.TheVariants as search;
ghost use Rattle.nx_ksys.specs.Threads.{first_of};
ghost use Rattle.nx_ksys.specs.State.{KernelState, Message, Queue, free_blocks};
ghost use Rattle.nx_ksys.specs.Answers.{Caller};
ghost use Rattle.nx_ksys.specs.QueueCalls.{is_full as is_full_queue, send_on};
ghost use Rattle.nx_ipc.specs.Rows.{sends, has_room};

use crate::opening::has_flag;
use nx_base::Errno;
use nx_ksys::Thread;

/// The greatest priority of a message.
const HIGHEST_PRIORITY: u32 = 31;

/// What became of a message that was sent.
#[derive(Clone, Copy, Debug)]
pub enum Sent {
    /// It joined the queue.
    Joined,
    /// The queue is full: its sender waits, and the message has its blocks.
    Waits,
    /// This thread waited for it, and gets it. It takes no blocks.
    Delivered(Thread),
}

/// What a queue takes: how many bytes, and whether it takes one more message now.
#[derive(Clone, Copy, Debug)]
pub struct Limits {
    pub size: u32,
    pub is_full: bool,
}

/// A message of so many bytes, and the size and the priority that its call gives.
#[derive(Clone, Copy, Debug)]
pub struct Letter {
    pub bytes: usize,
    pub size: u32,
    pub priority: u32,
}

fn fits(bytes: usize, free: u32) -> bool
    requires { bytes < 2 ^ 32 }
    ensures { result ≡ not (nat_lt free (blocks_for bytes)) }
{
    (bytes + 63) / 64 <= free as usize
}

/// What a send to a queue does. EBADF without O_WRONLY, EINVAL for a priority over 31, EMSGSIZE
/// for more bytes than the queue takes; where nobody waits for a message, EAGAIN for a full queue
/// under O_NONBLOCK, and ENOSPC where the message has no blocks.
pub fn way_to_send(
    limits: Limits,
    flags: u32,
    letter: Letter,
    receiver: Option<Thread>,
    free: u32,
) -> Result<Sent, Errno>
    requires { letter.bytes < 2 ^ 32 }
    ensures row { (k : KernelState) (c : Caller) (place : ℕ) (q : Queue) (m : Message) → q.size ≡ limits.size → is_full_queue q ≡ limits.is_full
        → m.priority ≡ letter.priority → length m.bytes ≡ letter.bytes → free_blocks k ≡ free → first_of (search.Receiver place) k.sched.threads ≡ receiver
        → send_on k c m letter.size (Some (record { place = place; flags = flags; queue = q })) ≡ sends k c (record { place = place; flags = flags; queue = q }) m result }
    ensures room { IfOk result (has_room (blocks_for letter.bytes) free limits.is_full) }
{
    if !has_flag(flags, 2) {
        return Err(Errno::Ebadf);
    }
    if letter.priority > HIGHEST_PRIORITY {
        return Err(Errno::Einval);
    }
    if letter.size > limits.size {
        return Err(Errno::Emsgsize);
    }
    match receiver {
        Some(thread) => Ok(Sent::Delivered(thread)),
        None => {
            if limits.is_full && has_flag(flags, 64) {
                return Err(Errno::Eagain);
            }
            if !fits(letter.bytes, free) {
                return Err(Errno::Enospc);
            }
            if limits.is_full {
                return Ok(Sent::Waits);
            }
            Ok(Sent::Joined)
        }
    }
}
