// What a call that receives is told, but for the message itself.
ghost use Rattle.std.specs.Prelude.{◌≡◌, ℕ, List, Option, Some, None, IfOk};
ghost use Rattle.nx_ksys.specs.declared.thread.Thread.{Thread};
ghost use Rattle.nx_ksys.specs.State.{KernelState, Queue};
ghost use Rattle.nx_ksys.specs.Answers.{Caller};
ghost use Rattle.nx_ksys.specs.QueueCalls.{receive_on, receive_from};
ghost use Rattle.nx_ipc.specs.Rows.{receive_told, receive_goes_on, is_within};

use crate::message::Taken;
use crate::opening::has_flag;
use nx_base::Errno;

/// What a call that receives came to.
#[derive(Clone, Copy, Debug)]
pub enum Received {
    /// A message.
    Message(Taken),
    /// The queue is empty: the caller waits.
    Waits,
}

/// Why a call may not receive from a queue of messages of at most `queue` bytes, into `size` bytes,
/// perhaps for so many ticks: EBADF without O_RDONLY, EINVAL for ticks below 0, EMSGSIZE for too
/// small a size.
pub fn may_receive(queue: u32, flags: u32, size: u32, ticks: Option<u32>) -> Result<(), Errno>
    ensures { (k : KernelState) (c : Caller) (place : ℕ) (q : Queue) → q.size ≡ queue
        → receive_on k c size ticks (Some (record { place = place; flags = flags; queue = q })) ≡ receive_goes_on k c (record { place = place; flags = flags; queue = q }) size ticks result }
{
    if !has_flag(flags, 1) {
        return Err(Errno::Ebadf);
    }
    if let Some(ticks) = ticks {
        if ticks >= 2147483648 {
            return Err(Errno::Einval);
        }
    }
    if size < queue {
        return Err(Errno::Emsgsize);
    }
    Ok(())
}

/// What a call on an empty queue comes to. EAGAIN under O_NONBLOCK, ETIMEDOUT for 0 ticks.
pub fn receive_none(flags: u32, ticks: Option<u32>) -> Result<Received, Errno>
    ensures row { (k : KernelState) (c : Caller) (place size : ℕ) (q : Queue) (into : List ℕ) (sender : Option Thread)
        → receive_from k c (record { place = place; flags = flags; queue = q }) size ticks None ≡ receive_told k c place ticks into sender result }
    ensures within { (room : ℕ) → IfOk result (is_within room) }
{
    if has_flag(flags, 64) {
        return Err(Errno::Eagain);
    }
    match ticks {
        None => Ok(Received::Waits),
        Some(ticks) => {
            if ticks == 0 {
                return Err(Errno::Etimedout);
            }
            Ok(Received::Waits)
        }
    }
}
