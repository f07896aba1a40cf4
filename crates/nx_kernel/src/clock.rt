ghost use Rattle.std.specs.Prelude.{◌≡◌, ◌<◌, ◌+◌, ◌^◌, [], drop};
ghost use Rattle.nx_ksys.specs.Picking.{next_late};

use std::marker::Model;

/// The time in ticks, from 0, and the lateness list that is left: by so many ticks time passes a
/// deadline, in their order, and by none after the last.
#[derive(Debug, Drop)]
pub struct Clock {
    time: u64,
    late: Vec<u32>,
    used: usize,
}

impl Model for Clock {
    ghost use Rattle.std.specs.Prelude.{drop};
    ghost use Rattle.nx_kernel.specs.Parts.{Clocked};

    ghost Value = { Clocked };

    ghost view = { λ c. record { time = c.time; late = drop c.used c.late.items } };
}

impl Clock {
    /// At time 0, with a lateness list.
    pub fn new(late: Vec<u32>) -> Clock
        ensures { result ≡ record { time = 0; late = late.items } }
    {
        Clock {
            time: 0,
            late,
            used: 0,
        }
    }

    /// The time, in ticks.
    pub fn time(&self) -> u64
        ensures { result ≡ self.now.time }
    {
        self.time
    }

    /// Time passes to a deadline, and by the next lateness beyond it.
    pub fn pass_to(&mut self, deadline: u64)
        requires { deadline + next_late self.old.late < 2 ^ 64 }
        ensures { self.new ≡ record { time = deadline + next_late self.old.late; late = drop 1 self.old.late } }
    {
        match self.late.get(self.used) {
            None => self.time = deadline,
            Some(late) => {
                self.time = deadline + *late as u64;
                self.used += 1;
            }
        }
    }
}
