ghost use Rattle.std.specs.Prelude.{◌≡◌, IfOk};
ghost use Rattle.nx_ksys.specs.Gathered.{reply_of};
ghost use Rattle.nx_shrun.specs.Calls.{Fits};
ghost use Rattle.nx_shrun.specs.ShellCalls.{started};
ghost use Rattle.nx_shstep.specs.Made.{Tells};
ghost use Rattle.nx_shell.specs.Walks.{IsSteady};
ghost use Rattle.nx_shell.specs.Shells.{IsAt, Answers, Shows, IsReady, Came, Left, Ends};

use crate::tables::{command_at, is_background_at, most_words, place_after};
use crate::walk::{Stage, Walk};
use nx_base::OutOfMemory;
use nx_ksys::{Cooked, Reply};
use nx_shrun::{Ending, Node, Table, lay_out};
use nx_shtree::Script;
use std::alloc::Global;

/// A shell that runs a script. All memory that it needs is taken when it is made.
#[derive(Debug, Drop)]
pub struct Shell {
    nodes: Vec<Option<Node>>,
    at: usize,
    status: u32,
    walk: Walk,
}

impl Shell {
    /// Comes to a place with a status: to the next command, or to the end.
    #[tactic(auto, using(crate::proofs::Shelled::came_zero, crate::proofs::Shelled::came_other))]
    fn come(&mut self, to: usize, status: u32)
        requires { IsSteady self.old.walk }
        ensures came { Came self.old self.new to status }
        ensures steady { IsSteady self.new.walk }
        ensures room { self.new.walk.filling ≡ self.old.walk.filling }
    {
        self.at = to;
        self.status = status;
        self.walk.stage = Stage::Starts;
        if to == 0 {
            self.walk.command.leave(status);
        } else {
            self.walk.command.ask_number();
        }
    }

    /// Ends with a value.
    fn leave(&mut self, value: u32)
        requires { IsSteady self.old.walk }
        ensures left { Left self.old self.new value }
        ensures steady { IsSteady self.new.walk }
        ensures room { self.new.walk.filling ≡ self.old.walk.filling }
    {
        self.at = 0;
        self.walk.stage = Stage::Starts;
        self.walk.command.leave(value);
    }

    /// Goes on where a command is over.
    #[tactic(auto, using(crate::proofs::Shelled::came_there))]
    fn finish(&mut self, ending: Ending)
        requires { IsSteady self.old.walk }
        ensures ends { Ends self.old self.new ending }
        ensures steady { IsSteady self.new.walk }
        ensures room { self.new.walk.filling ≡ self.old.walk.filling }
    {
        match ending {
            Ending::Status(status) => {
                let to = place_after(self.nodes.as_slice(), self.at, status);
                self.come(to, status);
            }
            Ending::Exit(value) => self.leave(value),
        }
    }

    /// A shell that has made its first call.
    #[tactic(auto, using(crate::proofs::Shelled::begins_ready))]
    pub fn new(alloc: Global, script: &Script) -> Result<Shell, OutOfMemory>
        ensures at { IfOk result (λ x. IsAt x (started script.now)) }
        ensures ready { IfOk result IsReady }
    {
        let table = lay_out(alloc, script)?;
        let Table { nodes, start } = table;
        let room = most_words(nodes.as_slice())?;
        let walk = Walk::new(alloc, room)?;
        let mut shell = Shell {
            nodes,
            at: 0,
            status: 0,
            walk,
        };
        shell.come(start, 0);
        Ok(shell)
    }

    /// The call that was made last.
    #[tactic(auto, using(crate::proofs::Shelled::shows))]
    pub fn call(&self) -> &Cooked
        ensures made { Tells self.now.walk.command.call result.now }
        ensures shows { Shows self.now result.now }
    {
        self.walk.command.call().cooked()
    }

    /// Takes the reply to the last call, and makes the next. After its end nothing more comes.
    #[tactic(auto, using(crate::proofs::Shelled::room_of, crate::proofs::Shelled::none_answers, crate::proofs::Shelled::goes_answers, crate::proofs::Shelled::goes_ready, crate::proofs::Shelled::ends_ready))]
    pub fn answer(&mut self, reply: &Reply)
        requires ready { IsReady self.old }
        requires fits { Fits self.old.walk.command.call (reply_of reply.now) }
        ensures answers { Answers self.old self.new (reply_of reply.now) }
        ensures ready { IsReady self.new }
    {
        match command_at(self.nodes.as_slice(), self.at) {
            None => {}
            Some(simple) => {
                let background = is_background_at(self.nodes.as_slice(), self.at);
                match self.walk.hear(simple, background, self.status, reply) {
                    None => {}
                    Some(ending) => self.finish(ending),
                }
            }
        }
    }
}
