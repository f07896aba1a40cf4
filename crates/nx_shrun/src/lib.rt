//! What the shell calls: its commands, and its place in a script.
//! `specs/Table.antt` has the commands, `specs/Steps.antt` what each of their steps calls, and
//! `specs/ShellCalls.antt` all calls of a script.
#![tactic(auto)]

mod builtin;
mod expression;
mod laws;
mod number;
mod place;
mod step;
mod steps;
mod table;
mod text;
mod words;

pub use builtin::Builtin;
pub use laws::{
    a_reply_brings_one_call, a_script_begins_with_getpid, a_script_runs_by_its_grammar,
    an_abstract_run_that_is_over_stays, an_abstract_step_makes_at_most_one_call,
    the_next_command_stands_at_its_place, the_shell_makes_well_formed_calls,
};
pub use place::{Node, Table, lay_out};
pub use step::{Awaits, Change, Ending, Listing, Step, Test, Wanted};
pub use steps::Steps;
pub use table::{arguments, put_body};
pub use text::{
    append, append_decimal, put_announcement, put_bad_arguments, put_failure, put_not_found,
    put_path, put_too_long,
};
pub use words::Words;

#[cfg(test)]
mod tests;
