//! Slot code: what C programs are lowered to, and what words are made of. Operations work on numbered cells and on
//! objects. There are no addresses.
#![tactic(auto)]

mod laws;
mod op;
mod program;

pub use laws::{
    a_run_comes_to_one_answer, a_step_changes_the_open_call_alone, an_entry_needs_the_open_calls,
    an_operation_fails_by_its_first_demand, calls_keep_the_cells_below_their_arguments,
    operations_cost_little,
};
pub use op::{Binary, Comparison, Operand, Section, SlotOp, StaticObject, Unary, Width};
pub use program::{SlotArray, SlotFunction, SlotProgram};
