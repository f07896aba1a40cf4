//! What the pieces of a compiled call do: arguments, kept temporaries, the jump, and a proxy of the
//! kernel. Nothing here runs.
#![tactic(auto)]

mod laws;

pub use laws::{
    a_call_leads_to_its_function, a_proxy_makes_its_call, arguments_come_into_registers,
    temporaries_are_kept_and_come_back,
};
