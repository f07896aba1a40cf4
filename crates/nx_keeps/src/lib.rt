//! When words keep a program, call by call, and slot code as a program. Definitions alone.
#![tactic(auto)]
