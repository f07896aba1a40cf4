//! Well-typed C files may be lowered: what they do names what is there, and their slot code keeps them. Nothing here runs.
#![tactic(auto)]

mod laws;

pub use laws::{
    objects_stand_where_code_says, tables_have_few_parameters, well_typed_files_are_kept,
    well_typed_files_are_sound,
};
