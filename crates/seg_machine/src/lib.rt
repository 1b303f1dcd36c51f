//! State machines, checked and tailored: a text's segments are the picks of a checked machine. Their dense rows, for those who ask for them.
#![tactic(auto)]

pub mod certain;
pub mod dense_rows;
pub mod laws;
pub mod machine_parts;
pub mod provider;
pub mod tailored_machine;
