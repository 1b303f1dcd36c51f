//! A compiler of rules of boundaries that are data to machines that are checked: `compile`, and `compile_certified` with the certificate.
//!
//! It reads the rules into tables of what may stand before places and of what may be owed to them, looks for the states of a machine,
//! makes equal states one, and relates the machine to the rules. Of all this nothing is trusted: `check` of seg_rules reads the rules,
//! the machine and the tables again, and only a machine that passes is given.
#![tactic(auto)]

mod befores;
mod certified;
pub mod compile;
mod dues;
mod fault;
mod given;
mod lists;
mod patterns;
mod records;
mod relation;
mod scans;
mod search;
mod smallest;
mod tables;
mod witness;
