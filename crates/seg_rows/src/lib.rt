//! Boundaries of a text by a checked machine: one after another, each by a scan from the one before, or many at a time by the machine's
//! dense rows, where it has them.
//!
//! In specs/, Underway says what is known of a segment while it is read by rows.
#![tactic(auto)]

pub mod buffers;
mod places;
pub mod rule_segmenter_v2;
