//! The memoised engine: the boundaries of a text by a checked machine, where no configuration is looked up twice.
//!
//! A configuration is a state, a place, and the set of lookaheads that a scan has named; the **grid** has a cell for each. Here are the
//! configurations of the text `aaaa` by a machine without lookaheads: `a` leads from START to S1, which accepts, and from S1 and S2 to S2,
//! which doesn't. A number says which scan looks it up, and `n` that its cell is marked as leading to nothing.
//!
//! ```text
//! place    0     1     2     3     4
//! START    1     2     3     4
//! S1             1     2     3     4
//! S2                   1n    1n    1n
//! ```
//!
//! The first scan looks up five, and has its pick at place 1. The second comes from S1 to S2 at place 3, which leads to nothing: so its pick
//! is at place 2. All four look up eleven configurations, each of them once.
//!
//! - **Until a lookahead is named** no condition holds, and what one picks later lies there or after it. So a scan marks what comes after an
//!   acceptance at once, writes no other cell, and goes nowhere back.
//! - **From the first name on** it leaves in each cell the **way** that it came. Once the outcome of the last is known, it goes back over it, and
//!   each cell gets the outcome from there on: nothing, or a condition that waits for the place of its lookahead. A pick ends the way back.
//! - **The window**: the table is a map from configurations to cells. It holds the grid from a first cell on, as far as one was written.
//!   What is counted is how many different configurations were looked up, whether they still have cells or not.
//!
//! ```text
//! grid     |  let go  |  # # # . . # .  |  unknown  |
//!          0        first        first + held     Q * 2^L * (n + 1)
//! ```
//!
//! In specs/, Configurations says what scans look up and what they find; Grids the table as a map, and what its cells tell of the scans so far;
//! Memos what is seen from outside.
#![tactic(auto)]

pub mod configuration;
pub mod laws;
pub mod memo;
pub mod reader;
mod search;
mod table;
