//! Lines by a pair table. For both engines: pair tables with what options say, classes, lists, texts that are read ahead, pairs that the table alone
//! decides, and the iterator over what is found next. For the classic one: units of code points with their marks, and the verdicts on them.
#![tactic(auto)]

pub mod boundaries;
pub mod classes;
pub mod classic;
pub mod engines;
pub mod events;
pub mod inside_cuts;
pub mod laws;
pub mod line_pairs;
pub mod lists;
pub mod options;
pub mod plain_pairs;
pub mod read_ahead;
pub mod units;
pub mod verdicts;
