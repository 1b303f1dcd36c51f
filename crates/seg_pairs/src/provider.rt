//! Pair tables and their overrides, each checked where it is made.
mod line_properties;
mod line_v3_properties;
pub(crate) mod pair_checks;
mod pairs;

pub use pairs::{BreakState, RuleBreakData, RuleBreakDataOverride};
