//! Whether what stands before places goes on as the tables of a certificate say.
ghost use Rattle.std.specs.Prelude.{◌≡◌, ◌&&◌, ◌||◌, if◌then◌else◌, not, IsTrue, true, map};
ghost use Rattle.seg_rules.specs.RowRules.{at_start, flow as flow_of, has, moves_on, moved as moved_rows, no_flags, unread};
ghost use Rattle.seg_rules.specs.Given.{before_of, flags_by, lives_by, row_of, rules_of};

use crate::certificate::Before;
use crate::flow::flow_within;
use crate::rules::{Class, Count, Row, Rules, is_in};

// Whether a symbol leads from what stands before a place to this.
#[tactic(auto, unfolding(crate::specs::RowRules::moves_on))]
pub(crate) fn before_moves(
    rules: &Rules<'_>,
    from: &Before<'_>,
    symbol: u8,
    to: &Before<'_>,
) -> bool
    ensures { IsTrue result → moves_on (rules_of rules.now) (before_of (rules_of rules.now) from.now) symbol ≡ before_of (rules_of rules.now) to.now }
{
    moved(rules.above, from.above, symbol, to.above)
        && below_moves(rules, from, symbol, to)
        && glues(rules, from.glues, symbol) == to.glues
}

// Whether a mark would be glued after the symbol.
fn glues(rules: &Rules<'_>, glues: bool, symbol: u8) -> bool
    ensures { result ≡ ((has rules.now.marks symbol && glues) || (rules.now.has_marks && not (has rules.now.bare symbol))) }
{
    (is_in(rules.marks, symbol) && glues) || (rules.has_marks && !is_in(rules.bare, symbol))
}

// Whether a symbol leads from what is live of the rows below to this: a mark that is glued leaves it.
fn below_moves(rules: &Rules<'_>, from: &Before<'_>, symbol: u8, to: &Before<'_>) -> bool
    ensures { IsTrue result → (if has rules.now.marks symbol && from.now.glues
        then lives_by (map row_of rules.now.below.now) from.now.below.now
        else moved_rows (map row_of rules.now.below.now) (lives_by (map row_of rules.now.below.now) from.now.below.now) (if has rules.now.marks symbol then rules.now.alone else symbol))
        ≡ lives_by (map row_of rules.now.below.now) to.now.below.now }
{
    if is_in(rules.marks, symbol) && from.glues {
        from.below == to.below
    } else {
        moved(rules.below, from.below, unmarked(rules, symbol), to.below)
    }
}

// The symbol as which a symbol is read: a mark that isn't glued is read as another one.
pub(crate) fn unmarked(rules: &Rules<'_>, symbol: u8) -> u8
    ensures { result ≡ (if has rules.now.marks symbol then rules.now.alone else symbol) }
{
    if is_in(rules.marks, symbol) {
        rules.alone
    } else {
        symbol
    }
}

// Whether this is what stands before the first place.
pub(crate) fn is_start(rules: &Rules<'_>, to: &Before<'_>) -> bool
    ensures { IsTrue result → at_start (rules_of rules.now) ≡ before_of (rules_of rules.now) to.now }
{
    begin(rules.above, to.above) && begin(rules.below, to.below) && !to.glues
}

// Whether this is what is live of the left pattern at the start of a text, symbol 0.
#[tactic(auto, using(crate::proofs::Bits::none_live))]
fn begins(pattern: &[(Class, Count)], to: u32) -> bool
    ensures { IsTrue result → flow_of true pattern.now (flow_of true pattern.now (no_flags pattern.now) 0) 0 ≡ flags_by pattern.now to }
{
    match flow_within(true, pattern, 0, 0) {
        Some(live) => leads(pattern, live, 0, to),
        None => false,
    }
}

// Whether these are what is live of the left patterns of rows there.
fn begin(rows: &[Row<'_>], to: &[u32]) -> bool
    ensures { IsTrue result → unread (map row_of rows.now) ≡ lives_by (map row_of rows.now) to.now }
{
    if to.len() != rows.len() {
        return false;
    }
    for i in 0..rows.len() {
        if !begins(rows[i].left, to[i]) {
            return false;
        }
    }
    true
}

// Whether a symbol leads from what is live of a left pattern to this.
fn leads(pattern: &[(Class, Count)], from: u32, symbol: u8, to: u32) -> bool
    ensures { IsTrue result → flow_of true pattern.now (flags_by pattern.now from) symbol ≡ flags_by pattern.now to }
{
    match flow_within(true, pattern, from, symbol) {
        Some(live) => live == to,
        None => false,
    }
}

// Whether a symbol leads from what is live of the left patterns of rows to these.
fn moved(rows: &[Row<'_>], from: &[u32], symbol: u8, to: &[u32]) -> bool
    ensures { IsTrue result → moved_rows (map row_of rows.now) (lives_by (map row_of rows.now) from.now) symbol ≡ lives_by (map row_of rows.now) to.now }
{
    if from.len() != rows.len() || to.len() != rows.len() {
        return false;
    }
    for i in 0..rows.len() {
        if !leads(rows[i].left, from[i], symbol, to[i]) {
            return false;
        }
    }
    true
}
