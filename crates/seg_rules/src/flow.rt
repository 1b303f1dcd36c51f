//! Which rests of a pattern may come next, as the bits of a number: the whole pattern in the lowest.
ghost use Rattle.std.specs.Prelude.{◌≡◌, ◌<◌, ◌≤◌, ◌^◌, ◌&&◌, ◌||◌, IfSome};
ghost use Rattle.seg_rules.specs.RowRules.{has, flow as flow_of, is_full as has_whole, is_live as has_live};
ghost use Rattle.seg_rules.specs.Given.{flags_by, is_odd, width};

use crate::rules::{Class, Count, is_in};

// What is live after a symbol, where the whole pattern may begin there or not.
#[tactic(auto, using(crate::proofs::Bits::bit_fits, crate::proofs::Bits::once_is, crate::proofs::Bits::pairs_flow), unfolding(crate::specs::RowRules::flow, crate::specs::Given::flags_by, crate::specs::Given::width))]
pub(crate) fn flow(begins: bool, pattern: &[(Class, Count)], live: u32, symbol: u8) -> u32
    requires { width pattern.now ≤ 16 }
    ensures fits { result < 2 ^ width pattern.now }
    ensures value { flags_by pattern.now result ≡ flow_of begins pattern.now (flags_by pattern.now live) symbol }
{
    let Some((item, rest)) = pattern.split_first() else {
        return begins as u32;
    };
    let next = goes_on(live, item.0, symbol);
    match item.1 {
        Count::One => begins as u32 + 2 * flow(next, rest, live / 2, symbol),
        Count::Optional => begins as u32 + 2 * flow(either(begins, next), rest, live / 2, symbol),
        Count::Star => {
            let here = either(begins, next);
            here as u32 + 2 * flow(here, rest, live / 2, symbol)
        }
        Count::Pairs => {
            let here = either(begins, goes_on(live / 2, item.0, symbol));
            here as u32 + 2 * (next as u32 + 2 * flow(here, rest, live / 2 / 2, symbol))
        }
    }
}

// Whether the first rest is live and its class has the symbol.
fn goes_on(live: u32, class: Class, symbol: u8) -> bool
    ensures { result ≡ (is_odd live && has class symbol) }
{
    live % 2 == 1 && is_in(class, symbol)
}

// Whether one of them is true.
fn either(this: bool, that: bool) -> bool
    ensures { result ≡ (this || that) }
{
    this || that
}

// The longest pattern that has no more than 16 flags, whatever its items.
const MAX_ITEMS: usize = 7;

// How a pattern flows, or `None` where it is too long.
#[tactic(auto, using(crate::proofs::Bits::narrow))]
pub(crate) fn flow_within(
    begins: bool,
    pattern: &[(Class, Count)],
    live: u32,
    symbol: u8,
) -> Option<u32>
    ensures fits { IfSome result (λ bits. bits < 2 ^ width pattern.now) }
    ensures value { IfSome result (λ bits. flags_by pattern.now bits ≡ flow_of begins pattern.now (flags_by pattern.now live) symbol) }
{
    if pattern.len() > MAX_ITEMS {
        return None;
    }
    Some(flow(begins, pattern, live, symbol))
}

// Whether the whole pattern fits what was read: its last rest, the empty one, is live.
#[tactic(auto, unfolding(crate::specs::RowRules::is_full, crate::specs::Given::flags_by), using(crate::proofs::Bits::full_later))]
pub(crate) fn is_full(pattern: &[(Class, Count)], live: u32) -> bool
    ensures { result ≡ has_whole (flags_by pattern.now live) }
{
    let Some((item, rest)) = pattern.split_first() else {
        return live % 2 == 1;
    };
    match item.1 {
        Count::Pairs => is_full(rest, live / 2 / 2),
        _ => is_full(rest, live / 2),
    }
}

// Whether some rest is live.
#[tactic(auto, using(crate::proofs::Bits::live_bits))]
pub(crate) fn is_live(pattern: &[(Class, Count)], live: u32) -> bool
    requires { live < 2 ^ width pattern.now }
    ensures { result ≡ has_live (flags_by pattern.now live) }
{
    let _ = pattern;
    live != 0
}
