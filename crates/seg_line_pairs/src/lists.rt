//! What stands between two units of lines, whatever the table says.
ghost use Rattle.std.specs.Prelude.{◌≡◌, [], ◌∷◌, Bool, ◌&&◌, not, true, Some, None, if◌then◌else◌};
ghost use Rattle.std.specs.Option.{option_map};
ghost use Rattle.seg_line_pairs.specs.declared.engines.LineEngine.TheVariants.{Seventeen};
ghost use Rattle.seg_line_pairs.specs.LineClasses.LineClass.{IN, IN_EASTASIAN, NS, NS_EASTASIAN};
ghost use Rattle.seg_line_pairs.specs.LineLists.{fits, is_normal_listed, keeps, listed, loose_list, loose_rows, hyphen_row, wave_row, iteration_row, middle_dot_row, leader_row, exclamation_row, wide_postfix_row, postfix_row, wide_prefix_row, prefix_row};
ghost use Rattle.seg_line_pairs.specs.LineRules.{is_among, is_one_of};

use crate::classes::{self, is_kept};
use crate::engines::LineEngine;
use crate::options::{LineBreakStrictness, LineStyle};

/// Two units side by side: the class of the left one and the code point that lists look at, and the class and the code point of the right one.
#[derive(Clone, Copy)]
pub struct Neighbours {
    /// The class of the left unit.
    pub left: u8,
    /// The code point of the left unit: its base, for the engine 17 its last.
    pub left_code_point: u32,
    /// The class of the right unit.
    pub right: u8,
    /// The code point of the right unit.
    pub right_code_point: u32,
}

/// Whether no boundary stands between two classes under `KeepAll`.
#[tactic(auto, unfolding(crate::specs::LineLists::keeps))]
#[inline(always)]
pub fn keeps(engine: LineEngine, style: LineStyle, left: u8, right: u8) -> bool
    ensures { result ≡ keeps engine style left right }
{
    style.keeps_all() && is_kept(engine, left) && is_kept(engine, right)
}

/// Whether a boundary stands between two units by the list of the strictness, where it decides. `is_joined`: the left unit ends with ZWJ.
#[tactic(auto, unfolding(crate::specs::LineLists::listed))]
#[inline(always)]
pub fn listed(
    engine: LineEngine,
    style: LineStyle,
    is_joined: bool,
    pair: Neighbours,
) -> Option<bool>
    ensures { result ≡ listed engine style is_joined pair.left pair.left_code_point pair.right pair.right_code_point }
{
    match style.strictness {
        LineBreakStrictness::Normal => by_normal_list(style, is_joined, pair.right_code_point),
        LineBreakStrictness::Loose => {
            unless_joined(is_joined, loose(engine, style.is_ja_or_zh, pair))
        }
        _ => None,
    }
}

/// Whether a boundary stands before a code point by the Normal list, where it decides. `is_joined`: ZWJ stands before it.
fn by_normal_list(style: LineStyle, is_joined: bool, code_point: u32) -> Option<bool>
    ensures { result ≡ (if is_normal_listed style code_point && not is_joined then Some true else None) }
{
    if style.is_ja_or_zh && is_wave(code_point) && !is_joined {
        Some(true)
    } else {
        None
    }
}

/// What a list says, but no boundary after ZWJ.
fn unless_joined(is_joined: bool, breaks: Option<bool>) -> Option<bool>
    ensures { result ≡ option_map (λ (said : Bool). said && not is_joined) breaks }
{
    match breaks {
        Some(breaks) => Some(breaks && !is_joined),
        None => None,
    }
}

/// What the first row of the loose list says that fits, if one fits.
#[tactic(auto, unfolding(crate::specs::LineLists::loose_list, crate::specs::LineLists::loose_rows))]
fn loose(engine: LineEngine, is_ja_or_zh: bool, pair: Neighbours) -> Option<bool>
    ensures { result ≡ loose_list (loose_rows engine) is_ja_or_zh pair.left pair.left_code_point pair.right pair.right_code_point }
{
    let from_signs = match engine {
        LineEngine::Classic => by_wide_signs(engine, is_ja_or_zh, pair),
        LineEngine::Seventeen => by_signs(is_ja_or_zh, pair),
    };
    let from_exclamation = by_row(fits_exclamation(engine, pair), is_ja_or_zh, from_signs);
    let from_leader = by_row(fits_leader(engine, pair), true, from_exclamation);
    let from_middle_dot = by_row(fits_middle_dot(engine, pair), is_ja_or_zh, from_leader);
    let from_iteration = by_row(fits_iteration(engine, pair), true, from_middle_dot);
    let from_wave = by_row(fits_wave(engine, pair), is_ja_or_zh, from_iteration);
    by_row(fits_hyphen(engine, pair), true, from_wave)
}

/// What the rows of wide signs say.
#[tactic(auto, unfolding(crate::specs::LineLists::loose_list))]
fn by_wide_signs(engine: LineEngine, is_ja_or_zh: bool, pair: Neighbours) -> Option<bool>
    ensures { result ≡ loose_list (wide_postfix_row engine ∷ wide_prefix_row engine ∷ []) is_ja_or_zh pair.left pair.left_code_point pair.right pair.right_code_point }
{
    let from_prefix = by_row(fits_wide_prefix(engine, pair), is_ja_or_zh, None);
    by_row(fits_wide_postfix(engine, pair), is_ja_or_zh, from_prefix)
}

/// What the rows of signs say, by the engine 17.
#[tactic(auto, unfolding(crate::specs::LineLists::loose_list))]
fn by_signs(is_ja_or_zh: bool, pair: Neighbours) -> Option<bool>
    ensures { result ≡ loose_list (wide_postfix_row Seventeen ∷ postfix_row ∷ wide_prefix_row Seventeen ∷ prefix_row ∷ []) is_ja_or_zh pair.left pair.left_code_point pair.right pair.right_code_point }
{
    let engine = LineEngine::Seventeen;
    let from_prefix = by_row(fits_prefix(pair), is_ja_or_zh, None);
    let from_wide_prefix = by_row(fits_wide_prefix(engine, pair), is_ja_or_zh, from_prefix);
    let from_postfix = by_row(fits_postfix(pair), is_ja_or_zh, from_wide_prefix);
    by_row(fits_wide_postfix(engine, pair), is_ja_or_zh, from_postfix)
}

/// What a row says where it fits, or else what the rows after it say.
fn by_row(fits: bool, breaks: bool, otherwise: Option<bool>) -> Option<bool>
    ensures { result ≡ (if fits then Some breaks else otherwise) }
{
    if fits { Some(breaks) } else { otherwise }
}

/// Whether the row of hyphens fits.
fn fits_hyphen(engine: LineEngine, pair: Neighbours) -> bool
    ensures { result ≡ fits pair.left pair.left_code_point pair.right pair.right_code_point (hyphen_row engine) }
{
    (engine == LineEngine::Seventeen || pair.right == classes::BA.by(engine))
        && is_hyphen(pair.right_code_point)
        && (pair.left == classes::ID.by(engine) || pair.left == classes::ID_EASTASIAN.by(engine))
}

/// Whether the row of wave dashes fits.
fn fits_wave(engine: LineEngine, pair: Neighbours) -> bool
    ensures { result ≡ fits pair.left pair.left_code_point pair.right pair.right_code_point (wave_row engine) }
{
    is_nonstarter(engine, pair.right) && is_wave(pair.right_code_point)
}

/// Whether the row of iteration marks fits.
fn fits_iteration(engine: LineEngine, pair: Neighbours) -> bool
    ensures { result ≡ fits pair.left pair.left_code_point pair.right pair.right_code_point (iteration_row engine) }
{
    is_nonstarter(engine, pair.right) && is_iteration(pair.right_code_point)
}

/// Whether the row of middle dots, colons and doubled signs fits.
fn fits_middle_dot(engine: LineEngine, pair: Neighbours) -> bool
    ensures { result ≡ fits pair.left pair.left_code_point pair.right pair.right_code_point (middle_dot_row engine) }
{
    is_nonstarter(engine, pair.right) && is_middle_dot(pair.right_code_point)
}

/// Whether the row of leaders fits.
fn fits_leader(engine: LineEngine, pair: Neighbours) -> bool
    ensures { result ≡ fits pair.left pair.left_code_point pair.right pair.right_code_point (leader_row engine) }
{
    is_leader(engine, pair.right) && is_leader(engine, pair.left)
}

/// Whether the row of exclamation and question marks fits.
fn fits_exclamation(engine: LineEngine, pair: Neighbours) -> bool
    ensures { result ≡ fits pair.left pair.left_code_point pair.right pair.right_code_point (exclamation_row engine) }
{
    (pair.right == classes::EX.by(engine) || pair.right == classes::EX_EASTASIAN.by(engine))
        && is_exclamation(pair.right_code_point)
}

/// Whether the row of wide signs after numbers fits.
fn fits_wide_postfix(engine: LineEngine, pair: Neighbours) -> bool
    ensures { result ≡ fits pair.left pair.left_code_point pair.right pair.right_code_point (wide_postfix_row engine) }
{
    pair.right == classes::PO_EASTASIAN.by(engine)
}

/// Whether the row of signs after numbers fits.
fn fits_postfix(pair: Neighbours) -> bool
    ensures { result ≡ fits pair.left pair.left_code_point pair.right pair.right_code_point postfix_row }
{
    pair.right == classes::PO.by(LineEngine::Seventeen)
        && (pair.right_code_point == 0x00B0
            || pair.right_code_point == 0x2030
            || pair.right_code_point == 0x2032
            || pair.right_code_point == 0x2033
            || pair.right_code_point == 0x2035
            || pair.right_code_point == 0x2103
            || pair.right_code_point == 0x2109)
}

/// Whether the row of wide signs before numbers fits.
fn fits_wide_prefix(engine: LineEngine, pair: Neighbours) -> bool
    ensures { result ≡ fits pair.left pair.left_code_point pair.right pair.right_code_point (wide_prefix_row engine) }
{
    pair.left == classes::PR_EASTASIAN.by(engine)
}

/// Whether the row of signs before numbers fits.
fn fits_prefix(pair: Neighbours) -> bool
    ensures { result ≡ fits pair.left pair.left_code_point pair.right pair.right_code_point prefix_row }
{
    pair.left == classes::PR.by(LineEngine::Seventeen)
        && (pair.left_code_point == 0x00A4
            || pair.left_code_point == 0x00B1
            || pair.left_code_point == 0x20AC
            || pair.left_code_point == 0x2116)
}

/// Whether the class is one of those that don't begin a line.
fn is_nonstarter(engine: LineEngine, class: u8) -> bool
    ensures { result ≡ is_one_of engine (NS ∷ NS_EASTASIAN ∷ []) class }
{
    class == classes::NS.by(engine) || class == classes::NS_EASTASIAN.by(engine)
}

/// Whether the class is one of leaders.
fn is_leader(engine: LineEngine, class: u8) -> bool
    ensures { result ≡ is_one_of engine (IN ∷ IN_EASTASIAN ∷ []) class }
{
    class == classes::IN.by(engine) || class == classes::IN_EASTASIAN.by(engine)
}

/// Whether the code point is a hyphen or an en dash.
fn is_hyphen(code_point: u32) -> bool
    ensures { result ≡ is_among (0x2010 ∷ 0x2013 ∷ []) code_point }
{
    code_point == 0x2010 || code_point == 0x2013
}

/// Whether the code point is a wave dash, or the double hyphen of katakana.
fn is_wave(code_point: u32) -> bool
    ensures { result ≡ is_among (0x301C ∷ 0x30A0 ∷ []) code_point }
{
    code_point == 0x301C || code_point == 0x30A0
}

/// Whether the code point is an iteration mark.
fn is_iteration(code_point: u32) -> bool
    ensures { result ≡ is_among (0x3005 ∷ 0x303B ∷ 0x309D ∷ 0x309E ∷ 0x30FD ∷ 0x30FE ∷ []) code_point }
{
    code_point == 0x3005
        || code_point == 0x303B
        || code_point == 0x309D
        || code_point == 0x309E
        || code_point == 0x30FD
        || code_point == 0x30FE
}

/// Whether the code point is a middle dot, a wide colon or semicolon, or a doubled sign.
fn is_middle_dot(code_point: u32) -> bool
    ensures { result ≡ is_among (0x30FB ∷ 0xFF1A ∷ 0xFF1B ∷ 0xFF65 ∷ 0x203C ∷ 0x2047 ∷ 0x2048 ∷ 0x2049 ∷ []) code_point }
{
    code_point == 0x30FB
        || code_point == 0xFF1A
        || code_point == 0xFF1B
        || code_point == 0xFF65
        || code_point == 0x203C
        || code_point == 0x2047
        || code_point == 0x2048
        || code_point == 0x2049
}

/// Whether the code point is a wide exclamation or question mark.
fn is_exclamation(code_point: u32) -> bool
    ensures { result ≡ is_among (0xFF01 ∷ 0xFF1F ∷ []) code_point }
{
    code_point == 0xFF01 || code_point == 0xFF1F
}
