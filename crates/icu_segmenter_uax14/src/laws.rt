//! Laws of the machine's boundaries, of every list of code points. So they hold of texts in every encoding, in code points.
ghost use Rattle.std.specs.Prelude.{◌≡◌, ◌↔◌, ℕ, List, [], ◌∷◌, ◌++◌, All};
ghost use Rattle.seg_text.specs.Boundaries.{boundary, start};
ghost use Rattle.seg_machine.specs.Pick.{machine_boundaries};
ghost use Rattle.seg_lines.specs.LineBreaks.{LineRules};
ghost use Rattle.seg_lines.specs.LineBreaks.LineFinder.{ByMachine};
ghost use Rattle.seg_rules.specs.Classes.{◌or◌, ◌but◌, no};
ghost use Rattle.icu_segmenter_uax14.specs.LineClasses.{every, AK, AL, AP, AS, B2, BA, BB, BK, CB, CL, CM, CP, CR, EB, EM, EX, GL, H2, H3, HH, HL, HY, ID, IN, IS, JL, JT, JV, LF, NL, NS, NU, OP, PO, PR, SP, SY, VF, VI, WJ, ZW, ZWJ, CP_NARROW, DOTTED, KEPT, LOOSE, OP_NARROW, QU_PF, QU_PI, QU_PLAIN, PICTOGRAPH};
ghost use Rattle.icu_segmenter_uax14.specs.Lines.{line_machine};
ghost use Rattle.icu_segmenter_uax14.specs.Neighbours.{BreaksWith, ComeApart, EndsInZeroWidth, EndsLine, Is, IsJoined, MustBreak, StayTogether, StayTogetherOverSpaces};
ghost use Rattle.icu_segmenter_uax14.specs.Tailored.{FollowsRules, HasScriptsOf, HasSymbolsOf, LinesFollowRules, Tailoring, machine_by, scripts_of, style_of};

use seg_rules::laws::{boundaries_are_places, boundary_is_verdict, row_fits_by_patterns};

/// Law: for every text the boundaries of the line machine, with any tailoring or none, are exactly the places where the rules of
/// UAX #14 revision 55 break, with status 1 where they must break.
pub fn lines_follow_rules()
    ensures { (tailoring : Tailoring) → FollowsRules (machine_by tailoring) }
{
    boundaries_are_places();
}

/// Law: so a segmenter by one of these machines breaks lines just at those places, and within runs where words of scripts end, if
/// it has any.
pub fn segmenters_follow_rules()
    ensures { (rules : LineRules) (tailoring : Tailoring) → rules.finder ≡ ByMachine (machine_by tailoring)
        → LinesFollowRules rules (machine_by tailoring) }
{
    lines_follow_rules();
}

/// Law: the symbol of every code point means its properties in Unicode 18.0; with a tailoring, for those that CSS Text 3 puts
/// in their place.
pub fn symbols_have_properties()
    ensures { (tailoring : Tailoring) → HasSymbolsOf (style_of tailoring) (machine_by tailoring) }
{}

/// Law: the script of every code point is the one whose dictionary may cut it: Thai, Lao, Khmer or Myanmar for class SA, else none;
/// with `break-all`, none at all.
pub fn symbols_have_scripts()
    ensures { (tailoring : Tailoring) → HasScriptsOf (scripts_of tailoring) (machine_by tailoring) }
{}

/// Law: a line must end after BK, LF and NL, after CR but before LF, and at the end of a text, and nowhere else (LB3 to LB5).
pub fn mandatory_breaks()
    ensures within { (tailoring : Tailoring) (before after : List ℕ) (last next : ℕ)
        → MustBreak tailoring (before ++ last ∷ []) (next ∷ after) ↔ EndsLine tailoring last next }
    ensures end { (tailoring : Tailoring) (before : List ℕ) (last status : ℕ)
        → BreaksWith tailoring status (before ++ last ∷ []) [] ↔ (status ≡ 1) }
{
    boundary_is_verdict();
    row_fits_by_patterns();
}

/// Law: no line breaks before a space, a zero-width space or what ends a line (LB5 to LB7: SP, ZW, BK, CR, LF, NL), but after what
/// ends one; and none breaks CR LF.
pub fn spaces_stay()
    ensures spaces { StayTogether (no (BK or CR or LF or NL)) (SP or ZW or BK or CR or LF or NL) }
    ensures line_ends { StayTogether CR LF }
{
    boundary_is_verdict();
    row_fits_by_patterns();
}

/// Law: no line breaks between a character and the marks after it (LB9: CM, ZWJ), unless it is a space or ends a line (BK, CR, LF, NL,
/// SP, ZW).
pub fn marks_stay()
    ensures { StayTogether (no (BK or CR or LF or NL or SP or ZW)) (CM or ZWJ) }
{
    boundary_is_verdict();
    row_fits_by_patterns();
}

/// Law: so such marks change nothing: after a character with any number of them, the last a CM, a line breaks just where it would after
/// the character alone, and with the same status (LB9).
pub fn marks_change_nothing()
    ensures { (tailoring : Tailoring) (before marks after : List ℕ) (last mark status : ℕ)
        → Is tailoring (no (BK or CR or LF or NL or SP or ZW or CM or ZWJ)) last → All (Is tailoring (CM or ZWJ)) marks → Is tailoring CM mark
        → BreaksWith tailoring status ((before ++ last ∷ marks) ++ mark ∷ []) after ↔ BreaksWith tailoring status (before ++ last ∷ []) after }
{
    boundary_is_verdict();
    row_fits_by_patterns();
}

/// Law: no line breaks after a zero-width joiner (LB8a), after a word joiner (LB11) or after glue, as a no-break space (LB12). Nor does
/// one before a word joiner, but after spaces and what ends a line.
pub fn joiners_stay()
    ensures after { StayTogether (ZWJ or WJ or GL) every }
    ensures before { StayTogether (no (BK or CR or LF or NL or SP or ZW)) WJ }
{
    boundary_is_verdict();
    row_fits_by_patterns();
}

/// Law: no line breaks before a closing mark, an exclamation or a slash (LB13: CL, CP, EX, SY), nor before what stands within numbers, as
/// a comma or a full stop (LB15d: IS), but after spaces and what ends a line. Before the first four none breaks even after spaces, but
/// after those that a zero-width space stands before (LB8).
pub fn closings_stay()
    ensures characters { StayTogether (no (BK or CR or LF or NL or SP or ZW)) (CL or CP or EX or SY or IS) }
    ensures after_spaces { (tailoring : Tailoring) (before after : List ℕ) (last next : ℕ) → Is tailoring (no (BK or CR or LF or NL)) last
        → Is tailoring (CL or CP or EX or SY) next → (EndsInZeroWidth tailoring (before ++ last ∷ []) → ⊥)
        → IsJoined tailoring (before ++ last ∷ []) (next ∷ after) }
{
    boundary_is_verdict();
    row_fits_by_patterns();
}

/// Law: no line breaks after an opening mark, even after spaces (LB14: OP).
pub fn openings_stay()
    ensures next { StayTogether OP every }
    ensures over_spaces { StayTogetherOverSpaces OP (no (CM or ZWJ)) }
{
    boundary_is_verdict();
    row_fits_by_patterns();
}

/// Law: no line breaks between a closing mark and what may not begin a line (LB16: CL, CP, NS), nor between two dashes (LB17: B2), even
/// where spaces stand between them.
pub fn dashes_stay()
    ensures non_starters { StayTogetherOverSpaces (CL or CP) NS }
    ensures dashes { StayTogetherOverSpaces B2 B2 }
{
    boundary_is_verdict();
    row_fits_by_patterns();
}

/// Law: no line breaks between letters (LB28: AL, HL), nor between letters and digits (LB23).
pub fn letters_and_digits_stay()
    ensures { StayTogether (AL or HL or NU) (AL or HL or NU) }
{
    boundary_is_verdict();
    row_fits_by_patterns();
}

/// Law: no line breaks within a number, as `-3.14`, `$100`, `50%` or `f(2)`. It doesn't between digits and what stands within numbers,
/// before digits after a hyphen, a prefix or a suffix, and after digits before one (LB25: NU, IS, SY, HY, PR, PO; LB13, LB15d). Nor does it
/// between digits and brackets that aren't East Asian (LB30). A tailoring that breaks prefixes and suffixes more loosely, `loose` in
/// Chinese and Japanese, may break after such a prefix and before such a suffix.
pub fn numbers_stay()
    ensures within { StayTogether NU (NU or IS or SY) }
    ensures before { StayTogether (HY or IS or PO or PR but LOOSE or CP_NARROW) NU }
    ensures after { StayTogether NU (PR or PO but LOOSE or OP_NARROW) }
{
    boundary_is_verdict();
    row_fits_by_patterns();
}

/// Law: nor does one break within a longer number, as `1,234/5`, `(12.5)%` or `$(.5`. It doesn't after digits and what stands within
/// numbers, before more of them, a prefix or a suffix, with or without a closing mark between. Nor does it between a prefix or a suffix and
/// the opening mark that a number follows (LB25).
pub fn long_numbers_stay()
    ensures infixes { (tailoring : Tailoring) (before infixes after : List ℕ) (digit next : ℕ) → Is tailoring NU digit
        → All (Is tailoring (IS or SY)) infixes → Is tailoring (NU or PR or PO but LOOSE) next
        → IsJoined tailoring (before ++ digit ∷ infixes) (next ∷ after) }
    ensures closings { (tailoring : Tailoring) (before infixes after : List ℕ) (digit closing next : ℕ) → Is tailoring NU digit
        → All (Is tailoring (IS or SY)) infixes → Is tailoring (CL or CP) closing → Is tailoring (PR or PO but LOOSE) next
        → IsJoined tailoring ((before ++ digit ∷ infixes) ++ closing ∷ []) (next ∷ after) }
    ensures brackets { (tailoring : Tailoring) (before after : List ℕ) (last opening digit : ℕ) → Is tailoring (PO or PR but LOOSE) last
        → Is tailoring OP opening → Is tailoring NU digit → IsJoined tailoring (before ++ last ∷ []) (opening ∷ digit ∷ after) }
    ensures points { (tailoring : Tailoring) (before after : List ℕ) (last opening point digit : ℕ) → Is tailoring (PO or PR but LOOSE) last
        → Is tailoring OP opening → Is tailoring IS point → Is tailoring NU digit
        → IsJoined tailoring (before ++ last ∷ []) (opening ∷ point ∷ digit ∷ after) }
{
    boundary_is_verdict();
    row_fits_by_patterns();
}

/// Law: no line breaks before a quotation mark that isn't an opening one, unless after spaces and what ends a line, nor after one that isn't
/// a closing one (LB19).
pub fn quotations_stay()
    ensures before { StayTogether (no (BK or CR or LF or NL or SP or ZW)) (QU_PLAIN or QU_PF) }
    ensures after { StayTogether (QU_PLAIN or QU_PI) every }
{
    boundary_is_verdict();
    row_fits_by_patterns();
}

/// Law: no line breaks before what allows a break after it, as a hyphen, nor before what may not begin a line, as a small kana (LB21: BA,
/// HH, HY, NS), nor before an ellipsis (LB22: IN). It may after spaces, what ends a line and CB (LB20). Nor does one break after what
/// allows a break before it (LB21: BB), but before CB. Marks may follow: then `marks_change_nothing` says it. Hyphens and ellipses that a
/// tailoring breaks more loosely aren't meant.
pub fn hyphens_stay()
    ensures before { StayTogether (no (BK or CR or LF or NL or SP or ZW or CB or CM)) (BA but LOOSE or HH but LOOSE or HY or NS or IN but LOOSE) }
    ensures after { StayTogether BB (no CB) }
{
    boundary_is_verdict();
    row_fits_by_patterns();
}

/// Law: no line breaks within a syllable of Hangul (LB26), nor between one and a prefix before it or a suffix after it (LB27).
pub fn hangul_syllables_stay()
    ensures leading { StayTogether JL (JL or JV or H2 or H3) }
    ensures vowels { StayTogether (JV or H2) (JV or JT) }
    ensures trailing { StayTogether (JT or H3) JT }
    ensures suffixes { StayTogether (JL or JV or JT or H2 or H3) (PO but LOOSE) }
    ensures prefixes { StayTogether (PR but LOOSE) (JL or JV or JT or H2 or H3) }
{
    boundary_is_verdict();
    row_fits_by_patterns();
}

/// Law: no line breaks within a syllable of a Brahmic script: after the pre-base of an aksara, and before its virama (LB28a).
pub fn aksaras_stay()
    ensures before { StayTogether AP (AK or DOTTED or AS) }
    ensures viramas { StayTogether (AK or DOTTED or AS) (VF or VI) }
{
    boundary_is_verdict();
    row_fits_by_patterns();
}

/// Law: no line breaks between an emoji and its modifier (LB30b).
pub fn emoji_modifiers_stay()
    ensures { StayTogether (EB or PICTOGRAPH) EM }
{
    boundary_is_verdict();
    row_fits_by_patterns();
}

/// Law: a line may break after a space (LB18), unless an opening mark or quotation mark stands before it (LB14, LB15a), or after it one
/// that no line breaks before (LB6, LB7, LB11, LB13, LB15b, LB15d; LB16 and LB17 say of NS and B2 when).
pub fn lines_break_after_spaces()
    ensures { (tailoring : Tailoring) (before after : List ℕ) (last space next : ℕ)
        → Is tailoring (no (SP or OP or QU_PI or CM or ZWJ)) last → Is tailoring SP space
        → Is tailoring (no (BK or CR or LF or NL or SP or ZW or WJ or CL or CP or EX or SY or IS or QU_PF or NS or B2 or CM or ZWJ)) next
        → BreaksWith tailoring 0 ((before ++ last ∷ []) ++ space ∷ []) (next ∷ after) }
{
    boundary_is_verdict();
    row_fits_by_patterns();
}

/// Law: a line may break between ideographs (LB31), but for those that the tailoring `keep-all` keeps; and between a letter, a digit or
/// an ideograph and what allows a break before or after it (LB21: BB, BA).
pub fn lines_break_between()
    ensures ideographs { ComeApart (ID but KEPT) (ID but KEPT) }
    ensures after { ComeApart BA (AL or HL or NU or ID) }
    ensures before { ComeApart (AL or HL or NU or ID) BB }
{
    boundary_is_verdict();
    row_fits_by_patterns();
}

/// Law: where lines break in `$3.14`, `(12.50)` and `hey, you!`: only at their ends, and after the space.
pub fn lines_of_examples()
    ensures price { machine_boundaries line_machine (0x24 ∷ 0x33 ∷ 0x2E ∷ 0x31 ∷ 0x34 ∷ []) ≡ start ∷ boundary 5 1 ∷ [] }
    ensures sum { machine_boundaries line_machine (0x28 ∷ 0x31 ∷ 0x32 ∷ 0x2E ∷ 0x35 ∷ 0x30 ∷ 0x29 ∷ []) ≡ start ∷ boundary 7 1 ∷ [] }
    ensures greeting { machine_boundaries line_machine (0x68 ∷ 0x65 ∷ 0x79 ∷ 0x2C ∷ 0x20 ∷ 0x79 ∷ 0x6F ∷ 0x75 ∷ 0x21 ∷ [])
        ≡ start ∷ boundary 5 0 ∷ boundary 9 1 ∷ [] }
{
    lines_follow_rules();
}
