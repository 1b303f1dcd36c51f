//! Rules that have machines, as text, and texts to be parted by them.

/// Names as `camelCase` and `snake_case`.
pub(crate) static NAMES: &str = r"
# Symbols.
Lower = \p{Ll}
Upper = \p{Lu} + \p{Lt}
Digit = \p{gc=Nd}
Line  = [_]
Mark  = \p{M}

# Rules. A mark is one with what it stands on.
X Mark* treated as X, but after Line; alone as other
Line × Line
(Lower | Upper) × Lower
Digit × Digit
(Lower | Upper) × Digit
other × other
÷
";

pub(crate) static NAME_TEXTS: [&str; 4] = [
    "camelCaseName",
    "snake_case__name2",
    "e\u{301}tatInitial x1",
    "",
];

/// Addresses: parted after a slash and before a dot, a question mark and the like, and never within `://` and `%41`.
pub(crate) static ADDRESSES: &str = r"
Colon   = [:]
Slash   = [/]
Dot     = [.]
Query   = [? & = \# ~ _]
Percent = [%]
Hex     = [0..9 A..F a..f]

Colon × Slash
Slash × Slash
Slash ÷
÷ (Dot | Query)
Percent Hex? ×
×
";

pub(crate) static ADDRESS_TEXTS: [&str; 3] = [
    "https://example.org/a/b.html?x=1&y=2",
    "//host/%41%4f/",
    "a.b",
];

/// A format of one's own: fields end with a semicolon that isn't escaped, and records with the end of a line, of status 1.
pub(crate) static RECORDS: &str = r"
Return = U+000D
Feed   = U+000A
Semi   = [;]
Escape = [\\]

Return × Feed
(Return | Feed) !
# An even number of escapes is text.
(sot | [^ Escape]) (Escape Escape)* Escape × Semi
(sot | [^ Escape]) (Escape Escape)* Escape Semi ×
Semi ÷
! eot
×
";

pub(crate) static RECORD_TEXTS: [&str; 3] = ["a=1;b=2;\nc=3\r\nd", "a\\;b;c\\\\;d", "\n\n"];

/// Texts for the rules of lines.
pub(crate) static LINE_TEXTS: [&str; 5] = [
    "Add 3.50 kg (or so).",
    "$(.5) %(.7)",
    "日本語の文。次の文",
    "한국어 문장",
    "a\r\nb",
];

/// Words, of UAX #29.
pub(crate) static WORDS: &str = r"
CR              = \p{WB=CR}
LF              = \p{WB=LF}
Newline         = \p{WB=Newline}
Extend          = \p{WB=Extend}
ZWJ             = \p{WB=ZWJ}
Format          = \p{WB=Format}
RI              = \p{WB=RI}
Katakana        = \p{WB=Katakana}
Hebrew_Letter   = \p{WB=Hebrew_Letter}
ALetter         = \p{WB=ALetter} - \p{ExtPict}
Single_Quote    = \p{WB=Single_Quote}
Double_Quote    = \p{WB=Double_Quote}
MidNumLet       = \p{WB=MidNumLet}
MidLetter       = \p{WB=MidLetter}
MidNum          = \p{WB=MidNum}
Numeric         = \p{WB=Numeric}
ExtendNumLet    = \p{WB=ExtendNumLet}
WSegSpace       = \p{WB=WSegSpace}
Picture         = \p{ExtPict} - \p{WB=ALetter}
ALetter_Picture = \p{ExtPict} - Picture

CR × LF
(Newline | CR | LF) ÷
÷ (Newline | CR | LF)
ZWJ × (Picture | ALetter_Picture)
WSegSpace × WSegSpace
X (Extend | Format | ZWJ)* treated as X, but after CR LF Newline; alone as other
(ALetter | ALetter_Picture | Hebrew_Letter) × (ALetter | ALetter_Picture | Hebrew_Letter)
(ALetter | ALetter_Picture | Hebrew_Letter) × (MidLetter | MidNumLet | Single_Quote) (ALetter | ALetter_Picture | Hebrew_Letter)
(ALetter | ALetter_Picture | Hebrew_Letter) (MidLetter | MidNumLet | Single_Quote) × (ALetter | ALetter_Picture | Hebrew_Letter)
Hebrew_Letter × Single_Quote
Hebrew_Letter × Double_Quote Hebrew_Letter
Hebrew_Letter Double_Quote × Hebrew_Letter
Numeric × Numeric
(ALetter | ALetter_Picture | Hebrew_Letter) × Numeric
Numeric × (ALetter | ALetter_Picture | Hebrew_Letter)
Numeric (MidNum | MidNumLet | Single_Quote) × Numeric
Numeric × (MidNum | MidNumLet | Single_Quote) Numeric
Katakana × Katakana
(ALetter | ALetter_Picture | Hebrew_Letter | Numeric | Katakana | ExtendNumLet) × ExtendNumLet
ExtendNumLet × (ALetter | ALetter_Picture | Hebrew_Letter | Numeric | Katakana)
sot (RI RI)* RI × RI
[^ RI] (RI RI)* RI × RI
÷
";

/// Sentences, of UAX #29.
pub(crate) static SENTENCES: &str = r"
CR        = \p{SB=CR}
LF        = \p{SB=LF}
Sep       = \p{SB=Sep}
Extend    = \p{SB=Extend}
Format    = \p{SB=Format}
Sp        = \p{SB=Sp}
Lower     = \p{SB=Lower}
Upper     = \p{SB=Upper}
OLetter   = \p{SB=OLetter}
Numeric   = \p{SB=Numeric}
ATerm     = \p{SB=ATerm}
STerm     = \p{SB=STerm}
Close     = \p{SB=Close}
SContinue = \p{SB=SContinue}

CR × LF
(CR | LF | Sep) ÷
X (Extend | Format)* treated as X, but after CR LF Sep; alone as other
ATerm × Numeric
(Upper | Lower) ATerm × Upper
ATerm Close* Sp* × [^ OLetter Upper Lower Sep CR LF STerm ATerm]* Lower
(STerm | ATerm) Close* Sp* × (SContinue | STerm | ATerm)
(STerm | ATerm) Close* × (Close | Sp | Sep | CR | LF)
(STerm | ATerm) Close* Sp* × (Sp | Sep | CR | LF)
(STerm | ATerm) Close* Sp* (Sep | CR | LF)? ÷
×
";

/// Extended grapheme clusters, of UAX #29; the kit's properties name no Indic_Conjunct_Break.
pub(crate) static CLUSTERS: &str = r"
CR           = \p{GCB=CR}
LF           = \p{GCB=LF}
Control      = \p{GCB=Control}
ZWJ          = \p{GCB=ZWJ}
Linker       = [U+094D U+09CD U+0ACD U+0B4D U+0C4D U+0D4D U+1039 U+17D2 U+1A60 U+1B44 U+1BAB U+1CF5..U+1CF6 U+A9C0 U+AAF6 U+10A3F U+11133 U+113D0 U+1193E U+11A3A U+11A47 U+11A99 U+11F42] - \p{GCB=Other}
Bare_Linker  = [U+094D U+09CD U+0ACD U+0B4D U+0C4D U+0D4D U+1039 U+17D2 U+1A60 U+1B44 U+1BAB U+1CF5..U+1CF6 U+A9C0 U+AAF6 U+10A3F U+11133 U+113D0 U+1193E U+11A3A U+11A47 U+11A99 U+11F42] - Linker
Extend_Alone = U+200C
Extend       = \p{GCB=Extend} - Linker - Extend_Alone
RI           = \p{GCB=RI}
Prepend      = \p{GCB=Prepend}
SpacingMark  = \p{GCB=SpacingMark}
L            = \p{GCB=L}
V            = \p{GCB=V}
T            = \p{GCB=T}
LV           = \p{GCB=LV}
LVT          = \p{GCB=LVT}
Consonant    = [U+0915..U+0939 U+0958..U+095F U+0978..U+097F U+0995..U+09A8 U+09AA..U+09B0 U+09B2 U+09B6..U+09B9 U+09DC..U+09DD U+09DF U+09F0..U+09F1 U+0A95..U+0AA8 U+0AAA..U+0AB0 U+0AB2..U+0AB3 U+0AB5..U+0AB9 U+0AF9 U+0B15..U+0B28 U+0B2A..U+0B30 U+0B32..U+0B33 U+0B35..U+0B39 U+0B5C..U+0B5D U+0B5F U+0B71 U+0C15..U+0C28 U+0C2A..U+0C39 U+0C58..U+0C5A U+0D15..U+0D3A U+1000..U+102A U+103F U+1050..U+1055 U+105A..U+105D U+1061 U+1065..U+1066 U+106E..U+1070 U+1075..U+1081 U+108E U+1780..U+17B3 U+1A20..U+1A54 U+1B0B..U+1B0C U+1B13..U+1B33 U+1B45..U+1B4C U+1B83..U+1BA0 U+1BAE..U+1BAF U+1BBB..U+1BBD U+A989..U+A98B U+A98F..U+A9B2 U+A9E0..U+A9E4 U+A9E7..U+A9EF U+A9FA..U+A9FE U+AA60..U+AA6F U+AA71..U+AA73 U+AA7A U+AA7E..U+AA7F U+AAE0..U+AAEA U+ABC0..U+ABDA U+10A00 U+10A10..U+10A13 U+10A15..U+10A17 U+10A19..U+10A35 U+11103..U+11126 U+11144 U+11147 U+11380..U+11389 U+1138B U+1138E U+11390..U+113B5 U+11900..U+11906 U+11909 U+1190C..U+11913 U+11915..U+11916 U+11918..U+1192F U+11A00 U+11A0B..U+11A32 U+11A50 U+11A5C..U+11A83 U+11B0A U+11DF1 U+11F04..U+11F10 U+11F12..U+11F33]
Picture      = \p{Extended_Pictographic}

CR × LF
(Control | CR | LF) ÷
÷ (Control | CR | LF)
L × (L | V | LV | LVT)
(LV | V) × (V | T)
(LVT | T) × T
× (Extend | Linker | Extend_Alone | ZWJ)
× SpacingMark
Prepend ×
(Linker | Bare_Linker) (Extend | ZWJ)* × Consonant
Picture (Extend | Linker | Extend_Alone)* ZWJ × Picture
sot (RI RI)* RI × RI
[^ RI] (RI RI)* RI × RI
÷
";
