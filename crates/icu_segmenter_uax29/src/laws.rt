//! Laws of the machines' boundaries, of every list of code points, and so of texts in every encoding.
ghost use Rattle.std.specs.Prelude.{◌≡◌, ◌⊎◌, ◌↔◌, ℕ, true, List, [], ◌∷◌, ◌++◌, reverse};
ghost use Rattle.ucd_breaks.specs.GraphemeClusterBreak.{grapheme_cluster_break};
ghost use Rattle.ucd_breaks.specs.declared.GraphemeClusterBreak.TheVariants.{Cr, Extend, L, Lf, Lv, Lvt, Prepend, RegionalIndicator, SpacingMark, T, V, Zwj};
ghost use Rattle.ucd_breaks.specs.SentenceBreak.{sentence_break};
ghost use Rattle.ucd_breaks.specs.declared.SentenceBreak.TheVariants as Sb;
ghost use Rattle.ucd_breaks.specs.declared.WordBreak.TheVariants as Wb;
ghost use Rattle.ucd_derived.specs.IndicConjunctBreak.{indic_conjunct_break};
ghost use Rattle.ucd_derived.specs.declared.IndicConjunctBreak.TheVariants as InCb;
ghost use Rattle.ucd_emoji.specs.Binary.{is_extended_pictographic};
ghost use Rattle.unicode_segmentation.specs.Grapheme.{is_grapheme_break};
ghost use Rattle.unicode_segmentation.specs.Sentence.{before_close_sp, is_para_sep, is_sa_term, is_sentence_break, significant};
ghost use Rattle.unicode_segmentation.specs.Word.{is_word_break};
ghost use Rattle.seg_text.specs.Boundaries.{offsets, start};
ghost use Rattle.seg_machine.specs.Machine.{symbol_and_script, symbols_of};
ghost use Rattle.seg_machine.specs.Pick.{machine_boundaries};
ghost use Rattle.seg_rules.specs.Plain.{plain_places};
ghost use Rattle.icu_segmenter_uax29.specs.ClusterRules.{cluster_rules};
ghost use Rattle.icu_segmenter_uax29.specs.Clusters.{FindsClusters, cluster_machine};
ghost use Rattle.icu_segmenter_uax29.specs.Following.{FollowsRules};
ghost use Rattle.icu_segmenter_uax29.specs.Neighbours.{IsBoundary, IsJoined, IsSentenceBoundary, IsSentenceJoined, IsWordBoundary, WordsHoldTogether, WordsStayTogether, all_but_line_ends, StayTogether, all_but_controls, EndsInWholeFlags, AllExtend, AllInConjunct};
ghost use Rattle.icu_segmenter_uax29.specs.Properties.{HasProperties};
ghost use Rattle.icu_segmenter_uax29.specs.SentenceRules.{sentence_rules};
ghost use Rattle.icu_segmenter_uax29.specs.SentenceValues.{HasSentenceBreak};
ghost use Rattle.icu_segmenter_uax29.specs.Sentences.{FindsSentences, sentence_machine};
ghost use Rattle.icu_segmenter_uax29.specs.TypedWords.{typed_word_machine};
ghost use Rattle.icu_segmenter_uax29.specs.WordRules.{word_rules};
ghost use Rattle.icu_segmenter_uax29.specs.WordTypes.{HasTypedWordBreak, character, typed_ends, word_script, word_type};
ghost use Rattle.icu_segmenter_uax29.specs.WordValues.{HasWordBreak};
ghost use Rattle.icu_segmenter_uax29.specs.Words.{FindsWords, word_machine, words};

/// Law: the symbol of every code point in the machine of clusters means its Grapheme_Cluster_Break, Indic_Conjunct_Break and Extended_Pictographic.
pub fn symbols_are_properties()
    ensures { (code_point : ℕ) → HasProperties code_point (symbol_and_script cluster_machine code_point).0 }
{}

/// Law: the boundaries of the machine are the start and the ends of the extended grapheme clusters of UAX #29, and no others:
/// one stands between two parts of a text just where the rules GB1 to GB999 have one.
pub fn clusters_are_uax29()
    ensures clusters { FindsClusters (machine_boundaries cluster_machine) }
    ensures places { (before after : List ℕ) → IsBoundary before after ↔ (is_grapheme_break true (reverse before) after ≡ true) }
{}

/// Law: the boundaries of the machine of clusters are for every text exactly the places where the rows of specs/ClusterRules.antt
/// break, GB3 to GB999 of UAX #29.
pub fn clusters_follow_rules()
    ensures { FollowsRules cluster_rules cluster_machine }
{}

/// Law: a cluster never parts CR LF.
pub fn line_ends_stay()
    ensures values { StayTogether (Cr ∷ []) (Lf ∷ []) }
    ensures code_points { (before after : List ℕ) → IsJoined (before ++ 0x0D ∷ []) (0x0A ∷ after) }
{}

/// Law: a cluster never parts a syllable of Hangul: its leading consonants from one another and from what begins with a vowel,
/// its vowels from one another and from the trailing consonants, and those from one another.
pub fn hangul_syllables_stay()
    ensures leading { StayTogether (L ∷ []) (L ∷ V ∷ Lv ∷ Lvt ∷ []) }
    ensures vowels { StayTogether (Lv ∷ V ∷ []) (V ∷ T ∷ []) }
    ensures trailing { StayTogether (Lvt ∷ T ∷ []) (T ∷ []) }
{}

/// Law: what extends a character stays with it, and so does what is put before one, unless that is a control.
pub fn marks_stay()
    ensures after { StayTogether all_but_controls (Extend ∷ Zwj ∷ SpacingMark ∷ []) }
    ensures before { StayTogether (Prepend ∷ []) all_but_controls }
{}

/// Law: a cluster never parts the two regional indicators of a flag: after whole flags, or none, two stay together.
pub fn flags_stay()
    ensures { (before after : List ℕ) (one other : ℕ) → EndsInWholeFlags before → grapheme_cluster_break one ≡ RegionalIndicator
        → grapheme_cluster_break other ≡ RegionalIndicator → IsJoined (before ++ one ∷ []) (other ∷ after) }
{}

/// Law: a cluster never parts a sequence of emoji: Extended_Pictographic Extend* ZWJ stays with the Extended_Pictographic after it.
pub fn emoji_sequences_stay()
    ensures { (before extends after : List ℕ) (one joiner other : ℕ) → is_extended_pictographic one ≡ true → AllExtend extends
        → grapheme_cluster_break joiner ≡ Zwj → is_extended_pictographic other ≡ true
        → IsJoined ((before ++ one ∷ extends) ++ joiner ∷ []) (other ∷ after) }
{}

/// Law: a cluster never parts an Indic conjunct: a linker, with what else may stand within a conjunct, stays with the consonant
/// after it.
pub fn conjuncts_stay()
    ensures { (before marks after : List ℕ) (linker consonant : ℕ) → indic_conjunct_break linker ≡ InCb.Linker → AllInConjunct marks
        → indic_conjunct_break consonant ≡ InCb.Consonant → IsJoined (before ++ linker ∷ marks) (consonant ∷ after) }
{}

/// Law: the symbol of every code point in the machine of sentences means its Sentence_Break.
pub fn sentence_symbols_are_values()
    ensures { (code_point : ℕ) → HasSentenceBreak code_point (symbol_and_script sentence_machine code_point).0 }
{}

/// Law: the boundaries of the machine of sentences are the start and the ends of the sentences of UAX #29, and no others: one
/// stands between two parts of a text just where the rules SB1 to SB998 have one.
pub fn sentences_are_uax29()
    ensures sentences { FindsSentences (machine_boundaries sentence_machine) }
    ensures places { (before after : List ℕ) → IsSentenceBoundary before after ↔ (is_sentence_break (reverse before) after ≡ true) }
{}

/// Law: the boundaries of the machine of sentences are for every text exactly the places where the rows of specs/SentenceRules.antt
/// break, SB3 to SB998 of UAX #29.
pub fn sentences_follow_rules()
    ensures { FollowsRules sentence_rules sentence_machine }
{}

/// Law: the symbol of every code point in the machine of words means its Word_Break and Extended_Pictographic.
pub fn word_symbols_are_properties()
    ensures { (code_point : ℕ) → HasWordBreak code_point (symbol_and_script word_machine code_point).0 }
{}

/// Law: the boundaries of the machine of words are the start and the ends of the words of UAX #29, and no others: one stands
/// between two parts of a text just where the rules WB1 to WB999 have one.
pub fn words_are_uax29()
    ensures words { FindsWords (machine_boundaries word_machine) }
    ensures places { (before after : List ℕ) → IsWordBoundary before after ↔ (is_word_break (reverse before) after ≡ true) }
{}

/// Law: the boundaries of the machine of words are for every text exactly the places where the rows of specs/WordRules.antt
/// break, WB3 to WB999 of UAX #29.
pub fn words_follow_rules()
    ensures { FollowsRules word_rules word_machine }
{}

/// Law: in the machine of typed words the symbol of every code point means its Word_Break and Extended_Pictographic, and
/// says whether it is a letter that the rules know nothing of.
pub fn typed_symbols_have_properties()
    ensures { (code_point : ℕ) → HasTypedWordBreak code_point (symbol_and_script typed_word_machine code_point).0 }
{}

/// Law: and its script is the one whose dictionary may cut it: Thai, Lao, Khmer or Myanmar where its Line_Break is SA, Chinese or
/// Japanese where it is Han, Hiragana or Katakana, and else none.
pub fn typed_symbols_have_scripts()
    ensures { (code_point : ℕ) → (symbol_and_script typed_word_machine code_point).1 ≡ word_script (character code_point) }
{}

/// Law: the boundaries of the machine of typed words are those of the machine of words, and so the start and the ends of the words
/// of UAX #29, and the places of the rows of specs/WordRules.antt, and no others.
pub fn typed_words_are_words()
    ensures same { (code_points : List ℕ) → offsets (machine_boundaries typed_word_machine code_points) ≡ offsets (machine_boundaries word_machine code_points) }
    ensures words { FindsWords (machine_boundaries typed_word_machine) }
    ensures rows { (code_points : List ℕ) → offsets (machine_boundaries typed_word_machine code_points)
        ≡ offsets (start ∷ plain_places word_rules 0 [] (symbols_of word_machine code_points)) }
{}

/// Law: the status of each boundary but the first is the type of the word before it.
pub fn word_types()
    ensures { (code_points : List ℕ) → machine_boundaries typed_word_machine code_points ≡ start ∷ typed_ends 0 (words code_points) }
{}

/// Law: the types of `can't`, `3.14`, `a1_`, `_` and `漢`.
pub fn some_words_have_types()
    ensures letters { word_type (0x63 ∷ 0x61 ∷ 0x6E ∷ 0x27 ∷ 0x74 ∷ []) ≡ 2 }
    ensures digits { word_type (0x33 ∷ 0x2E ∷ 0x31 ∷ 0x34 ∷ []) ≡ 1 }
    ensures both { word_type (0x61 ∷ 0x31 ∷ 0x5F ∷ []) ≡ 1 }
    ensures neither { word_type (0x5F ∷ []) ≡ 0 }
    ensures ideograph { word_type (0x6F22 ∷ []) ≡ 2 }
{}

/// Law: no boundary of words parts CR LF, nor spaces from one another.
pub fn line_ends_and_spaces_stay()
    ensures line_ends { WordsStayTogether (Wb.Cr ∷ []) (Wb.Lf ∷ []) }
    ensures spaces { WordsStayTogether (Wb.WSegSpace ∷ []) (Wb.WSegSpace ∷ []) }
{}

/// Law: what extends or formats a character stays in its word.
pub fn marks_stay_in_words()
    ensures { WordsStayTogether all_but_line_ends (Wb.Extend ∷ Wb.Format ∷ Wb.Zwj ∷ []) }
{}

/// Law: no boundary of words stands between letters, digits and what joins them, as the low line.
pub fn letters_and_digits_stay()
    ensures { WordsStayTogether (Wb.ALetter ∷ Wb.HebrewLetter ∷ Wb.Numeric ∷ Wb.ExtendNumLet ∷ [])
        (Wb.ALetter ∷ Wb.HebrewLetter ∷ Wb.Numeric ∷ Wb.ExtendNumLet ∷ []) }
{}

/// Law: no boundary of words stands beside a mark between two letters, as in `can't`, or between two digits, as in `3.14`.
pub fn marks_between_stay()
    ensures letters { WordsHoldTogether (Wb.ALetter ∷ Wb.HebrewLetter ∷ []) (Wb.MidLetter ∷ Wb.MidNumLet ∷ Wb.SingleQuote ∷ []) }
    ensures digits { WordsHoldTogether (Wb.Numeric ∷ []) (Wb.MidNum ∷ Wb.MidNumLet ∷ Wb.SingleQuote ∷ []) }
{}

/// Law: no boundary of sentences parts CR LF.
pub fn line_ends_stay_in_sentences()
    ensures { (before after : List ℕ) (last next : ℕ) → sentence_break last ≡ Sb.Cr → sentence_break next ≡ Sb.Lf
        → IsSentenceJoined (before ++ last ∷ []) (next ∷ after) }
{}

/// Law: a sentence ends after what separates paragraphs.
pub fn paragraphs_end_sentences()
    ensures separators { (before after : List ℕ) (last : ℕ) → (sentence_break last ≡ Sb.Sep) ⊎ (sentence_break last ≡ Sb.Lf)
        → IsSentenceBoundary (before ++ last ∷ []) after }
    ensures returns { (before after : List ℕ) (last next : ℕ) → sentence_break last ≡ Sb.Cr → (sentence_break next ≡ Sb.Lf → ⊥)
        → IsSentenceBoundary (before ++ last ∷ []) (next ∷ after) }
{}

/// Law: within a text a sentence ends nowhere but after what separates paragraphs, and after what ends sentences, with brackets
/// and then spaces after it (ParaSep, SATerm Close* Sp*).
pub fn sentences_end_after_terms()
    ensures { (before after : List ℕ) (last next : ℕ) → IsSentenceBoundary (before ++ last ∷ []) (next ∷ after)
        → (is_para_sep (sentence_break last) ≡ true) ⊎ (is_sa_term (before_close_sp (significant (last ∷ reverse before))) ≡ true) }
{}
