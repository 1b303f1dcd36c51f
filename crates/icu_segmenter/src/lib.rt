//! Text boundaries from checked data, under the names of the crate `icu_segmenter` 2.4.0.
//!
//! Data are checked once, where they are made (`provider`), and a machine or a pair table with its tailoring or
//! override once more in a segmenter's constructor; the segmenter then gives the boundaries of any text in an
//! encoding of `scaffold`, with no further refusal.
#![tactic(auto)]

pub use seg_clusters::grapheme::{GraphemeClusterSegmenter, GraphemeClusterSegmenterBorrowed};
pub use seg_clusters::sentence::{SentenceSegmenter, SentenceSegmenterBorrowed};
pub use seg_lines::line::{LineSegmenter, LineSegmenterBorrowed};
pub use seg_segments::{cursor, segments, suppress};
pub use seg_text::{indices, scaffold};
pub use seg_words::word::{WordSegmenter, WordSegmenterBorrowed};

/// The data of segmenters, each checked once, where it is made: tables of classes, state machines and pair tables
/// with what replaces parts of them, and what is wrong where they are rejected.
pub mod provider {
    pub use seg_data::dictionaries::{Dictionaries, DictionariesBorrowed};
    pub use seg_data::provider::{
        ClassTable, ComplexScript, DataError, DictionaryBreakData, LanguageIdentifier,
    };
    pub use seg_lines::provider::{LineTailorings, LineTailoringsBorrowed};
    pub use seg_machine::provider::{
        Acceptance, Lookahead, SegmenterStateMachine, SegmenterStateMachineOverride, State, Symbol,
    };
    pub use seg_pairs::provider::{BreakState, RuleBreakData, RuleBreakDataOverride};
}

/// The cuts of pieces of one script by dictionaries.
pub mod complex {
    pub use seg_clusters::complex::{
        ComplexIterator, ComplexPayloadBorrowed, ComplexPayloadsBorrowed,
    };
}

/// The iterators that the `segment_` calls give, by the encoding `Y` of the text.
pub mod iterators {
    use seg_text::scaffold::RuleBreakType;

    /// The boundaries of the grapheme clusters of a text in the encoding `Y`.
    pub type GraphemeClusterBreakIterator<'data, 's, Y> =
        seg_clusters::grapheme::GraphemeClusterBreakIterator<
            'data,
            <Y as RuleBreakType<'s>>::IterAttr,
        >;

    /// The boundaries of the words of a text in the encoding `Y`.
    pub type WordBreakIterator<'data, 's, Y> = seg_words::word::WordBreakIterator<
        'data,
        <Y as RuleBreakType<'s>>::IterAttr,
    >;

    /// The boundaries of the words of a text in the encoding `Y`, each with the type of what ends there.
    pub type WordBreakIteratorWithWordType<'data, 's, Y> =
        seg_words::word::WordBreakIteratorWithWordType<'data, <Y as RuleBreakType<'s>>::IterAttr>;

    /// The boundaries of the sentences of a text in the encoding `Y`.
    pub type SentenceBreakIterator<'data, 's, Y> = seg_clusters::sentence::SentenceBreakIterator<
        'data,
        <Y as RuleBreakType<'s>>::IterAttr,
    >;

    /// The boundaries of the lines of a text in the encoding `Y`.
    pub type LineBreakIterator<'data, 's, Y> = seg_lines::line::LineBreakIterator<
        'data,
        <Y as RuleBreakType<'s>>::IterAttr,
    >;
}

/// The boundaries of a text by a machine, where no configuration is looked up twice: what `with_memo` of the iterators gives.
pub mod memo {
    pub use seg_memo::memo::MemoError;
    use seg_text::scaffold::RuleBreakType;

    /// The boundaries of a text in the encoding `Y`, by a machine whose transitions the reader `R` reads.
    pub type MemoBreakIterator<'data, 's, Y, R> = seg_memo::memo::MemoBreakIterator<
        'data,
        <Y as RuleBreakType<'s>>::IterAttr,
        R,
    >;
}

/// Where words may be hyphenated, by patterns of the caller's.
pub mod hyphens {
    pub use seg_hyphens::fault::{Fault, HyphenationError};
    pub use seg_hyphens::patterns::HyphenationPatterns;
}

/// Lines of a text, wrapped to columns.
pub mod wrap {
    pub use seg_wrap::wrap::paragraphs::{Fit, ParagraphStyle, Paragraphs};
    pub use seg_wrap::wrap::{
        LineWrapper, Room, Span, WrapError, WrapIterator, WrapUtf8Iterator, WrapUtf16Iterator,
        WrappedLine, WrappedUtf8Line, WrappedUtf16Line, utf8_columns,
    };
}

/// The engine of pair tables.
pub mod rule_segmenter_v1 {
    use seg_text::scaffold::RuleBreakType;

    /// The boundaries of a text in the encoding `Y`, by a pair table.
    pub type RuleBreakIterator<'data, 's, Y> = seg_pairs::rule_segmenter_v1::RuleBreakIterator<
        'data,
        <Y as RuleBreakType<'s>>::IterAttr,
    >;
}

/// The engine of machines, and readers of a machine's transitions, which count what they read.
pub mod rule_segmenter_v2 {
    pub use seg_memo::reader::{CountedTransitions, ReadTransitions};
    use seg_text::scaffold::RuleBreakType;

    /// The boundaries of a text in the encoding `Y`, by a machine.
    pub type RuleBreakIterator<'data, 's, Y> = seg_rows::rule_segmenter_v2::RuleBreakIterator<
        'data,
        <Y as RuleBreakType<'s>>::IterAttr,
    >;
}

/// Laws of the boundaries, for callers' proofs: a caller calls one where its proof needs what the law ensures. They do nothing.
pub mod laws {
    pub use seg_clusters::laws::{grapheme, sentence};
    pub use seg_lines::laws as line;
    pub use seg_words::laws as word;
    pub use seg_wrap::laws as wrap;
}

/// The options of segmenters, the language of a text, which is one of them, and the types of words.
pub mod options {
    pub use seg_clusters::sentence::{SentenceBreakInvariantOptions, SentenceBreakOptions};
    pub use seg_data::provider::LanguageIdentifier;
    pub use seg_lines::line::{LineBreakOptions, LineBreakStrictness, LineBreakWordOption};
    pub use seg_words::word::{WordBreakInvariantOptions, WordBreakOptions, WordType};
}
