//! The engines, and the words that the command line has for them.

/// What is measured: what is found, and by which engine.
#[derive(Clone, Copy)]
pub enum Engine {
    /// The grapheme clusters, by a pair table.
    GraphemeClassic,
    /// The grapheme clusters, by a machine.
    GraphemeNeo,
    /// The grapheme clusters, by the memoised engine of that machine.
    GraphemeMemo,
    /// The sentences, by a pair table.
    SentenceClassic,
    /// The sentences, by a machine.
    SentenceNeo,
    /// The sentences, by the memoised engine of that machine.
    SentenceMemo,
    /// The words, by a pair table.
    WordClassic,
    /// The words, by a machine.
    WordNeo,
    /// The words, by the memoised engine of that machine.
    WordMemo,
    /// The lines, by a pair table.
    LineClassic,
    /// The lines, by the rules of the engine 17 over a pair table.
    Line17,
    /// The lines, by a machine.
    LineNeo,
    /// The lines, by the memoised engine of that machine.
    LineMemo,
}

/// All engines, in the order in which they are measured.
pub const ENGINES: [Engine; 13] = [
    Engine::GraphemeClassic,
    Engine::GraphemeNeo,
    Engine::GraphemeMemo,
    Engine::SentenceClassic,
    Engine::SentenceNeo,
    Engine::SentenceMemo,
    Engine::WordClassic,
    Engine::WordNeo,
    Engine::WordMemo,
    Engine::LineClassic,
    Engine::Line17,
    Engine::LineNeo,
    Engine::LineMemo,
];

/// Where an engine's data come from.
#[derive(Clone, Copy)]
pub enum Data {
    /// The crate `bench`, written by hand.
    Small,
    /// Unicode, by the crate `icu_segmenter_data`.
    Real,
}

impl Engine {
    /// The word of this engine.
    pub fn word(self) -> &'static str {
        match self {
            Engine::GraphemeClassic => "grapheme-classic",
            Engine::GraphemeNeo => "grapheme-neo",
            Engine::GraphemeMemo => "grapheme-memo",
            Engine::SentenceClassic => "sentence-classic",
            Engine::SentenceNeo => "sentence-neo",
            Engine::SentenceMemo => "sentence-memo",
            Engine::WordClassic => "word-classic",
            Engine::WordNeo => "word-neo",
            Engine::WordMemo => "word-memo",
            Engine::LineClassic => "line-classic",
            Engine::Line17 => "line-17",
            Engine::LineNeo => "line-neo",
            Engine::LineMemo => "line-memo",
        }
    }

    /// Whether it looks up no configuration of its machine twice.
    pub fn is_memoised(self) -> bool {
        matches!(
            self,
            Engine::GraphemeMemo | Engine::SentenceMemo | Engine::WordMemo | Engine::LineMemo
        )
    }
}

impl Data {
    /// The word of these data.
    pub fn word(self) -> &'static str {
        match self {
            Data::Small => "small",
            Data::Real => "real",
        }
    }
}

/// Whether each word is an engine's.
pub fn are_engines(words: &[&str]) -> bool {
    words.iter().all(|word| is_engine(word))
}

// Whether the word is an engine's.
fn is_engine(word: &str) -> bool {
    ENGINES.iter().any(|engine| has_word(word, *engine))
}

// Whether the word is this engine's.
fn has_word(word: &str, engine: Engine) -> bool {
    word == engine.word()
}

/// Whether these words ask for the engine: all engines where there is no word.
pub fn is_chosen(engines: &[&str], engine: Engine) -> bool {
    engines.is_empty() || engines.iter().any(|word| has_word(word, engine))
}
