//! The command line.
ghost use Rattle.std.specs.Prelude.{◌≡◌, ◌≢◌, MatchOption};
ghost use Rattle.textcut.specs.Command.{texts, words_of};
ghost use Rattle.textcut.specs.declared.command.Command.{Command as AnyCommand};

/// What a command line asks for.
#[derive(Clone, Copy)]
pub enum Command {
    /// The grapheme clusters, by the pair table that is built in.
    GraphemeClassic,
    /// The grapheme clusters, by the machine that is built in.
    GraphemeNeo,
    /// The sentences, by the pair table that is built in.
    SentenceClassic,
    /// The sentences, by the machine that is built in.
    SentenceNeo,
    /// The words, by the pair table that is built in.
    WordClassic,
    /// The words, by the machine that is built in.
    WordNeo,
    /// Where lines may be broken, by the pair table that is built in, with the default options.
    LineClassic,
    /// Where lines may be broken, by the rules of the engine 17 over the pair table that is built in, with the default options.
    Line17,
    /// Where lines may be broken, by the machine that is built in, with the default options.
    LineNeo,
}

/// The command that has these words.
pub fn command_of(words: &[&str]) -> Option<Command>
    ensures { MatchOption result
        ((command : AnyCommand) → texts words.now ≢ words_of command)
        (λ command. texts words.now ≡ words_of command) }
{
    match words {
        ["grapheme", "classic"] => Some(Command::GraphemeClassic),
        ["grapheme", "neo"] => Some(Command::GraphemeNeo),
        ["sentence", "classic"] => Some(Command::SentenceClassic),
        ["sentence", "neo"] => Some(Command::SentenceNeo),
        ["word", "classic"] => Some(Command::WordClassic),
        ["word", "neo"] => Some(Command::WordNeo),
        ["line", "classic"] => Some(Command::LineClassic),
        ["line", "17"] => Some(Command::Line17),
        ["line", "neo"] => Some(Command::LineNeo),
        _ => None,
    }
}
