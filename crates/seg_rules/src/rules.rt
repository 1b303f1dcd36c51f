//! Rules of boundaries as data.
ghost use Rattle.std.specs.Prelude.{◌≡◌};
ghost use Rattle.seg_rules.specs.RowRules.{has};

/// How often symbols of a class stand in a pattern.
#[derive(Clone, Copy, Debug, PartialEq)]
pub enum Count {
    /// Once.
    One,
    /// At most once.
    Optional,
    /// Any number of times.
    Star,
    /// An even number of times.
    Pairs,
}

/// A class of symbols: the number whose bits are its symbols.
pub type Class = u128;

/// A row: the verdict on a place where some of the symbols before it fit its left pattern, and some after it its right one.
#[derive(Clone, Copy, Debug)]
pub struct Row<'a> {
    /// The pattern of what stands before a place.
    pub left: &'a [(Class, Count)],
    /// The pattern of what comes after it.
    pub right: &'a [(Class, Count)],
    /// 0 for no boundary, or one more than a boundary's status.
    pub verdict: u8,
}

/// Rows in order, above and below that of marks.
#[derive(Clone, Copy, Debug)]
pub struct Rules<'a> {
    /// The rows that read each symbol.
    pub above: &'a [Row<'a>],
    /// The rows that read a symbol with its marks as one.
    pub below: &'a [Row<'a>],
    /// Whether there are marks.
    pub has_marks: bool,
    /// The symbols that are marks.
    pub marks: Class,
    /// The symbols to which no mark is glued.
    pub bare: Class,
    /// The symbol as which a mark is read that is glued to nothing.
    pub alone: u8,
    /// The status of the end of the text.
    pub at_end: u8,
}

// Whether a symbol is in a class.
pub(crate) fn is_in(class: Class, symbol: u8) -> bool
    ensures { result ≡ has class symbol }
{
    symbol < 128 && (class >> symbol) & 1 == 1
}
