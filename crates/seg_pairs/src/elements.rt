//! Elements of a text: what an engine sees as one, with its class.

ghost use Rattle.std.specs.Prelude.{◌≡◌, ℕ, ◌<◌, List, IfSome, drop};
ghost use Rattle.std.specs.Iterator.{YieldsFirst};
ghost use Rattle.seg_pairs.specs.PairTable.{PairTable};

use crate::pair_data::PairDataBorrowed;
use seg_text::cursor::Cursor;

/// An element of a text: an item, or a base with the marks after it.
#[derive(Clone, Copy)]
pub struct Element<D: Copy> {
    /// Its class: that of its base.
    pub class: u8,
    /// Where it begins: bytes in str, UTF-8 and Latin-1, 16-bit units in UTF-16.
    pub place: usize,
    /// What some rules ask of it besides: of an item nothing.
    pub detail: D,
}

/// A cursor over the elements of a text, each read once.
pub trait Elements: Drop {
    ghost use Rattle.seg_pairs.specs.declared.elements.Element.{Element};
    ghost use Rattle.seg_pairs.specs.Elements.{place_at};

    /// What they have besides their class and their place.
    type Detail: Copy;

    /// The elements that aren't read yet.
    ghost left: { Self → List (Element Self.Detail) };

    /// The place where the text ends.
    ghost end: { Self → ℕ };

    /// The pair table whose classes they have.
    ghost table: { Self → PairTable };

    /// Reads the next element. None at the end, and from then on.
    fn next_element(&mut self) -> Option<Element<Self::Detail>>
        ensures gives { YieldsFirst left self.old result self.new }
        ensures end { end self.new ≡ end self.old }
        ensures table { table self.new ≡ table self.old }
        ensures class { IfSome result (λ element. element.class < (table self.old).property_count) };

    /// Another cursor at the same element of the same text. Takes no memory and never fails.
    fn fork(&self) -> Self
        ensures { result ≡ self.now };

    /// Goes on to where another cursor over the same elements stands, which may be further on.
    fn catch_up(&mut self, other: Self)
        requires later { (k : ℕ) × (left other ≡ drop k (left self.old)) }
        requires end { end other ≡ end self.old }
        requires table { table other ≡ table self.old }
        ensures left { left self.new ≡ left other }
        ensures end { end self.new ≡ end self.old }
        ensures table { table self.new ≡ table self.old };

    /// The place of the next element, or of the text's end.
    fn place(&self) -> usize
        ensures { result ≡ place_at (left self.now) (end self.now) };
}

/// The items of a text as elements, with the classes of a pair table and its override.
#[derive(Drop)]
pub struct Items<'data, I: Cursor> {
    /// The items that aren't read yet.
    pub cursor: I,
    /// What the classes are by.
    pub pairs: PairDataBorrowed<'data>,
}

impl<'data, I: Cursor> Elements for Items<'data, I> {
    type Detail = ();

    ghost use Rattle.seg_pairs.specs.PairData.{pair_table_of};
    ghost use Rattle.seg_pairs.specs.Elements.{elements_of};

    ghost left = { λ s. elements_of s.pairs (I.text s.cursor).items };

    ghost end = { λ s. (I.text s.cursor).end };

    ghost table = { λ s. pair_table_of s.pairs };

    #[inline(always)]
    fn next_element(&mut self) -> Option<Element<()>> {
        // ASCII goes its own way, so that nothing after it asks again which it is.
        if let Some((place, character)) = self.cursor.next_ascii() {
            return Some(item_element(self.pairs.ascii_class(character), place));
        }
        match self.cursor.next_item() {
            Some((place, code_point)) => {
                Some(item_element(self.pairs.wide_class(code_point), place))
            }
            None => None,
        }
    }

    fn fork(&self) -> Self {
        Items {
            pairs: self.pairs,
            cursor: self.cursor.fork(),
        }
    }

    #[inline(always)]
    fn catch_up(&mut self, other: Self) {
        self.cursor.seek(other.cursor.place());
    }

    fn place(&self) -> usize {
        self.cursor.place()
    }
}

/// An item of this class as an element.
#[inline(always)]
fn item_element(class: u8, place: usize) -> Element<()>
    ensures { result ≡ record { class = class; place = place; detail = tt } }
{
    Element {
        class,
        place,
        detail: (),
    }
}
