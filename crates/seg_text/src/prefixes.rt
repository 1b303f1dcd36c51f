//! The longest beginning of a text whose code points pass a test.

ghost use Rattle.std.specs.Prelude.{◌≡◌, ℕ, Bool};
ghost use Rattle.seg_text.specs.Items.{start_of, rest_after, text_before, prefix_length};

use crate::cursor::Cursor;

/// A test of code points.
pub trait CodePointTest {
    /// Which code points pass.
    ghost passes: { Self → ℕ → Bool };

    /// Whether a code point passes.
    fn accepts(&self, code_point: u32) -> bool
        ensures { result ≡ passes self.now code_point };
}

/// The longest beginning of a text whose code points pass a test, as a text that ends there: its places stay. `rest` goes on
/// after it. Takes no memory.
pub fn take_prefix<I: Cursor, T: CodePointTest>(rest: &mut I, test: &T) -> I
    ensures prefix { I.text result ≡ text_before (prefix_length (T.passes test.now) (I.text rest.old)) (I.text rest.old) }
    ensures rest { I.text rest.new ≡ rest_after (prefix_length (T.passes test.now) (I.text rest.old)) (I.text rest.old) }
{
    let end = prefix_end(rest, test);
    let prefix = rest.up_to(end);
    rest.seek(end);
    prefix
}

/// The place where the longest beginning of a text ends whose code points pass a test.
fn prefix_end<I: Cursor, T: CodePointTest>(rest: &I, test: &T) -> usize
    ensures { result ≡ start_of (rest_after (prefix_length (T.passes test.now) (I.text rest.now)) (I.text rest.now)) }
{
    let mut ahead = rest.fork();
    loop {
        let place = ahead.place();
        match ahead.next_item() {
            Some((_, code_point)) => {
                if !test.accepts(code_point) {
                    return place;
                }
            }
            None => return place,
        }
    }
}
