//! Objects of texts that aren't long, of pieces that are copied to where they belong.
ghost use Rattle.std.specs.Prelude.{◌≡◌, ◌≤◌, ◌++◌, ◌∷◌, [], None, length, take};
ghost use Rattle.json.specs.Print.{print};
ghost use Rattle.segment_text.specs.Bare.{AreBare};
ghost use Rattle.segment_output.specs.Output.{object_of};

use crate::objects::ending;
use crate::output::Segment;
use segment_text::copied::{Copied, put_text};
use segment_text::digits::Digits;
use segment_text::pieces::put;

/// Room for the object of such a text with numbers of the greatest length, and a line feed.
pub const OBJECT_LEN: usize = 368;

/// Puts the object of a segment, in which no file is named, and a line feed at the beginning of a buffer, and returns how many bytes they have.
#[inline(always)]
pub fn put_pieces(
    text: Copied<'_>,
    segment: Segment,
    digits: &mut Digits,
    object: &mut [u8],
) -> usize
    requires short { (text.len ≤ length text.bytes.now) × (length text.bytes.now ≤ 256) }
    requires bare { AreBare (take text.len text.bytes.now) }
    requires room { 368 ≤ length object.old }
    ensures len { length object.new ≡ length object.old }
    ensures most { result ≤ 368 }
    ensures pieces { take result object.new ≡ print (object_of None (take text.entry.len text.entry.bytes.now) (record { from = segment.start; to = segment.end; mark = segment.mark })) ++ 10 ∷ [] }
{
    let at = put::<16>(b"{\"text\":\"       ", 9, 0, object);
    let at = put_text(text, at, object);
    let at = put::<16>(b"\",\"begin\":      ", 10, at, object);
    let at = digits.put_number(segment.start, at, object);
    let at = put::<8>(b",\"end\": ", 7, at, object);
    let at = digits.put_number(segment.end, at, object);
    let (ending, len) = ending(segment.mark);
    put::<32>(ending, len, at, object)
}
