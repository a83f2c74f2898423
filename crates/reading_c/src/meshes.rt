// What the C functions on a mesh image answer. They look at no list.
ghost use Rattle.std.specs.Prelude.{length};
ghost use Rattle.reading_replies.specs.Replies.{Replied, pieces_reply, measure_reply};

use crate::Question;

// The number of pieces of a mesh image.
pub fn pieces(bytes: &[u8], out: &mut [u8]) -> u32
    ensures { Replied (pieces_reply bytes.now) (length out.old) result out.new }
{
    let none = [0usize; 1];
    crate::questions::image_asked(Question::Pieces, &none, bytes, out)
}

// The measure of a mesh image.
pub fn rest_measure(bytes: &[u8], out: &mut [u8]) -> u32
    ensures { Replied (measure_reply bytes.now) (length out.old) result out.new }
{
    let none = [0usize; 1];
    crate::questions::image_asked(Question::Measure, &none, bytes, out)
}
