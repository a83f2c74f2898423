// What the C function on a list of particles of a mesh image answers.
ghost use Rattle.std.specs.Prelude.{length};
ghost use Rattle.reading_replies.specs.Replies.{Replied, measure_of_reply};

use crate::Question;

// The measure of a list of particles of a mesh image. No list of more than 1,024 rises, so 1,025 words tell.
pub fn rest_measure_of(bytes: &[u8], list: &[u8], out: &mut [u8]) -> u32
    ensures { Replied (measure_of_reply bytes.now list.now) (length out.old) result out.new }
{
    let mut words = [0usize; 1025];
    if list.len() % 4 != 0 {
        return crate::questions::image_asked(Question::Unread, &words, bytes, out);
    }
    let n = crate::fans::capped(list.len() / 4, 1025);
    image::words_into(list, 0, n, &mut words);
    crate::questions::image_asked(Question::MeasureOf, &words[..n], bytes, out)
}
