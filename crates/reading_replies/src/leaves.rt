// What the C functions without a mesh answer: the root, and the blade test.
ghost use Rattle.std.specs.Prelude.{◌≡◌, ◌+◌, ◌*◌, ◌≤◌, length};
ghost use Rattle.reading_replies.specs.Replies.{Replied, root_reply, blade_reply, point_at_of};

use blade::Point;

// The root of the number of a word.
pub fn root(bits: u32, out: &mut [u8]) -> u32
    ensures { Replied (root_reply bits) (length out.old) result out.new }
{
    let x = image::number_of(bits as usize);
    crate::reply::reply_number(readings::reading::root(x), out)
}

// The point of words i and i + 1.
pub fn point_at(words: &[u8], i: usize) -> Point
    requires { 4 * i + 8 ≤ length words.now }
    ensures { result ≡ point_at_of words.now i }
{
    let x = image::number_of(image::word_at(words, i));
    let y = image::number_of(image::word_at(words, i + 1));
    Point { x: x, y: y }
}

// The blade test on eight words.
pub fn blade_hit(words: &[u8], out: &mut [u8]) -> u32
    ensures { Replied (blade_reply words.now) (length out.old) result out.new }
{
    if words.len() != 32 {
        return replies::reply_refused(4, out);
    }
    let b0 = point_at(words, 0);
    let b1 = point_at(words, 2);
    let p = point_at(words, 4);
    let q = point_at(words, 6);
    crate::reply::reply_tested(readings::reading::blade_hit(b0, b1, p, q), out)
}
