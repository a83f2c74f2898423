// The reply of a C function: the words of an answer in the lent bytes, and the number of the refusal.
#![tactic(auto)]

ghost use Rattle.std.specs.Prelude.{◌<◌, ◌≤◌, [], ◌∷◌, length};
ghost use Rattle.model.specs.Reads.{refused, value};
ghost use Rattle.replies.specs.Reply.{Replied};

// A refusal: every byte is 0. (The C interface has its number.)
pub fn reply_refused(code: usize, out: &mut [u8]) -> u32
    requires { code < 256 }
    ensures { Replied (refused code) (length out.old) result out.new }
{
    image_writing::clear_bytes(out);
    code as u32
}

// An answer of one word.
pub fn reply_one(w: usize, out: &mut [u8]) -> u32
    ensures { Replied (value (w ∷ [])) (length out.old) result out.new }
{
    if out.len() < 4 {
        image_writing::clear_bytes(out);
        return 4;
    }
    image_writing::write_one(out, w);
    0
}

// An answer of a word and the words of a table.
pub fn reply_words(first: usize, table: &[usize], out: &mut [u8]) -> u32
    requires { length table.now ≤ 2049 }
    ensures { Replied (value (first ∷ table.now)) (length out.old) result out.new }
{
    let n = table.len();
    if out.len() < 4 * n + 4 {
        image_writing::clear_bytes(out);
        return 4;
    }
    image_writing::words_out(out, first, table, n);
    0
}
