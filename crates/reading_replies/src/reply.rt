// The reply to the answer of an entry that only reads.
ghost use Rattle.std.specs.Prelude.{◌≤◌, length};
ghost use Rattle.reading_replies.specs.Replies.{Replied};
ghost use Rattle.reading_replies.specs.Given.{number_reply_by, count_reply_by, groups_told_by, truth_reply_by, tested_reply_by, SmallCode};

use blade::Hit;
use refusal_numbers::Tells;

// The reply of an entry that answers a number.
pub fn reply_number<E: Tells>(a: Result<f32, E>, out: &mut [u8]) -> u32
    requires { SmallCode (number_reply_by E.told a) }
    ensures { Replied (number_reply_by E.told a) (length out.old) result out.new }
{
    match a {
        Err(e) => {
            return replies::reply_refused(e.tell(), out);
        }
        Ok(x) => {
            return replies::reply_one(image_writing::bits_of(x), out);
        }
    }
}

// The reply of an entry that answers a count.
pub fn reply_count<E: Tells>(a: Result<usize, E>, out: &mut [u8]) -> u32
    requires { SmallCode (count_reply_by E.told a) }
    ensures { Replied (count_reply_by E.told a) (length out.old) result out.new }
{
    match a {
        Err(e) => {
            return replies::reply_refused(e.tell(), out);
        }
        Ok(n) => {
            return replies::reply_one(n, out);
        }
    }
}

// The reply of an entry that answers a count and a table of groups.
pub fn reply_groups<E: Tells>(a: Result<usize, E>, groups: &[usize], out: &mut [u8]) -> u32
    requires { SmallCode (groups_told_by E.told a groups.now) × (length groups.now ≤ 2049) }
    ensures { Replied (groups_told_by E.told a groups.now) (length out.old) result out.new }
{
    match a {
        Err(e) => {
            return replies::reply_refused(e.tell(), out);
        }
        Ok(n) => {
            return replies::reply_words(n, groups, out);
        }
    }
}

// The reply of an entry that answers whether something holds.
pub fn reply_truth<E: Tells>(a: Result<bool, E>, out: &mut [u8]) -> u32
    requires { SmallCode (truth_reply_by E.told a) }
    ensures { Replied (truth_reply_by E.told a) (length out.old) result out.new }
{
    match a {
        Err(e) => {
            return replies::reply_refused(e.tell(), out);
        }
        Ok(b) => {
            if b {
                return replies::reply_one(1, out);
            }
            return replies::reply_one(0, out);
        }
    }
}

// The reply of a blade test.
pub fn reply_tested<E: Tells>(a: Result<Hit, E>, out: &mut [u8]) -> u32
    requires { SmallCode (tested_reply_by E.told a) }
    ensures { Replied (tested_reply_by E.told a) (length out.old) result out.new }
{
    match a {
        Err(e) => {
            return replies::reply_refused(e.tell(), out);
        }
        Ok(h) => match h {
            Hit::Miss => {
                let none = [0usize; 3];
                return replies::reply_words(0, &none, out);
            }
            Hit::Hit(t, p) => {
                let found = [
                    image_writing::bits_of(t),
                    image_writing::bits_of(p.x),
                    image_writing::bits_of(p.y),
                ];
                return replies::reply_words(1, &found, out);
            }
        },
    }
}
