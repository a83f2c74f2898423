// What the C functions on the fan of a particle of a mesh image answer. Their sides are bytes.
ghost use Rattle.std.specs.Prelude.{◌≡◌, ◌≤◌, ◌<◌, length, take};
ghost use Rattle.reading_replies.specs.Replies.{Replied, opens_reply, groups_reply};
ghost use Rattle.reading_c.specs.Capped.{Capped};

use crate::Question;

// The most sides that are read into a small table.
const FEW_SIDES: usize = 32;

// The most sides that are read. More than 2,048 are too many for any fan, so 2,049 of them tell.
const MOST_SIDES: usize = 2049;

// The smaller of a length and a limit.
pub fn capped(n: usize, most: usize) -> usize
    ensures { Capped n most result }
{
    if n <= most {
        return n;
    }
    most
}

// Writes the first n bytes as numbers to the front of out.
pub fn bytes_into(bytes: &[u8], n: usize, out: &mut [usize])
    requires { (n ≤ length bytes.now) × (n ≤ length out.old) }
    ensures { take n out.new ≡ take n bytes.now }
{
    for i in 0..n {
        out[i] = usize::from(bytes[i]);
    }
}

// Whether the first n sides open a particle of a mesh image without confetti, by a table of its own for N of them.
fn open_in<const N: usize>(
    bytes: &[u8],
    v: usize,
    sides: &[u8],
    n: usize,
    minimum: usize,
    out: &mut [u8],
) -> u32
    requires { (n ≤ N) × (N ≤ 2049) × Capped (length sides.now) 2049 n }
    ensures { Replied (opens_reply bytes.now v sides.now minimum) (length out.old) result
        out.new }
{
    let mut numbers = [0usize; N];
    bytes_into(sides, n, &mut numbers);
    crate::questions::image_asked(Question::Opens(v, minimum), &numbers[..n], bytes, out)
}

// Whether sides open a particle of a mesh image without confetti.
pub fn opens_without_confetti(
    bytes: &[u8],
    v: usize,
    sides: &[u8],
    minimum: usize,
    out: &mut [u8],
) -> u32
    ensures { Replied (opens_reply bytes.now v sides.now minimum) (length out.old) result
        out.new }
{
    let n = capped(sides.len(), MOST_SIDES);
    if n <= FEW_SIDES {
        return open_in::<FEW_SIDES>(bytes, v, sides, n, minimum, out);
    }
    open_in::<MOST_SIDES>(bytes, v, sides, n, minimum, out)
}

// The groups that few sides make at a particle of a mesh image, by a small table of them.
fn few_sides(bytes: &[u8], v: usize, sides: &[u8], out: &mut [u8]) -> u32
    requires { length sides.now ≤ 32 }
    ensures { Replied (groups_reply bytes.now v sides.now) (length out.old) result out.new }
{
    let mut numbers = [0usize; FEW_SIDES];
    let n = sides.len();
    bytes_into(sides, n, &mut numbers);
    crate::tiny::groups_asked(v, &numbers[..n], bytes, out)
}

// The groups that any sides make there. (No twin of `few_sides`, which asks without the tables of a mesh.)
fn many_sides(bytes: &[u8], v: usize, sides: &[u8], out: &mut [u8]) -> u32
    ensures { Replied (groups_reply bytes.now v sides.now) (length out.old) result out.new }
{
    let mut numbers = [0usize; MOST_SIDES];
    let n = capped(sides.len(), MOST_SIDES);
    bytes_into(sides, n, &mut numbers);
    crate::questions::image_asked(Question::Groups(v), &numbers[..n], bytes, out)
}

// The groups that sides make at a particle of a mesh image.
pub fn groups(bytes: &[u8], v: usize, sides: &[u8], out: &mut [u8]) -> u32
    ensures { Replied (groups_reply bytes.now v sides.now) (length out.old) result out.new }
{
    if sides.len() <= FEW_SIDES {
        return few_sides(bytes, v, sides, out);
    }
    many_sides(bytes, v, sides, out)
}
