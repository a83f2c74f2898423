// A sheet's reader that is fed in parts: the bytes of a reader are lent by the caller, who keeps them between the calls.
#![tactic(auto)]

ghost use Rattle.std.specs.Prelude.{◌≡◌, min, length};
ghost use Rattle.feeding.specs.Feeding.{size, standing, fitting, grown_by, OpenDone, FeedDone, ShutDone};
ghost use Rattle.feeding.specs.Work.{Held};

// How many bytes a reader has.
const SIZE: usize = 17301;

// How many bytes it keeps: one more than the longest sheet has.
const MOST: usize = 17293;

// What a reader answers before anything is done: 4 where there is none, 10 where it is closed, else 0. (A number, here and below, and no `Result`: C is told it as it is.)
fn standing_of(reader: &[u8]) -> u32
    ensures { result ≡ standing reader.now }
{
    if reader.len() != SIZE {
        return 4;
    }
    if image::word_at(reader, 1) != 0 {
        return 10;
    }
    0
}

// How many bytes a reader keeps.
pub fn held(reader: &[u8]) -> usize
    requires { length reader.now ≡ size }
    ensures { Held reader.now result }
{
    let n = image::word_at(reader, 0);
    if n < MOST {
        return n;
    }
    MOST
}

// The smaller of two numbers.
fn least(a: usize, b: usize) -> usize
    ensures { result ≡ min a b }
{
    if a < b {
        return a;
    }
    b
}

// Copies src to dst, which is as long.
fn copy_bytes(src: &[u8], dst: &mut [u8])
    requires { length src.now ≡ length dst.old }
    ensures { dst.new ≡ src.now }
{
    // (The library's copy would need a `memmove` from outside the archive.)
    for i in 0..src.len() {
        dst[i] = src[i];
    }
}

// Puts as much of a part as fits behind the bytes that a reader keeps.
fn grow(reader: &mut [u8], part: &[u8])
    requires { length reader.old ≡ size }
    ensures { reader.new ≡ grown_by reader.old (fitting reader.old part.now) }
{
    let k = held(reader);
    let n = least(MOST - k, part.len());
    let at = 8 + k;
    let end = at + n;
    copy_bytes(&part[..n], &mut reader[at..end]);
    image_writing::put_word(reader, 0, k + n);
}

// Opens a reader, whatever stood in its bytes: it was fed nothing.
pub fn open_reader(reader: &mut [u8]) -> u32
    ensures { OpenDone reader.old result reader.new }
{
    if reader.len() != SIZE {
        return 4;
    }
    image_writing::put_word(reader, 0, 0);
    image_writing::put_word(reader, 1, 0);
    0
}

// Feeds a part to a reader: 0, also for no bytes and for more than any sheet has; 10 behind the close; 4 where there is no reader.
pub fn feed_bytes(reader: &mut [u8], part: &[u8]) -> u32
    ensures { FeedDone reader.old part.now result reader.new }
{
    let why = standing_of(reader);
    if why == 0 {
        grow(reader, part);
    }
    why
}

// Closes a reader: how it stood before, 0 where it was open. The bytes that it keeps stay.
pub fn shut_reader(reader: &mut [u8]) -> u32
    ensures { ShutDone reader.old result reader.new }
{
    let why = standing_of(reader);
    if why == 0 {
        image_writing::put_word(reader, 1, 1);
    }
    why
}
