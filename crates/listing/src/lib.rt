// The listing of a cut, and the line of a refusal, as bytes. How far a text was written is a number of bytes, or None where the lent bytes are too few for it.
#![tactic(auto)]

ghost use Rattle.std.specs.Prelude.{◌≡◌, [], ◌∷◌, ◌+◌, ◌*◌, ◌≤◌, ◌<◌, length};
ghost use Rattle.lists.specs.Lists.{each};
ghost use Rattle.mesh.specs.Log.{log_at, entry_row};
ghost use Rattle.listing.specs.Listing.{digit as digit_byte, decimal, line, replaced_line, listing_bytes, refused_bytes};
ghost use Rattle.listing.specs.Answers.{Wrote};
ghost use Rattle.listing.specs.Work.{Appends, Cleared, Finishes, Listable, entry_line};

// Writes one byte behind the text.
pub fn put_byte(out: &mut [u8], at: Option<usize>, b: u8) -> Option<usize>
    ensures { Appends (b ∷ []) out.old at out.new result }
{
    let n = at?;
    if n < out.len() {
        out[n] = b;
        return Some(n + 1);
    }
    None
}

// Writes more text behind the text.
pub fn put_text(out: &mut [u8], at: Option<usize>, text: &[u8]) -> Option<usize>
    ensures { Appends text.now out.old at out.new result }
{
    let mut at = at;
    for i in 0..text.len() {
        at = put_byte(out, at, text[i]);
    }
    at
}

// The byte of a digit.
fn digit(d: usize) -> u8
    requires { d < 10 }
    ensures { result ≡ digit_byte d }
{
    (48 + d) as u8
}

// Writes a number behind the text: the digits of its tenth, then the last digit.
pub fn put_number(out: &mut [u8], at: Option<usize>, n: usize) -> Option<usize>
    ensures { Appends (decimal n) out.old at out.new result }
{
    if n < 10 {
        return put_byte(out, at, digit(n));
    }
    let front = put_number(out, at, n / 10);
    put_byte(out, front, digit(n % 10))
}

// Writes a line behind the text: a word, each number behind a space, and the end of the line.
fn put_line(out: &mut [u8], at: Option<usize>, word: &[u8], numbers: &[usize]) -> Option<usize>
    ensures { Appends (line word.now numbers.now) out.old at out.new result }
{
    let mut at = put_text(out, at, word);
    for i in 0..numbers.len() {
        let space = put_byte(out, at, b' ');
        at = put_number(out, space, numbers[i]);
    }
    put_byte(out, at, b'\n')
}

// The same of words of a log.
fn put_words(out: &mut [u8], at: Option<usize>, word: &[u8], words: &[u32]) -> Option<usize>
    ensures { Appends (line word.now words.now) out.old at out.new result }
{
    let mut at = put_text(out, at, word);
    for i in 0..words.len() {
        let space = put_byte(out, at, b' ');
        at = put_number(out, space, words[i] as usize);
    }
    put_byte(out, at, b'\n')
}

// Writes the line of a replaced outline behind the text, where it was replaced.
fn put_replaced(out: &mut [u8], at: Option<usize>, replaced: bool) -> Option<usize>
    ensures { Appends (replaced_line replaced) out.old at out.new result }
{
    if replaced {
        let none: [usize; 0] = [];
        return put_line(out, at, b"outline replaced", &none);
    }
    at
}

// Writes the line of entry i of a log behind the text, where the entry is of the kind: the word and the first `count` of the entry's numbers.
fn put_entry(
    out: &mut [u8],
    at: Option<usize>,
    word: &[u8],
    kind: u32,
    count: usize,
    log: &[u32],
    i: usize,
) -> Option<usize>
    requires { Listable (6 * i + 6) (length log.now) count }
    ensures { Appends (entry_line word.now kind count (entry_row log.now i)) out.old at
        out.new result }
{
    let place = 6 * i;
    if log[place] != kind {
        return at;
    }
    let from = place + 1;
    let end = from + count;
    put_words(out, at, word, &log[from..end])
}

// Writes the lines of the entries of one kind behind the text, in the order of the log.
fn put_entries(
    out: &mut [u8],
    at: Option<usize>,
    word: &[u8],
    kind: u32,
    count: usize,
    entries: usize,
    log: &[u32],
) -> Option<usize>
    requires { Listable (6 * entries) (length log.now) count }
    ensures { Appends (each (entry_line word.now kind count) (log_at entries log.now)) out.old at
        out.new result }
{
    let mut at = at;
    for i in 0..entries {
        at = put_entry(out, at, word, kind, count, log, i);
    }
    at
}

// Puts 0 into every byte from a place on.
fn clear_from(out: &mut [u8], from: usize)
    ensures { Cleared from out.old out.new }
{
    for i in from..out.len() {
        out[i] = 0;
    }
}

// Puts 0 behind the text, or into every byte where the text does not fit.
pub fn finish(out: &mut [u8], at: Option<usize>) -> Option<usize>
    ensures { Finishes out.old at out.new result }
{
    let Some(n) = at else {
        clear_from(out, 0);
        return None;
    };
    clear_from(out, n);
    Some(n)
}

// Writes the listing of a log, a count of particles and a count of pieces, with the line of a replaced outline or without, and 0 behind it.
pub fn write_listing(
    replaced: bool,
    entries: usize,
    log: &[u32],
    particles: usize,
    pieces: usize,
    out: &mut [u8],
) -> Option<usize>
    requires { 6 * entries ≤ length log.now }
    ensures { Wrote (listing_bytes replaced (log_at entries log.now) particles pieces) (length out.old)
        out.new result }
{
    let edition = [1usize];
    let at = put_line(out, Some(0), b"tear", &edition);
    let at = put_replaced(out, at, replaced);
    let at = put_entries(out, at, b"split", 1, 2, entries, log);
    let at = put_entries(out, at, b"edge", 2, 2, entries, log);
    let at = put_entries(out, at, b"insert", 3, 4, entries, log);
    let count = [particles];
    let at = put_line(out, at, b"particles", &count);
    let count = [pieces];
    let at = put_line(out, at, b"pieces", &count);
    finish(out, at)
}

// Writes the line of a refusal, and 0 behind it.
pub fn write_refused(code: usize, out: &mut [u8]) -> Option<usize>
    ensures { Wrote (refused_bytes code) (length out.old) out.new result }
{
    let number = [code];
    let at = put_line(out, Some(0), b"refused", &number);
    finish(out, at)
}
