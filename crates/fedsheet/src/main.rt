// The worked sheet fed to a reader in parts: byte by byte, in growing parts, in the second edition, and cut short; then calls behind the close.
#![tactic(auto)]

use std::io;

// The worked sheet.
const WORKED: [u8; 46] = [
    0, 128, 8, 0, 128, 16, 0, 0, 0, 4, 0, 0, 8, 1, 0, 0, 2, 0, 0, 4, 2, 0, 0, 32, 12, 0, 0, 160, 8,
    6, 0, 0, 16, 4, 2, 0, 128, 48, 12, 0, 255, 255, 252, 2, 128, 80,
];

// The same sheet in the second edition.
const SECOND: [u8; 36] = [
    255, 224, 16, 1, 0, 16, 0, 0, 0, 8, 0, 0, 16, 2, 0, 0, 4, 0, 0, 8, 4, 0, 0, 64, 24, 0, 1, 64,
    16, 13, 255, 255, 248, 5, 0, 160,
];

fn say_line(rt: &impl Print, text: &str, n: u32) -> io::Result<()> {
    println!(rt; "{text}{n}")
}

// Where a part of `size` bytes from `at` on ends, among n bytes.
fn end_of(at: usize, size: usize, n: usize) -> usize {
    if at < n {
        if size < n - at {
            return at + size;
        }
    }
    n
}

// How long the next part is.
fn longer(size: usize, step: usize) -> usize {
    if size < 1000 {
        if step < 1000 {
            return size + step;
        }
    }
    size
}

// Feeds one part of a sheet.
fn feed_part(reader: &mut [u8], sheet: &[u8], at: usize, end: usize) {
    if at <= end {
        if end <= sheet.len() {
            feeding::feed_bytes(reader, &sheet[at..end]);
        }
    }
}

// Feeds the first n bytes of a sheet in 100 parts: of `first` bytes, of `first + step`, and so on; then empty ones.
fn feed_all(reader: &mut [u8], sheet: &[u8], n: usize, first: usize, step: usize) {
    let mut at: usize = 0;
    let mut size = first;
    for _ in 0..100 {
        let end = end_of(at, size, n);
        feed_part(reader, sheet, at, end);
        at = end;
        size = longer(size, step);
    }
}

// Says the counts of a mesh image behind five words, all of them small.
fn say_counts(rt: &impl Print, out: &[u8]) -> io::Result<()> {
    if out.len() < 36 {
        return Ok(());
    }
    let particles = out[20];
    let triangles = out[24];
    let edges = out[28];
    let boundary = out[32];
    print!(rt; "  particles, triangles, edges, boundary entries: ")?;
    println!(rt; "{particles}, {triangles}, {edges}, {boundary}")
}

// Closes a reader and says what it answers, and the counts of the mesh that it gives.
fn close(rt: &impl Print, text: &str, reader: &mut [u8]) -> io::Result<()> {
    let mut out = [1u8; 332];
    print!(rt; "{text}")?;
    say_line(rt, "answer ", feed_c::close_sheet(reader, &mut out))?;
    say_counts(rt, &out)
}

// Opens a reader, feeds it the first n bytes of a sheet, and closes it.
fn fed(
    rt: &impl Print,
    text: &str,
    reader: &mut [u8],
    sheet: &[u8],
    n: usize,
    first: usize,
    step: usize,
) -> io::Result<()> {
    feeding::open_reader(reader);
    feed_all(reader, sheet, n, first, step);
    close(rt, text, reader)
}

// The worked sheet, in 46 parts of a byte and in growing parts, and its first 45 bytes; calls behind the close.
fn first_edition(rt: &impl Print) -> io::Result<()> {
    let mut reader = [7u8; 17301];
    fed(rt, "in parts of one byte: ", &mut reader, &WORKED, 46, 1, 0)?;
    say_line(
        rt,
        "a feed behind the close: ",
        feeding::feed_bytes(&mut reader, &WORKED),
    )?;
    close(rt, "a close behind the close: ", &mut reader)?;
    fed(
        rt,
        "in parts of 0, 1, 2, .. bytes: ",
        &mut reader,
        &WORKED,
        46,
        0,
        1,
    )?;
    fed(rt, "one byte short: ", &mut reader, &WORKED, 45, 1000, 0)
}

// The sheet of the second edition, in 36 parts of a byte.
fn second_edition(rt: &impl Print) -> io::Result<()> {
    let mut reader = [7u8; 17301];
    fed(
        rt,
        "in the second edition: ",
        &mut reader,
        &SECOND,
        36,
        1,
        0,
    )
}

fn main(rt: HostRuntime) -> io::Result<()> {
    first_edition(&rt)?;
    second_edition(&rt)?;
    let mut short = [0u8; 17300];
    say_line(&rt, "no reader: ", feeding::feed_bytes(&mut short, b"a"))
}
