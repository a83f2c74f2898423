// Replays a fixed list of the published Rust's answers through the C functions, and prints how many passed.
// The list is the file stdin beside src/: oracle/replay/README.md says how it was made.
#![tactic(auto)]

ghost use Rattle.std.specs.Prelude.{◌≡◌, ◌<◌, ◌≤◌, length};

use std::io;
use std::io::Read;

// One call of the list: where its parts begin (the image first, the arguments beside it, the rooms, the words of the result and
// of the log that are expected), how many bytes are lent for result and log, and the refusal that is expected.
#[derive(Drop)]
struct Call {
    kind: usize,
    number: usize,
    minimum: usize,
    args: usize,
    rooms: usize,
    words: usize,
    noted: usize,
    next: usize,
    lent: usize,
    lent_log: usize,
    refusal: usize,
}

// Room for one call.
fn room() -> [u8; 98304]
    ensures { 98304 ≡ length result }
{
    [0; 98304]
}

fn wide(x: u8) -> usize
    ensures { result < 256 }
{
    x as usize
}

// The little-endian word at place i, or 0 past the end.
fn word(bytes: &[u8], i: usize) -> usize
    ensures { result < 4294967296 }
{
    if bytes.len() < 4 {
        return 0;
    }
    if bytes.len() - 4 < i {
        return 0;
    }
    wide(bytes[i])
        + 256 * wide(bytes[i + 1])
        + 65536 * wide(bytes[i + 2])
        + 16777216 * wide(bytes[i + 3])
}

// The call of eleven words: its kind, a particle or a number, a minimum or an edition, how many bytes the image, the arguments, the rooms, the
// expected result and the expected log have, the bytes lent for both, and the refusal.
fn call_of(head: &[u8]) -> Call {
    let args = word(head, 12);
    let rooms = args + word(head, 16);
    let words = rooms + word(head, 20);
    let noted = words + word(head, 24);
    Call {
        kind: word(head, 0),
        number: word(head, 4),
        minimum: word(head, 8),
        args,
        rooms,
        words,
        noted,
        next: noted + word(head, 28),
        lent: word(head, 32),
        lent_log: word(head, 36),
        refusal: word(head, 40),
    }
}

// Reads the next call of the list, its parts into the lent bytes. A list that ends within a call, or a call that they do not hold, is the end too.
fn next_call<R: Read>(list: &mut R, bytes: &mut [u8]) -> io::Result<Option<Call>> {
    let mut head = [0u8; 44];
    let n = streams::read_full(list, &mut head)?;
    if n < 44 {
        return Ok(None);
    }
    let c = call_of(&head);
    let next = c.next;
    if bytes.len() < next {
        return Ok(None);
    }
    let m = streams::read_full(list, &mut bytes[..next])?;
    if m < next {
        return Ok(None);
    }
    Ok(Some(c))
}

// Asks the C function of this kind, one that reads, and returns its refusal number.
fn asked(
    kind: usize,
    number: usize,
    minimum: usize,
    image: &[u8],
    args: &[u8],
    out: &mut [u8],
) -> u32 {
    let v = (number % 4294967296) as u32;
    let least = (minimum % 4294967296) as u32;
    if kind == 0 {
        return bench_c::leaves::bench_root(v, out);
    }
    if kind == 1 {
        return bench_c::leaves::bench_blade_hit(args, out);
    }
    if kind == 2 {
        return bench_c::fans::bench_groups(image, v, args, out);
    }
    if kind == 3 {
        return bench_c::meshes::bench_rest_measure(image, out);
    }
    if kind == 4 {
        return bench_c::listed::bench_rest_measure_of(image, args, out);
    }
    if kind == 5 {
        return bench_c::fans::bench_opens_without_confetti(image, v, args, least, out);
    }
    if kind == 6 {
        return bench_c::meshes::bench_pieces(image, out);
    }
    99
}

// Asks the C function of this kind, one that gives a mesh, and returns its refusal number.
fn torn(
    kind: usize,
    number: usize,
    minimum: usize,
    image: &[u8],
    args: &[u8],
    rooms: &[u8],
    out: &mut [u8],
    log: &mut [u8],
) -> u32 {
    let v = (number % 4294967296) as u32;
    let least = (minimum % 4294967296) as u32;
    if kind == 7 {
        return bench_c::tearing::bench_split(image, v, args, rooms, out, log);
    }
    if kind == 8 {
        return bench_c::tearing::bench_straddlers(image, rooms, out, log);
    }
    if kind == 9 {
        return bench_c::cutting::bench_cut(image, args, least, v, rooms, out, log);
    }
    if kind == 10 {
        return bench_c::cutting::bench_crack(image, args, least, rooms, out, log);
    }
    99
}

// Asks the C function of this kind, a fan or one on sheets, and returns its refusal number; the layout's number is told as one.
fn hosted(kind: usize, number: usize, image: &[u8], args: &[u8], out: &mut [u8]) -> u32 {
    if kind == 11 {
        return bench_c::fans::bench_fan(image, (number % 4294967296) as u32, out);
    }
    if kind == 12 {
        return bench_c::sheets::bench_sheet(args, out);
    }
    if kind == 13 {
        return bench_c::sheets::bench_sheet_write(args, out);
    }
    if kind == 14 {
        return bench_c::sheets::bench_list_cut(args, out);
    }
    if kind == 15 {
        return bench_c::leaves::bench_layout();
    }
    99
}

// One of them.
fn answer(
    kind: usize,
    number: usize,
    minimum: usize,
    image: &[u8],
    args: &[u8],
    rooms: &[u8],
    out: &mut [u8],
    log: &mut [u8],
) -> u32 {
    if kind < 7 {
        return asked(kind, number, minimum, image, args, out);
    }
    if kind < 11 {
        return torn(kind, number, minimum, image, args, rooms, out, log);
    }
    hosted(kind, number, image, args, out)
}

// Do the bytes of out stand in want, and 0 behind them?
fn same(want: &[u8], out: &[u8]) -> bool {
    if out.len() < want.len() {
        return false;
    }
    let (front, rest) = out.split_at(want.len());
    front == want && rest.iter().all(|b| *b == 0)
}

// Puts another byte than 0 into each place, so that what an answer leaves alone is seen.
fn soil(bytes: &mut [u8]) {
    bytes.fill(170);
}

// Is the answer to this call, with these bytes lent for result and log, the one that the list has?
fn passes(
    c: Call,
    image: &[u8],
    args: &[u8],
    rooms: &[u8],
    want: &[u8],
    want_log: &[u8],
    out: &mut [u8],
    log: &mut [u8],
) -> bool {
    let kind = c.kind;
    let number = c.number;
    let minimum = c.minimum;
    let refusal = c.refusal;
    soil(out);
    soil(log);
    let r = answer(kind, number, minimum, image, args, rooms, out, log);
    if r as usize != refusal {
        return false;
    }
    if same(want, out) {
        return same(want_log, log);
    }
    false
}

// The same with all the bytes that there are for result and log: the call's are the first of them.
fn lent(
    c: Call,
    image: &[u8],
    args: &[u8],
    rooms: &[u8],
    want: &[u8],
    want_log: &[u8],
    out: &mut [u8],
    log: &mut [u8],
) -> bool {
    let n = c.lent;
    let m = c.lent_log;
    if out.len() < n {
        return false;
    }
    if log.len() < m {
        return false;
    }
    passes(
        c,
        image,
        args,
        rooms,
        want,
        want_log,
        &mut out[..n],
        &mut log[..m],
    )
}

// Takes the call's rooms and what is expected out of the bytes.
fn expected(
    bytes: &[u8],
    c: Call,
    image: &[u8],
    args: &[u8],
    out: &mut [u8],
    log: &mut [u8],
) -> bool {
    let rooms = c.rooms;
    let words = c.words;
    let noted = c.noted;
    let next = c.next;
    if words < rooms {
        return false;
    }
    if noted < words {
        return false;
    }
    if next < noted {
        return false;
    }
    if bytes.len() < next {
        return false;
    }
    lent(
        c,
        image,
        args,
        &bytes[rooms..words],
        &bytes[words..noted],
        &bytes[noted..next],
        out,
        log,
    )
}

// Takes the call's image and arguments out of the bytes.
fn tried(bytes: &[u8], c: Call, out: &mut [u8], log: &mut [u8]) -> bool {
    let args = c.args;
    let rooms = c.rooms;
    if rooms < args {
        return false;
    }
    if bytes.len() < rooms {
        return false;
    }
    expected(bytes, c, &bytes[..args], &bytes[args..rooms], out, log)
}

// A line for a call that got another answer.
fn differs(rt: &impl Print, call: usize) -> io::Result<()> {
    println!(rt; "differs: call {call}")
}

// All calls of the list, each read into the lent bytes, and how many passed.
fn replay<R: Read>(
    rt: &impl Print,
    list: &mut R,
    bytes: &mut [u8],
    out: &mut [u8],
    log: &mut [u8],
) -> io::Result<()> {
    let mut calls: usize = 0;
    let mut passed: usize = 0;
    for number in 0..100000usize {
        let s = next_call(list, bytes)?;
        let Some(c) = s else {
            break;
        };
        if tried(bytes, c, out, log) {
            passed += 1;
        } else {
            differs(rt, number)?;
        }
        calls = number + 1;
    }
    println!(rt; "{passed} of {calls} calls answered as the Rust does")
}

fn main(rt: HostRuntime) -> io::Result<()> {
    let mut space = room();
    let mut out = [0u8; 41080];
    let mut log = [0u8; 1200];
    replay(&rt, &mut rt.stdin(), &mut space, &mut out, &mut log)
}
