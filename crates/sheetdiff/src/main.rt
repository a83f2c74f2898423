// The program of docs/RULES.md, R23: reads the two sheets that its arguments name, and prints their differences, or the line of a refusal.
#![tactic(auto)]

ghost use Rattle.std.specs.Prelude.{◌≡◌, ◌≤◌, length, take};
ghost use Rattle.io.specs.Counts.{IsPrefixLen};
ghost use Rattle.differing.specs.Differed.{differed};

use std::env::FillError;
use std::io::Write;
use std::rt::{Env, Files};
use std::{fs, io};

// What the C library calls a missing argument, and one that is too long.
const INVALID: i32 = 22;

const TOO_LONG: i32 = 36;

// Puts the differences of two sheets at the front of the lent bytes, which always hold them, and returns how long the text is.
fn list_files(first: &[u8], second: &[u8], out: &mut [u8]) -> usize
    requires { 65536 ≤ length out.old }
    ensures { IsPrefixLen result out.new × (take result out.new ≡ differed first.now second.now) }
{
    let told = differing::list_differences(first, second, out);
    match told {
        Some(n) => n,
        None => 0,
    }
}

// What is wrong with an argument that was not found.
fn lacking(why: FillError) -> io::Error {
    match why {
        FillError::NotPresent => io::Error::from_raw_os_error(INVALID),
        FillError::TooLong => io::Error::from_raw_os_error(TOO_LONG),
    }
}

// Opens the file that an argument names, or returns nothing once a line on standard error says what is wrong. The name is UTF-8.
fn open_named<R: Files + Env + Eprint + AllocGlobal>(
    rt: &R,
    i: usize,
) -> io::Result<Option<R::File>> {
    let mut path = [0u8; 4096];
    let n = match rt.arg(i, &mut path) {
        Ok(n) => n,
        Err(why) => {
            streams::fail(rt, "sheetdiff FIRST SECOND", lacking(why))?;
            return Ok(None);
        }
    };
    let Ok(name) = str::from_utf8(&path[..n]) else {
        let why = io::Error::from(io::ErrorKind::InvalidFilename);
        streams::fail(rt, "sheetdiff FIRST SECOND", why)?;
        return Ok(None);
    };
    match fs::open(rt, name) {
        Ok(file) => Ok(Some(file)),
        Err(why) => {
            streams::fail(rt, name, why)?;
            Ok(None)
        }
    }
}

// Reads two open files, and prints the differences of the sheets that they are.
fn print_differences<R: Files + Print>(rt: &R, mut a: R::File, mut b: R::File) -> io::Result<()> {
    // One byte more than the longest sheet has: what follows these bytes changes nothing.
    let mut first = [0u8; 2173];
    let n = streams::read_full(&mut a, &mut first)?;
    let mut second = [0u8; 2173];
    let m = streams::read_full(&mut b, &mut second)?;
    let mut out = [0u8; 65536];
    let k = list_files(&first[..n], &second[..m], &mut out);
    io::writer(rt).write_all(&out[..k])
}

fn main(rt: HostRuntime) -> io::Result<()> {
    let Some(a) = open_named(&rt, 1)? else {
        return Ok(());
    };
    let Some(b) = open_named(&rt, 2)? else {
        return Ok(());
    };
    print_differences(&rt, a, b)
}
