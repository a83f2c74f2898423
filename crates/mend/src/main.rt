// The program of docs/RULES.md, R22: reads a broken sheet on standard input, writes the mended sheet into a new file, and prints what was dropped.
#![tactic(auto)]

ghost use Rattle.std.specs.Prelude.{◌≡◌, ◌≤◌, length};
ghost use Rattle.io.specs.Counts.{IsPrefixLen};
ghost use Rattle.mend.specs.Printing.{Printed};

use mender::MendError;
use std::env::FillError;
use std::fs::OpenOptions;
use std::io;
use std::io::Write;
use std::rt::{Env, Files};

// How many bytes the mended sheet and the text have, and whether there is a sheet: a refusal has none.
#[derive(Drop)]
struct Ends {
    whole: bool,
    sheet: usize,
    text: usize,
}

// Puts the mended sheet and what is printed at the front of the lent bytes, which always hold them.
fn mend_all(broken: &[u8], mended: &mut [u8], text: &mut [u8]) -> Ends
    requires { (17292 ≤ length mended.old) × (131072 ≤ length text.old) }
    ensures { IsPrefixLen result.sheet mended.new × IsPrefixLen result.text text.new
        × Printed broken.now mended.new text.new result }
{
    let told = mender::mend_sheet(broken, mended, text);
    match told {
        Ok(k) => Ends {
            whole: true,
            sheet: k.sheet,
            text: k.text,
        },
        Err(why) => match why {
            MendError::Short => Ends {
                whole: false,
                sheet: 0,
                text: 0,
            },
            MendError::Refused(e) => {
                let line = listing::write_refused(e.number(), text);
                match line {
                    Some(k) => Ends {
                        whole: false,
                        sheet: 0,
                        text: k,
                    },
                    None => Ends {
                        whole: false,
                        sheet: 0,
                        text: 0,
                    },
                }
            }
        },
    }
}

// Writes bytes into a new file with the name that the first argument has, where there is one: whether they stand there, or none was asked for. What is wrong
// is said on standard error. The name is UTF-8.
fn save<R: Files + Env + Eprint + AllocGlobal>(rt: &R, bytes: &[u8]) -> io::Result<bool> {
    let mut name = [0u8; 4096];
    let n = match rt.arg(1, &mut name) {
        Ok(n) => n,
        Err(FillError::NotPresent) => return Ok(true),
        Err(FillError::TooLong) => 0,
    };
    match write_new(rt, &name[..n], bytes) {
        Ok(()) => Ok(true),
        Err(why) => {
            streams::fail(rt, "mend", why)?;
            Ok(false)
        }
    }
}

// Writes bytes into a new file.
fn write_new(rt: &impl Files, name: &[u8], bytes: &[u8]) -> io::Result<()> {
    let Ok(name) = str::from_utf8(name) else {
        return Err(io::Error::from(io::ErrorKind::InvalidFilename));
    };
    let mut file = OpenOptions::new()
        .write(true)
        .create_new(true)
        .open(rt, name)?;
    file.write_all(bytes)
}

fn main(rt: HostRuntime) -> io::Result<()> {
    // One byte more than the longest sheet has: what follows these bytes changes nothing.
    let mut broken = [0u8; 17293];
    let n = streams::read_full(&mut rt.stdin(), &mut broken)?;
    let mut mended = [0u8; 17292];
    let mut text = [0u8; 131072];
    let ends = mend_all(&broken[..n], &mut mended, &mut text);
    let m = ends.sheet;
    let k = ends.text;
    if ends.whole {
        if save(&rt, &mended[..m])? {
            return rt.stdout().write_all(&text[..k]);
        }
        return Ok(());
    }
    rt.stdout().write_all(&text[..k])
}
