// The program of docs/RULES.md, R14: reads a sheet on standard input, and prints the listing of its cut, or the line of its refusal.
#![tactic(auto)]

ghost use Rattle.std.specs.Prelude.{◌≡◌, ◌≤◌, length, take};
ghost use Rattle.io.specs.Counts.{IsPrefixLen};
ghost use Rattle.sheetcut.specs.SheetCut.{listed};

use std::io;
use std::io::Write;

// Puts the listing of a sheet at the front of the lent bytes, which always hold it, and returns how long it is.
fn list_sheet(sheet: &[u8], out: &mut [u8]) -> usize
    requires { 65536 ≤ length out.old }
    ensures { IsPrefixLen result out.new × (take result out.new ≡ listed sheet.now) }
{
    let told = sheetcut::list_cut(sheet, out);
    match told {
        Some(n) => n,
        None => 0,
    }
}

fn main(rt: HostRuntime) -> io::Result<()> {
    // One byte more than the longest sheet has: what follows these bytes changes nothing.
    let mut sheet = [0u8; 2173];
    let n = streams::read_full(&mut rt.stdin(), &mut sheet)?;
    let mut out = [0u8; 65536];
    let m = list_sheet(&sheet[..n], &mut out);
    rt.stdout().write_all(&out[..m])
}
