// What the programs ask of the system beside std: bytes read until they are full, and a line on standard error that says what failed.
#![tactic(auto)]

ghost use Rattle.std.specs.Io.{ReadsAtMost};

use std::io;
use std::io::Read;

// Reads until the lent bytes are full or the input ends, and returns how many it put at their front. A read that fails ends it.
pub fn read_full<R: Read>(reader: &mut R, bytes: &mut [u8]) -> io::Result<usize>
    ensures { ReadsAtMost result bytes.new }
{
    let mut done = 0;
    // A read tells how many bytes came.
    while done < bytes.len() {
        let n = reader.read(&mut bytes[done..])?;
        if n == 0 {
            break;
        }
        done += n;
    }
    Ok(done)
}

// What the system says of an error, without its number.
fn words_of(text: &str) -> &str {
    match text.split_once(" (os error ") {
        Some((words, _)) => words,
        None => text,
    }
}

// Writes a line to standard error: what failed, as the caller names it, a colon, and what the system says of it.
pub fn fail(rt: &(impl Eprint + AllocGlobal), what: &str, error: io::Error) -> io::Result<()> {
    let text = format!(in rt.alloc(); "{error}")?;
    let words = words_of(text.as_str());
    eprintln!(rt; "{what}: {words}")
}

#[cfg(test)]
mod tests {
    use super::{fail, read_full, words_of};
    use std::io;

    #[test]
    fn reads_to_the_end_or_until_full(rt: HostRuntime) -> io::Result<()> {
        let mut bytes = [0u8; 4];
        let mut three: &[u8] = b"abc";
        let n = read_full(&mut three, &mut bytes)?;
        assert_eq!(rt; n, 3);
        let mut five: &[u8] = b"defgh";
        let m = read_full(&mut five, &mut bytes)?;
        assert_eq!(rt; m, 4);
        Ok(())
    }

    #[test]
    fn says_what_failed_without_its_number(rt: HostRuntime) -> io::Result<()> {
        assert_eq!(rt; words_of("File exists (os error 17)"), "File exists");
        assert_eq!(rt; words_of("invalid filename"), "invalid filename");
        fail(&rt, "streams", io::Error::from_raw_os_error(17))
    }
}
