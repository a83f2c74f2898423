// What the filled front of a log tells, and that front handed back.
ghost use Rattle.std.specs.Prelude.{◌≡◌, ◌/◌, ◌≤◌, length};
ghost use Rattle.mesh.specs.Log.{log_at};
ghost use Rattle.mesh.specs.Widths.{entry_words};
ghost use Rattle.call_frame.specs.Framed.{kind_changes_of, words_change};
ghost use Rattle.call_frame.specs.Answered.{front_of};

// Does an entry of this kind tell of something split or inserted?
fn kind_changes(kind: u32) -> bool
    ensures { result ≡ kind_changes_of kind }
{
    if kind == 1 { true } else { kind == 3 }
}

// Was anything split or inserted, by the first n entries of a log?
pub fn changed(n: usize, log: &[u32]) -> bool
    requires { n ≤ length log.now / entry_words }
    ensures { result ≡ words_change (log_at n log.now) }
{
    for i in 0..n {
        if kind_changes(log[6 * i]) {
            return true;
        }
    }
    false
}

// The first n entries of a log, or as many as it has.
pub fn log_front(n: usize, log: &[u32]) -> &[u32]
    ensures { result.now ≡ front_of n log.now }
{
    let most = log.len() / mesh::ENTRY_WORDS;
    let end = 6 * mesh::whole::least(n, most);
    &log[..end]
}
