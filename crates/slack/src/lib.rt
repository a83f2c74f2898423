// The edges at particles from one on: impulse and stress are taken from them.
#![tactic(auto)]

ghost use Rattle.std.specs.Prelude.{◌≡◌, ◌||◌, leb, length};
ghost use Rattle.slack.specs.Slack.{EdgeHere, SlackAt, EdgesHere, SlackFrom};

// Is one of two particles `from` or one behind it?
fn one_beyond(from: usize, x: usize, y: usize) -> bool
    ensures { result ≡ (leb from x || leb from y) }
{
    if from <= x {
        return true;
    }
    from <= y
}

// Takes impulse and stress from edge j, if an end of it is `from` or behind it.
fn slacken(from: usize, j: usize, ends: &[usize], lengths: &mut [f32])
    requires { EdgeHere j (length ends.now) (length lengths.old) }
    ensures { SlackAt from j ends.now lengths.old lengths.new }
{
    let size = lengths.len() / mesh::LENGTH_COLUMNS;
    let second = ends.len() / mesh::END_COLUMNS + j;
    if one_beyond(from, ends[j], ends[second]) {
        lengths[2 * size + j] = 0.0;
        lengths[3 * size + j] = 0.0;
    }
}

// The same of each of the first e edges.
pub fn slacken_from(from: usize, e: usize, ends: &[usize], lengths: &mut [f32])
    requires { EdgesHere e (length ends.now) (length lengths.old) }
    ensures { SlackFrom from e ends.now lengths.old lengths.new }
{
    for j in 0..e {
        slacken(from, j, ends, lengths);
    }
}
