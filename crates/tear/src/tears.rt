// Behind a split across a torn edge: the edges that bridge it go slack, and the particles at it are damaged.
ghost use Rattle.std.specs.Prelude.{◌≡◌, ◌/◌, ◌<◌, length};
ghost use Rattle.mesh.specs.Workers.{EdgeRoom};
ghost use Rattle.tear.specs.Tears.{bridges_by, Slackened, DamageRoom, Damaged};

// Is the edge (a, b) between `other` and v or one of its copies?
fn bridges(v: usize, before: usize, count: usize, other: usize, a: usize, b: usize) -> bool
    ensures { result ≡ bridges_by v before count other a b }
{
    if crate::loads::is_end(other, a, b) {
        if straddling::is_copy(a, v, before, count) {
            return true;
        }
        return straddling::is_copy(b, v, before, count);
    }
    false
}

// The edges between `other` and v or its copies, among the first e, get impulse 0 and stress 0.
pub fn slacken_bridges(
    v: usize,
    before: usize,
    count: usize,
    other: usize,
    e: usize,
    ends: &[usize],
    lengths: &mut [f32],
)
    requires { EdgeRoom e (length ends.now) (length lengths.old) }
    ensures { Slackened v before count other e ends.now lengths.old lengths.new }
{
    let c = ends.len() / mesh::END_COLUMNS;
    let m = lengths.len() / mesh::LENGTH_COLUMNS;
    for i in 0..e {
        if bridges(v, before, count, other, ends[i], ends[c + i]) {
            lengths[2 * m + i] = 0.0;
            lengths[3 * m + i] = 0.0;
        }
    }
}

// Marks x, y and the copies of a split as damaged.
pub fn damage(x: usize, y: usize, before: usize, count: usize, roots: &mut [usize])
    requires { DamageRoom x y before count (length roots.old) }
    ensures { Damaged x y before count roots.old roots.new }
{
    let size = roots.len() / mesh::ROOT_COLUMNS;
    roots[size + x] = 1;
    roots[size + y] = 1;
    let copies = count - 1;
    for g in 0..copies {
        let w = before + g;
        roots[size + w] = 1;
    }
}
