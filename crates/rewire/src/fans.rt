// The triangles of a fan: each has the copy of its group for v.
ghost use Rattle.std.specs.Prelude.{◌/◌, length};
ghost use Rattle.rewire.specs.Stages.{TrianglesRewired};
ghost use Rattle.rewire.specs.Parts.{PartsRoom};
ghost use Rattle.mesh.specs.Widths.{corner_columns};

// Puts the copies of the groups for v in the corners of the fan's triangles.
pub fn rewire_triangles(
    v: usize,
    before: usize,
    n: usize,
    numbers: &[usize],
    groups: &[usize],
    corners: &mut [usize],
)
    requires { PartsRoom before n (length corners.old / corner_columns) numbers.now groups.now }
    ensures { TrianglesRewired v before n numbers.now groups.now corners.old
        corners.new }
{
    mesh::rows::rewire(v, before, &numbers[..n], &groups[..n], corners);
}
