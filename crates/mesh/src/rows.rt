// Workers on the rows of the blocks: each states the view of what it is lent, and requires the room.
ghost use Rattle.std.specs.Prelude.{◌≡◌, ℕ, ◌+◌, ◌-◌, ◌*◌, ◌/◌, ◌<◌, ◌≤◌, List, [], ◌∷◌, ◌++◌, length, Float};
ghost use Rattle.mesh.specs.At.{particles_at, edges_at};
ghost use Rattle.model.specs.Split.{retargeted, only_at, copy_for_of};
ghost use Rattle.mesh.specs.Workers.{with_copy, group_of, edge_of, ParticleRoom, EdgeRoom, Removed, Mapped, FanOk};
ghost use Rattle.mesh.specs.Widths.{corner_columns};

use crate::{EdgeRow, POINT_COLUMNS};

// Appends to the n particles a copy of v, of mass m and inverse mass w.
pub fn append_copy(v: usize, n: usize, m: f32, w: f32, points: &mut [f32], roots: &mut [usize])
    requires { (v < n) × ParticleRoom (n + 1) (length points.old) (length roots.old) }
    ensures { particles_at (n + 1) points.new roots.new
        ≡ with_copy v m w (particles_at n points.old roots.old) }
{
    let p = points.len() / POINT_COLUMNS;
    let r = roots.len() / crate::ROOT_COLUMNS;
    columns::copy_row(v, n, POINT_COLUMNS, p, points);
    points[4 * p + n] = m;
    points[5 * p + n] = w;
    columns::copy_row(v, n, 2, r, roots);
}

// Removes the marked edges from the first n, and returns how many are left. Edges before the first marked one are not touched, and those between two are moved as a whole.
pub fn remove_edges(mask: &[usize], n: usize, ends: &mut [usize], lengths: &mut [f32]) -> usize
    requires { (n ≤ length mask.now) × EdgeRoom n (length ends.old) (length lengths.old) }
    ensures { Removed mask.now n result (edges_at n ends.old lengths.old) (edges_at result ends.new
        lengths.new) }
{
    let e = ends.len() / crate::END_COLUMNS;
    let l = lengths.len() / crate::LENGTH_COLUMNS;
    let mut r: usize = columns::next_marked(mask, 0, n);
    let mut w: usize = r;
    // A turn passes a whole run of rows, so no range steps by it.
    while r < n {
        let a = r + 1;
        let b = columns::next_marked(mask, a, n);
        let len = b - a;
        columns::shift_block(w, a, len, 4, e, ends);
        columns::shift_block(w, a, len, 4, l, lengths);
        w += len;
        r = b;
    }
    w
}

// Appends an edge to the n that are there.
pub fn append_edge(n: usize, row: EdgeRow, ends: &mut [usize], lengths: &mut [f32])
    requires { EdgeRoom (n + 1) (length ends.old) (length lengths.old) }
    ensures { edges_at (n + 1) ends.new lengths.new
        ≡ edges_at n ends.old lengths.old ++ (edge_of row ∷ []) }
{
    let e = ends.len() / crate::END_COLUMNS;
    let l = lengths.len() / crate::LENGTH_COLUMNS;
    ends[n] = row.a;
    ends[e + n] = row.b;
    ends[2 * e + n] = row.structural;
    ends[3 * e + n] = row.torn;
    lengths[n] = row.rest;
    lengths[l + n] = row.initial;
    lengths[2 * l + n] = row.impulse;
    lengths[3 * l + n] = row.stress;
}

// The number that stands for v in group g, where n particles were there before the copies.
pub fn copy_for(v: usize, n: usize, g: usize) -> usize
    requires { (0 < n) × (n + g ≤ 65536) }
    ensures { result ≡ copy_for_of v n g }
{
    if g == 0 { v } else { n + g - 1 }
}

// Puts w for v in the corners of triangle e.
fn retarget(e: usize, v: usize, w: usize, corners: &mut [usize])
    requires { e < length corners.old / corner_columns }
    ensures { Mapped (only_at e (retargeted v w)) corners.old corners.new }
{
    let c = corners.len() / crate::CORNER_COLUMNS;
    columns::turn_row(e, v, w, crate::CORNER_COLUMNS, c, corners);
}

// Puts the copies of the fan's groups for v in the corners of its triangles.
pub fn rewire(v: usize, n: usize, elements: &[usize], groups: &[usize], corners: &mut [usize])
    requires { FanOk n elements.now groups.now (length corners.old) }
    ensures { Mapped (λ k. retargeted v (copy_for_of v n (group_of elements.now groups.now k)))
        corners.old corners.new }
{
    for i in 0..elements.len() {
        let e = elements[i];
        let w = copy_for(v, n, groups[i]);
        retarget(e, v, w, corners);
    }
}
