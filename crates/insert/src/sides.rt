// The boundary entries along a strap that is opened: each becomes two, and the second half is appended.
ghost use Rattle.std.specs.Prelude.{◌≡◌, [], ◌∷◌, ◌<◌, ◌≤◌, ◌/◌, length, get_or};
ghost use Rattle.model.specs.Cut.{shortened, appended};
ghost use Rattle.mesh.specs.At.{side_row};
ghost use Rattle.mesh.specs.Widths.{side_columns};
ghost use Rattle.work.specs.Rows.{SideRoom};
ghost use Rattle.insert.specs.Sides.{EntryGrown, SidesInserted};

// Entry i of m ends at `end` instead, and (from, to) is appended: how many entries there are then, or None where there is no room.
fn grow_entry(
    i: usize,
    end: usize,
    from: usize,
    to: usize,
    m: usize,
    room: usize,
    outline: &mut [usize],
) -> Option<usize>
    requires { SideRoom m room (length outline.old) × (i < m) }
    ensures { EntryGrown (record { corners = get_or outline.old i 0 ∷ end ∷ [] }) (record { corners = from ∷ to ∷ [] } ∷ [])
        i m room outline.old outline.new result }
{
    if m == room {
        return None;
    }
    let o = outline.len() / mesh::SIDE_COLUMNS;
    outline[o + i] = end;
    outline[m] = from;
    outline[o + m] = to;
    Some(m + 1)
}

// Entry i of m, where (a, b) gets p behind a and q before b.
fn insert_side(
    i: usize,
    a: usize,
    b: usize,
    p: usize,
    q: usize,
    m: usize,
    room: usize,
    outline: &mut [usize],
) -> Option<usize>
    requires { SideRoom m room (length outline.old) × (i < m) }
    ensures { EntryGrown (shortened a b p q (side_row (length outline.old / side_columns) outline.old i))
        (appended a b p q (side_row (length outline.old / side_columns) outline.old i)) i m room outline.old
        outline.new result }
{
    let o = outline.len() / mesh::SIDE_COLUMNS;
    let x = outline[i];
    let y = outline[o + i];
    if x == a {
        if y == b {
            return grow_entry(i, p, q, b, m, room, outline);
        }
    }
    if x == b {
        if y == a {
            return grow_entry(i, q, p, a, m, room, outline);
        }
    }
    Some(m)
}

// All n entries; the appended ones stand behind them: how many entries there are then, or None where there is no room.
pub fn insert_sides(
    a: usize,
    b: usize,
    p: usize,
    q: usize,
    n: usize,
    room: usize,
    outline: &mut [usize],
) -> Option<usize>
    requires { SideRoom n room (length outline.old) }
    ensures { SidesInserted a b p q n room outline.old outline.new result }
{
    let mut rows = n;
    for i in 0..n {
        rows = insert_side(i, a, b, p, q, rows, room, outline)?;
    }
    Some(rows)
}
