// Labels spread through a fan, the smallest first: each element gets the first one of its group.
#![tactic(auto)]

ghost use Rattle.std.specs.Prelude.{◌≡◌, ◌+◌, ◌*◌, ◌<◌, ◌≤◌, length, get_or};
ghost use Rattle.fan.specs.Fan.{fan};
ghost use Rattle.fan_reach.specs.Spread.{Reached, Onward, Next, Settled, Spread};
ghost use Rattle.fan_reach.specs.Corners.{Lent};

// Spreads the label from a, which has it: each untouched neighbour is reached, and a is marked as spread.
fn spread_from(
    verts: &[usize],
    k: usize,
    v: usize,
    needed: usize,
    sides: &[usize],
    heads: &[u16],
    nexts: &[u16],
    label: usize,
    a: usize,
    table: &mut [usize],
)
    requires verts_len { (length verts.now ≡ length sides.now * k) × Lent (fan verts.now k v needed sides.now) heads.now nexts.now }
    requires reached { Reached (fan verts.now k v needed sides.now) label a table.old }
    ensures { Onward (fan verts.now k v needed sides.now) label a table.old table.new }
{
    fan_reach::reach_all(verts, k, v, needed, sides, heads, nexts, label, a, table);
    table[a] = label + sides.len();
}

// The first element that is reached by the label and not yet spread; the table's length where there is none.
fn next_reached(table: &[usize], label: usize) -> usize
    requires { label < length table.now }
    ensures { Next label table.now result }
{
    for a in label + 1..table.len() {
        if table[a] == label {
            return a;
        }
    }
    table.len()
}

// Spreads the label of an untouched element, its own number, to all of its group.
fn spread_label(
    verts: &[usize],
    k: usize,
    v: usize,
    needed: usize,
    sides: &[usize],
    heads: &[u16],
    nexts: &[u16],
    label: usize,
    table: &mut [usize],
)
    requires verts_len { (length verts.now ≡ length sides.now * k) × Lent (fan verts.now k v needed sides.now) heads.now nexts.now }
    requires settled { Settled (fan verts.now k v needed sides.now) label table.old }
    requires label_in_bounds { (label < length sides.now) × (get_or table.old label 0 ≡ label) }
    ensures { Settled (fan verts.now k v needed sides.now) (label + 1) table.new }
{
    let mut a = label;
    // The next that has the label stands anywhere behind, so no range steps by it.
    while a < sides.len() {
        spread_from(verts, k, v, needed, sides, heads, nexts, label, a, table);
        a = next_reached(table, label);
    }
}

// Spreads all labels, the smallest first. Each place ends with the first element of its element's group, plus the number of elements.
fn spread_all(
    verts: &[usize],
    k: usize,
    v: usize,
    needed: usize,
    sides: &[usize],
    heads: &[u16],
    nexts: &[u16],
    table: &mut [usize],
)
    requires verts_len { (length verts.now ≡ length sides.now * k) × (length table.old ≡ length sides.now) }
    requires lent { Lent (fan verts.now k v needed sides.now) heads.now nexts.now }
    ensures { Spread (fan verts.now k v needed sides.now) table.new }
{
    fan::own_numbers(table);
    for i in 0..sides.len() {
        if table[i] == i {
            spread_label(verts, k, v, needed, sides, heads, nexts, i, table);
        }
    }
}

// Spreads all labels where no corner is linked: there are not as many heads as chains.
fn spread_few(
    verts: &[usize],
    k: usize,
    v: usize,
    needed: usize,
    sides: &[usize],
    table: &mut [usize],
)
    requires { (length verts.now ≡ length sides.now * k) × (length table.old ≡ length sides.now) × (0 < needed) }
    ensures { Spread (fan verts.now k v needed sides.now) table.new }
{
    let none = [0u16; 1];
    spread_all(verts, k, v, needed, sides, &none, &none, table);
}

// Spreads all labels along chains of corners. (No twin of `spread_few`, which links none.)
fn spread_many(
    verts: &[usize],
    k: usize,
    v: usize,
    needed: usize,
    sides: &[usize],
    table: &mut [usize],
)
    requires { (length verts.now ≡ length sides.now * k) × (length table.old ≡ length sides.now) × (0 < needed) × (length verts.now ≤ 4096) }
    ensures { Spread (fan verts.now k v needed sides.now) table.new }
{
    let mut heads = [4096u16; 64];
    let mut nexts = [0u16; 4096];
    fan_reach::link_corners(verts, &mut heads, &mut nexts);
    spread_all(verts, k, v, needed, sides, &heads, &nexts, table);
}

// Spreads all labels. To link corners pays in a large fan only.
pub fn spread_labels(
    verts: &[usize],
    k: usize,
    v: usize,
    needed: usize,
    sides: &[usize],
    table: &mut [usize],
)
    requires { (length verts.now ≡ length sides.now * k) × (length table.old ≡ length sides.now) × (0 < needed) }
    ensures { Spread (fan verts.now k v needed sides.now) table.new }
{
    if 32 < sides.len() {
        if verts.len() <= 4096 {
            spread_many(verts, k, v, needed, sides, table);
            return;
        }
    }
    spread_few(verts, k, v, needed, sides, table);
}
