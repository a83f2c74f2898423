// The table of links kept true through a split: the cells of a fan go from a particle to the copies of their groups.
#![tactic(auto)]

ghost use Rattle.columns.specs.Block.{cell};
ghost use Rattle.links.specs.Links.{LinksOf};
ghost use Rattle.link_splits.specs.Splits.{corner_after, SplitRoom};

// Takes the cells of a fan from v, and links them anew at the copies of their groups, from the last to the first.
// The corners are those before the split, and the table of n cells is then that of the corners after it.
pub fn split_links(
    v: usize,
    before: usize,
    n: usize,
    k: usize,
    heads: usize,
    span: usize,
    rows: usize,
    numbers: &[usize],
    groups: &[usize],
    corners: &[usize],
    table: &mut [u16],
)
    requires { SplitRoom v before heads k span rows n numbers.now groups.now corners.now table.old }
    ensures { LinksOf heads k span n (corner_after v before numbers.now groups.now
        (cell 0 rows corners.now)) table.new }
{
    table[v] = 0;
    for i in (0..numbers.len()).rev() {
        let e = numbers[i];
        let w = mesh::rows::copy_for(v, before, groups[i]);
        let c = links::corner_at(v, e, k, rows, corners);
        table[heads + (c * span + e)] = table[w];
        table[w] = (e + 1) as u16;
    }
}
