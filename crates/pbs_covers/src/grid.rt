// Tables of what is true of each stretch of a run.
ghost use Rattle.std.specs.Prelude.{◌≡◌, ◌≤◌, ◌<◌, ◌^◌};
ghost use Rattle.pbs_covers.specs.Grids.{entry, at, joint, throughout, aborted};

use pbs_base::Listed;

/// For a run of n vectors: a row for each start, from n down, with an entry for each end.
pub type Grid = Listed<Listed<bool>>;

pub fn entry(row: &Listed<bool>, j: usize) -> bool
    ensures { result ≡ entry row.now j }
{
    match row.get(j) {
        Some(value) => *value,
        None => false,
    }
}

/// The entry of the stretch from `i` to `j`.
pub fn at(grid: &Grid, n: usize, i: usize, j: usize) -> bool
    requires { i ≤ n }
    ensures { result ≡ at n grid.now i j }
{
    match grid.get(n - i) {
        Some(row) => entry(row, j),
        None => false,
    }
}

/// Whether the left grid leads from `i` to some position from `k` on, and the right one from there to `j`.
pub fn joint(left: &Grid, right: &Grid, n: usize, k: usize, i: usize, j: usize) -> bool
    requires start { i ≤ n }
    requires end { j ≤ n }
    requires room { n < 2 ^ 62 }
    ensures { result ≡ joint n left.now right.now k i j }
{
    for m in k..j + 1 {
        if at(left, n, i, m) && at(right, n, m, j) {
            return true;
        }
    }
    false
}

/// Whether each of the entries from `i` up to `j` is true.
pub fn throughout(truths: &Listed<bool>, i: usize, j: usize) -> bool
    ensures { result ≡ throughout truths.now i j }
{
    for m in i..j {
        if !entry(truths, m) {
            return false;
        }
    }
    true
}

/// What the body's grid tells where no position up to `j` is the abort position, and else what the after part's grid
/// tells from the abort position on.
pub fn aborted(
    trap: &Grid,
    alive: &Grid,
    body: &Grid,
    after: &Grid,
    n: usize,
    i: usize,
    j: usize,
) -> bool
    requires start { i ≤ j }
    requires end { j ≤ n }
    requires room { n < 2 ^ 62 }
    ensures { result ≡ aborted n trap.now alive.now body.now after.now i j }
{
    for m in i + 1..j + 1 {
        if at(trap, n, i, m) && at(alive, n, i, m - 1) {
            return at(after, n, m, j);
        }
    }
    at(body, n, i, j)
}
