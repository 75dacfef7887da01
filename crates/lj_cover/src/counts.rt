ghost use Rattle.std.specs.Prelude.{◌≡◌, ◌<◌, ◌≤◌};
ghost use Rattle.lj_cover.specs.BlockLists.{ceil_div};
ghost use Rattle.lj_cover.specs.Operations.{degree_at, has_both, pair_degree_at};

use crate::designs::Design;
use lj_base::{Block, Cell};

/// The number of blocks through point `x`.
pub fn degree(d: &Design, x: u8) -> u64
    requires { x < d.now.cell.v }
    ensures { result ≡ degree_at d.now.blocks x }
{
    let mut count = 0;
    for block in d.blocks() {
        if block.has(x) {
            count += 1;
        }
    }
    count
}

/// The number of blocks through both points `x` and `y`.
pub fn pair_degree(d: &Design, x: u8, y: u8) -> u64
    ensures { result ≡ pair_degree_at d.now.blocks x y }
{
    let mut count = 0;
    for block in d.blocks() {
        if has_both(block, x, y) {
            count += 1;
        }
    }
    count
}

/// Whether `x` and `y` are points of the block.
pub fn has_both(b: &Block, x: u8, y: u8) -> bool
    ensures { result ≡ has_both x y b.now }
{
    b.has(x) && b.has(y)
}

/// The number of runs of `k` points that reach each of `v`.
pub fn runs_count(c: Cell) -> u64
    requires { 1 ≤ c.k }
    ensures { result ≡ ceil_div c.v c.k }
{
    let k = u64::from(c.k);
    (u64::from(c.v) + (k - 1)) / k
}
