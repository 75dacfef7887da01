ghost use Rattle.std.specs.Prelude.{◌≤◌, ◌<◌};

use crate::strings::{SCRATCH, needs};
use lj_base::binom;

/// The size of the sets by whose strings blocks are marked with the least work, as it is estimated; 0 where runs of
/// pairs take less. Any size gives the same marks.
pub(crate) fn best_size(v: u64, k: u64, t: u64) -> u64
    requires few_points { v ≤ 99 }
    requires few { k ≤ 25 }
    requires small { t ≤ 8 }
{
    if t == 0 {
        return 0;
    }
    let mut best = 0;
    let mut least = 4 * binom(k, t - 1);
    for size in 1..t {
        if needs(v, size) <= SCRATCH as u64 {
            let work = string_work(v, k, t, size);
            if work < least {
                best = size;
                least = work;
            }
        }
    }
    best
}

// Steps for one block: to make the string, and then those of its prefixes.
fn string_work(v: u64, k: u64, t: u64, size: u64) -> u64
    requires few_points { v ≤ 99 }
    requires few { k ≤ 25 }
    requires small { t ≤ 8 }
    requires size { size < t }
{
    let mut work = needs(v, size) + 8 * k * size;
    for i in size..k {
        let point = ((i + 1) * v / (k + 1)).min(v);
        let choices = binom(k - 1 - i, t - size - 1);
        work = work.saturating_add(choices.saturating_mul(8 + binom(point, size) / 64));
    }
    work
}
