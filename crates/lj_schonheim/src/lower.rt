ghost use Rattle.std.specs.Prelude.{◌≡◌, ◌≤◌, ℕ, List, length};
ghost use Rattle.lj_base.specs.Blocks.{Covers};
ghost use Rattle.lj_base.specs.Colex.{choose};
ghost use Rattle.lj_cover.specs.Derivations.{Derivable};
ghost use Rattle.lj_cover.specs.Lower.{schonheim};

use lj_base::Cell;
use lj_cover::laws::schonheim_bounds;

/// Schönheim's number of the cell, `L(v,k,t) = ⌈v L(v-1,k-1,t-1) / k⌉` over `L(v,k,0) = 1`. It takes `t` divisions.
pub fn schonheim(c: Cell) -> u64
    ensures value { result ≡ schonheim c.v c.k c.t }

    // It is a lower bound for coverings and for costs.
    ensures covering { (bs : List (List ℕ)) → Covers bs c → result ≤ length bs }
    ensures derivable { (n : ℕ) → Derivable c n → result ≤ n }

    // One block for each set would do.
    ensures within { result ≤ choose c.v c.t }
{
    schonheim_bounds();
    let (v, k, t) = (c.v as u64, c.k as u64, c.t as u64);
    let mut blocks = 1;
    for removed in (0..t).rev() {
        // Pairs of a block and a point of it, counted by the points: each is in at least `blocks` blocks.
        let pairs = (v - removed) * blocks;
        blocks = pairs.div_ceil(k - removed);
    }
    blocks
}

#[cfg(test)]
mod tests {
    use super::*;
    use std::test::Fail;

    // By hand from the recurrence: (32,6,3) is ⌈32/6 ⌈31/5 ⌈30/4⌉⌉⌉ = ⌈32/6 ⌈31/5 · 8⌉⌉ = ⌈32/6 · 50⌉ = 267.
    #[test]
    fn numbers_worked_by_hand(rt: HostRuntime) -> Result<(), Fail> {
        let rows = [
            (7, 3, 2, 7),
            (6, 3, 2, 6),
            (5, 3, 2, 4),
            (4, 3, 2, 3),
            (7, 3, 1, 3),
            (32, 6, 3, 267),
            (9, 4, 0, 1),
            (5, 5, 3, 1),
            (1, 0, 0, 1),
        ];
        for (v, k, t, least) in rows {
            assert_eq!(rt; schonheim(Cell::new(v, k, t)?), least, "{v} {k} {t}");
        }
        Ok(())
    }
}
