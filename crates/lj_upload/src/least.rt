ghost use Rattle.std.specs.Prelude.{◌≡◌, ◌+◌, ◌<◌, ◌≤◌, MatchOption, length, slice_index};
ghost use Rattle.lj_upload.specs.Degrees.{IsFirstLeast, IsFirstLeastPair};
ghost use Rattle.lj_upload.specs.Tables.{entry};

/// The first point at which the table's entry with itself is least, and that entry.
pub(crate) fn least_point(table: &[[u32; 99]]) -> (u8, u64)
    requires some { 1 ≤ length table.now }
    requires few { length table.now ≤ 99 }
    ensures { IsFirstLeast 0 (length table.now) (λ x. entry table.now x x) result.0 result.1 }
{
    let v = table.len() as u8;
    let mut point = 0;
    let mut least = table[0][0];
    for x in 1..v {
        let degree = table[x as usize][x as usize];
        if degree < least {
            point = x;
            least = degree;
        }
    }
    (point, u64::from(least))
}

/// The first two points, the lesser first, at which the table's entry is least, and that entry. None where there is one
/// point.
pub(crate) fn least_pair(table: &[[u32; 99]]) -> Option<(u8, u8, u64)>
    requires some { 1 ≤ length table.now }
    requires few { length table.now ≤ 99 }
    ensures { MatchOption result (length table.now ≡ 1) (λ pair. IsFirstLeastPair (length table.now) (length table.now)
        (λ x y. entry table.now x y) pair.0 pair.1 pair.2) }
{
    let v = table.len() as u8;
    if v == 1 {
        return None;
    }
    let (second, degree) = least_above(&table[0], 0, v);
    let mut pair = (0, second, degree);
    for x in 1..v - 1 {
        let (second, degree) = least_above(&table[x as usize], x, v);
        if degree < pair.2 {
            pair = (x, second, degree);
        }
    }
    Some(pair)
}

// The first point above `x` and below `v` at which the row is least, and its entry there.
fn least_above(row: &[u32; 99], x: u8, v: u8) -> (u8, u64)
    requires some { x + 1 < v }
    requires few { v ≤ 99 }
    ensures { IsFirstLeast (x + 1) v (λ y. slice_index row.now y) result.0 result.1 }
{
    let mut second = x + 1;
    let mut least = row[second as usize];
    for y in x + 2..v {
        let together = row[y as usize];
        if together < least {
            second = y;
            least = together;
        }
    }
    (second, u64::from(least))
}
