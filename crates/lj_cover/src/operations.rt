ghost use Rattle.std.specs.Prelude.{◌≡◌, ◌+◌, ◌-◌, ◌<◌, ◌≤◌, ◌⊎◌, ◌↔◌, IsTrue, length, slice_index};
ghost use Rattle.lj_base.specs.Blocks.{AllBelow};
ghost use Rattle.lj_cover.specs.Operations.{fill, drop_last, add_point, unite, cut, place, without};

use lj_base::Block;

/// Adds the least points below `v` that the block lacks, until it has `k`.
pub fn fill(b: Block, v: u64, k: u64) -> Block
    requires below { AllBelow v b }
    requires larger { length b ≤ k }
    requires room { k ≤ v }
    requires short { k ≤ 25 }
    ensures { result ≡ fill k b }
{
    let mut filled = Block::empty();
    let mut taken = 0;
    let mut missing = k - b.len();
    let mut point = 0;
    for _placed in 0..k {
        if is_next(&b, taken, missing, point) {
            point = b.at(taken);
            taken += 1;
        } else {
            missing -= 1;
        }
        filled.push(point);
        point += 1;
    }
    filled
}

// Whether the block's own point at this place comes before what is missing from `point` on.
fn is_next(b: &Block, place: u64, missing: u64, point: u8) -> bool
    ensures { IsTrue result ↔ ((place < length b.now) × ((missing ≡ 0) ⊎ (slice_index b.now place ≡ point))) }
{
    place < b.len() && (missing == 0 || b.at(place) == point)
}

/// Brings a block below `v`: point `v` is removed where it is there, and the block is filled to its old size.
pub fn drop_last(b: Block, v: u64) -> Block
    requires below { AllBelow (v + 1) b }
    requires room { length b ≤ v }
    ensures { result ≡ drop_last v b }
{
    fill(cut_first(b, v), v, b.len())
}

/// Adds a point after those of the block.
pub fn add_point(b: Block, p: u8) -> Block
    requires in_range { p < 99 }
    requires greatest { AllBelow p b }
    requires room { length b < 25 }
    ensures { result ≡ add_point p b }
{
    let mut longer = b;
    longer.push(p);
    longer
}

/// The block `a`, which lies below `v1`, and after it the block `b` shifted up by `v1`.
pub fn unite(a: Block, b: Block, v1: u64) -> Block
    requires first { AllBelow v1 a }
    requires second { AllBelow (99 - v1) b }
    requires short { length a + length b ≤ 25 }
    ensures { result ≡ unite v1 a b }
{
    let mut united = a;
    for i in 0..b.len() {
        united.push(v1 as u8 + b.at(i));
    }
    united
}

/// The points of the block below `w`.
pub fn cut_first(b: Block, w: u64) -> Block
    ensures { result ≡ cut w b }
{
    let mut kept = Block::empty();
    for i in 0..b.len() {
        let point = b.at(i);
        if u64::from(point) < w {
            kept.push(point);
        }
    }
    kept
}

/// For each point `i` of the block the `i`-th of the given points.
pub fn relabel(b: Block, points: &Block) -> Block
    requires { AllBelow (length points.now) b }
    ensures { result ≡ place points.now b }
{
    let count = points.len();
    let mut placed = Block::empty();
    for i in 0..b.len() {
        let place = u64::from(b.at(i));
        prove!(place < count);
        placed.push(points.at(place));
    }
    placed
}

/// Removes point `x` and lowers each greater point by 1.
pub fn without(b: Block, x: u8) -> Block
    ensures { result ≡ without x b }
{
    let mut rest = Block::empty();
    for i in 0..b.len() {
        let point = b.at(i);
        if point < x {
            rest.push(point);
        } else if point > x {
            rest.push(point - 1);
        }
    }
    rest
}
