ghost use Rattle.std.specs.Prelude.{◌≡◌, ◌≤◌, length};
ghost use Rattle.lj_base.specs.Blocks.{Ascends};

use lj_base::Block;

/// The block of the points, which ascend.
pub fn block(points: &[u8]) -> Block
    requires ascends { Ascends 0 99 points.now }
    requires short { length points.now ≤ 25 }
    ensures { result ≡ points.now }
{
    let mut block = Block::empty();
    for point in points {
        block.push(*point);
    }
    block
}

/// The block of the points below 99 of a list in any order. Once it has 25 points, the others are left out.
pub fn block_of(points: &[u8]) -> Block {
    let mut block = Block::empty();
    for p in points {
        if *p < 99 && block.len() < 25 {
            block.insert(*p);
        }
    }
    block
}
