ghost use Rattle.std.specs.Prelude.{◌≡◌, ℕ, suc, ◌^◌, ◌<◌, ◌≤◌, [], ◌∷◌, ◌++◌, OnOk};
ghost use Rattle.std.specs.Int.{IsPowerOfTwo};
ghost use Rattle.lj_blockfile.specs.BlockFiles.{blocks_text};
ghost use Rattle.lj_gen.specs.Quadruples.{completions};

use lj_base::{Block, Memory};
use lj_blockfile::write_block;

// Appends the lines of the quadruples below `v` with xor 0. The fourth point follows from the other three.
pub(crate) fn put_quadruples(v: u8, out: &mut Vec<u8>) -> Result<(), Memory>
    requires power { IsPowerOfTwo v }
    requires small { v ≤ 64 }
    ensures { OnOk result (out.new.items ≡ out.old.items ++ blocks_text (completions [] 0 v 4)) }
{
    for a in 0..v {
        put_from_one(v, a, out)?;
    }
    Ok(())
}

// Appends the lines of those that begin with this point.
fn put_from_one(v: u8, a: u8, out: &mut Vec<u8>) -> Result<(), Memory>
    requires power { IsPowerOfTwo v }
    requires small { v ≤ 64 }
    requires inside { a < v }
    ensures { OnOk result (out.new.items ≡ out.old.items ++ blocks_text (completions (a ∷ []) (suc a) v 3)) }
{
    for b in a + 1..v {
        put_from_two(v, a, b, out)?;
    }
    Ok(())
}

// Appends the lines of those that begin with these two points.
fn put_from_two(v: u8, a: u8, b: u8, out: &mut Vec<u8>) -> Result<(), Memory>
    requires power { IsPowerOfTwo v }
    requires small { v ≤ 64 }
    requires ascends { a < b }
    requires inside { b < v }
    ensures { OnOk result (out.new.items ≡ out.old.items ++ blocks_text (completions (a ∷ b ∷ []) (suc b) v 2)) }
{
    for c in b + 1..v {
        put_from_three(a, b, c, out)?;
    }
    Ok(())
}

// Appends the line of the one that begins with these three points, if any.
fn put_from_three(a: u8, b: u8, c: u8, out: &mut Vec<u8>) -> Result<(), Memory>
    requires first { a < b }
    requires second { b < c }
    requires small { c < 64 }
    ensures { OnOk result ((m : ℕ) → c < 2 ^ m
        → out.new.items ≡ out.old.items ++ blocks_text (completions (a ∷ b ∷ c ∷ []) (suc c) (2 ^ m) 1)) }
{
    let d = a ^ b ^ c;
    if d > c {
        write_block(&block_of(a, b, c, d), out)?;
    }
    Ok(())
}

// The block of four points.
fn block_of(a: u8, b: u8, c: u8, d: u8) -> Block
    requires first { a < b }
    requires second { b < c }
    requires third { c < d }
    requires small { d < 99 }
    ensures { result ≡ a ∷ b ∷ c ∷ d ∷ [] }
{
    let mut block = Block::empty();
    block.push(a);
    block.push(b);
    block.push(c);
    block.push(d);
    block
}
