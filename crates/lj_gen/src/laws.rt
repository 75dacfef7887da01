ghost use Rattle.std.specs.Prelude.{◌≡◌, ◌↔◌, ℕ, List, ◌-◌, ◌*◌, ◌^◌, ◌≤◌, length};
ghost use Rattle.std.specs.List.{AllPairs, Contains};
ghost use Rattle.lj_base.specs.Blocks.{Covers, IsBlock};
ghost use Rattle.lj_blockfile.specs.BlockFiles.{AreBlocksOf, blocks_text};
ghost use Rattle.lj_script.specs.Scripts.{IsScript};
ghost use Rattle.lj_gen.specs.Generated.{gen_text, gen_value, upload_cell};
ghost use Rattle.lj_gen.specs.Quadruples.{IsLexicographicallyBefore, gen_blocks, xor_of};

use crate::limits::{MAX_DIMENSION, MIN_DIMENSION};
use lj_blockfile::written_law;
use lj_text::{decimal_law, lines_law, tokens_law, words_law};

/// The generated blocks are all quadruples of points with xor 0, each once, in lexicographic order. With `V = 2 ^ m`
/// they are `V (V-1) (V-2) / 24` many, and each three points are in one of them: a Steiner quadruple system.
pub fn quadruples_law()
    ensures members { (m : ℕ) (b : List ℕ) → Contains (gen_blocks m) b ↔ (IsBlock (2 ^ m) 4 b × (xor_of b ≡ 0)) }
    ensures order { (m : ℕ) → AllPairs IsLexicographicallyBefore (gen_blocks m) }
    ensures number { (m : ℕ) → 24 * length (gen_blocks m) ≡ 2 ^ m * (2 ^ m - 1) * (2 ^ m - 2) }
    ensures covers { (m : ℕ) → Covers (gen_blocks m) (upload_cell (2 ^ m)) }
{}

// The generated text is a script, and its body holds the quadruples.
pub(crate) fn generated_law()
    ensures script { (m : ℕ) → MIN_DIMENSION ≤ m → m ≤ MAX_DIMENSION → IsScript (gen_text m) (gen_value m) }
    ensures blocks { (m : ℕ) → MIN_DIMENSION ≤ m → m ≤ MAX_DIMENSION →
        AreBlocksOf (blocks_text (gen_blocks m)) (2 ^ m) 4 (gen_blocks m) }
{
    decimal_law();
    tokens_law();
    words_law();
    lines_law();
    written_law();
}
