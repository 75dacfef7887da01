ghost use Rattle.std.specs.Prelude.{◌≤◌};
ghost use Rattle.lj_gen.specs.Generated.{gen_text};
ghost use Rattle.lj_cli.specs.Ends.{EndsWithText, output_of};

use crate::prints::print;
use crate::status::{DONE, NO_MEMORY};
use lj_base::{Memory, Sink};
use lj_gen::{MAX_DIMENSION, MIN_DIMENSION, gen_script};
use std::alloc::Global;

/// Prints the generated script of `2 ^ m` points to `out`. Returns the status.
pub fn gen_run<K: Sink>(alloc: Global, m: u64, out: &mut K) -> u8
    requires low { MIN_DIMENSION ≤ m }
    requires high { m ≤ MAX_DIMENSION }
    ensures { EndsWithText (gen_text m) (output_of K.written K.faults out.old out.new) result }
{
    match gen_script(alloc, m) {
        Ok(text) => print(out, &text, DONE),
        Err(Memory) => NO_MEMORY,
    }
}
