ghost use Rattle.std.specs.Prelude.{◌≤◌, IfOk};
ghost use Rattle.lj_cli.specs.CountOutput.{IsGreedyOutput};
ghost use Rattle.lj_cli.specs.Ends.{EndsWithOutput, output_of};

use crate::prints::{Made, print_made, put_line};
use crate::status::{DONE, FAULTY};
use lj_base::{Cell, Memory, Sink};
use lj_blockfile::write_file;
use lj_greedy::{GreedyFail, greedy};
use std::alloc::Global;

/// Prints to `out` the greedy covering of the cell as a file with a header, or that it has too many sets. Returns the
/// status.
pub fn greedy_run<K: Sink>(alloc: Global, cell: Cell, out: &mut K) -> u8
    requires { 1 ≤ cell.k }
    ensures { EndsWithOutput (IsGreedyOutput cell) (output_of K.written K.faults out.old out.new) result }
{
    print_made(out, greedy_output(alloc, cell))
}

// The file of the greedy covering, or why there is none.
fn greedy_output(alloc: Global, cell: Cell) -> Result<Made, Memory>
    requires { 1 ≤ cell.k }
    ensures { IfOk result (λ made. IsGreedyOutput cell made.text.items made.status) }
{
    let mut text = Vec::new(alloc);
    match greedy(alloc, cell) {
        Ok(design) => {
            write_file(design.cell(), design.blocks(), &mut text)?;
            Ok(Made { text, status: DONE })
        }
        Err(GreedyFail::TSets { n }) => {
            put_line(&mut text, b"fault tsets", n)?;
            Ok(Made {
                text,
                status: FAULTY,
            })
        }
        Err(GreedyFail::Memory) => Err(Memory),
    }
}
