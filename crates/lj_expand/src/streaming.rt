ghost use Rattle.std.specs.Prelude.{◌≡◌, ℕ, ◌<◌, ◌≤◌, IfErr, OnErr, OnOk, length, take};
ghost use Rattle.lj_base.specs.Streams.{Appends, Rose};
ghost use Rattle.lj_blockfile.specs.BlockFiles.{blocks_text};
ghost use Rattle.lj_cover.specs.Derivations.{expand, root_cell};
ghost use Rattle.lj_deriv.specs.Nodes.{plan_tree};
ghost use Rattle.lj_expand.specs.Lines.{AreTexts};

use crate::batches::{fill_batch, no_blocks};
use crate::lines::{LINE, PointTexts, point_texts, write_line};
use lj_base::{Block, Sink};
use lj_deriv::Plan;
use lj_text::{WriteFault, write_all};

/// Writes a line for each block of the plan, in the order of its rules, one by one. It takes no memory.
pub fn stream<K: Sink>(plan: &Plan, sink: &mut K) -> Result<(), WriteFault>
    requires some { 1 ≤ (root_cell (plan_tree plan.now)).k }
    ensures written { OnOk result (Appends (K.written sink.old) (K.written sink.new)
        (blocks_text (expand (plan_tree plan.now)))) }
    ensures quiet { OnOk result (K.faults sink.new ≡ K.faults sink.old) }
    ensures fault { IfErr result (λ f. Rose (K.faults sink.old) (K.faults sink.new)
        × (f.count ≡ K.faults sink.new)) }

    // What went out is a proper front of the lines.
    ensures front { OnErr result ((n : ℕ) × (n < length (blocks_text (expand (plan_tree plan.now))))
        × Appends (K.written sink.old) (K.written sink.new)
        (take n (blocks_text (expand (plan_tree plan.now))))) }
{
    let texts = point_texts();
    let cost = plan.cost();
    let mut batch = no_blocks();
    let mut done = 0;
    while done < cost {
        let count = fill_batch(plan, done, &mut batch);
        stream_lines(sink, &batch[..count], &texts)?;
        done += count as u64;
    }
    Ok(())
}

// Writes a line for each of the blocks, one by one.
fn stream_lines<K: Sink>(
    sink: &mut K,
    blocks: &[Block],
    texts: &PointTexts,
) -> Result<(), WriteFault>
    requires { AreTexts texts.now }
    ensures written { OnOk result (Appends (K.written sink.old) (K.written sink.new) (blocks_text blocks.now)) }
    ensures quiet { OnOk result (K.faults sink.new ≡ K.faults sink.old) }
    ensures fault { IfErr result (λ f. Rose (K.faults sink.old) (K.faults sink.new)
        × (f.count ≡ K.faults sink.new)) }
    ensures front { OnErr result ((n : ℕ) × (n < length (blocks_text blocks.now))
        × Appends (K.written sink.old) (K.written sink.new) (take n (blocks_text blocks.now))) }
{
    let mut line = [0; LINE];
    for block in blocks {
        let end = write_line(block, texts, &mut line, 0);
        write_all(sink, &line[..end])?;
    }
    Ok(())
}
