ghost use Rattle.std.specs.Prelude.{◌≡◌, ◌≤◌, IfOk, length};
ghost use Rattle.lj_samples.specs.Samples.{ann};

use lj_base::{MAX_BLOCKS, Memory};
use lj_cover::Design;
use lj_upload::{Accepted, Name};
use std::alloc::Global;

/// The upload of this ordinal by the client `ann`.
pub fn upload(alloc: Global, ordinal: u64, design: Design) -> Result<Accepted, Memory>
    requires { length design.blocks ≤ MAX_BLOCKS }
    ensures { IfOk result (λ up. up ≡ record {
      client = ann;
      ordinal = ordinal;
      cell = design.cell;
      blocks = design.blocks;
    }) }
{
    match Name::of(b"ann") {
        Some(client) => Accepted::new(alloc, client, ordinal, design),
        None => unreachable!(),
    }
}
