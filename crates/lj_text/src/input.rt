ghost use Rattle.std.specs.Prelude.{◌≡◌, ◌≤◌, length, IfErr, IfOk, IfSome, OnOk};
ghost use Rattle.lj_base.specs.Streams.{IsAtEnd};
ghost use Rattle.lj_text.specs.Inputs.{HasCause, HasRead};

use lj_base::{Failed, Source};
use std::alloc::Global;
use thiserror::Error;

/// Why a source was not read to its end.
#[derive(Clone, Copy, Debug, PartialEq, Eq, Error)]
pub enum ReadFail {
    /// The source failed; its count of faults since.
    #[error("reading failed, {count} faults so far")]
    ReadFault { count: u64 },
    #[error("the input is too large")]
    TooLarge,
    #[error("out of memory")]
    Memory,
}

/// The most bytes that one read takes from a source.
pub const PIECE: usize = 65536;

/// Reads a source to its end, up to `limit` bytes.
pub fn read_all<S: Source>(alloc: Global, source: &mut S, limit: u64) -> Result<Vec<u8>, ReadFail>
    ensures bytes { IfOk result (λ bytes. IfSome (S.left source.old) (λ all. bytes.items ≡ all)) }
    ensures within { IfOk result (λ bytes. length bytes.items ≤ limit) }
    ensures whole { OnOk result (IsAtEnd (S.left source.new)) }
    ensures quiet { OnOk result (S.faults source.new ≡ S.faults source.old) }
    ensures read { IfOk result (λ bytes. HasRead (S.left source.old) (S.left source.new) bytes.items limit) }

    // Where not all was read: how much was, and why.
    ensures cause { IfErr result
        (HasCause limit (S.left source.old) (S.left source.new) (S.faults source.old) (S.faults source.new)) }
{
    let mut bytes = Vec::new(alloc);
    let mut piece = [0; PIECE];
    loop {
        match source.read(&mut piece) {
            Err(Failed) => {
                return Err(ReadFail::ReadFault {
                    count: source.faults(),
                });
            }
            Ok(0) => return Ok(bytes),
            Ok(count) => {
                if count as u64 > limit - bytes.len() as u64 {
                    return Err(ReadFail::TooLarge);
                }
                if bytes.extend_from_slice(&piece[..count]).is_err() {
                    return Err(ReadFail::Memory);
                }
            }
        }
    }
}
