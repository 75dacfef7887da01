ghost use Rattle.std.specs.Prelude.{◌≡◌, ℕ, ◌<◌, length, take, IfErr, OnErr, OnOk};
ghost use Rattle.lj_base.specs.Streams.{Appends, Rose};

use lj_base::{Failed, Sink};
use thiserror::Error;

/// A sink failed; its count of faults since.
#[derive(Clone, Copy, Debug, PartialEq, Eq, Error)]
#[error("writing failed, {count} faults so far")]
pub struct WriteFault {
    pub count: u64,
}

/// Writes all bytes, in as many pieces as the sink takes.
pub fn write_all<K: Sink>(sink: &mut K, bytes: &[u8]) -> Result<(), WriteFault>
    ensures written { OnOk result (Appends (K.written sink.old) (K.written sink.new) bytes.now) }
    ensures quiet { OnOk result (K.faults sink.new ≡ K.faults sink.old) }
    ensures fault { IfErr result (λ f. Rose (K.faults sink.old) (K.faults sink.new) × (f.count ≡ K.faults sink.new)) }

    // The first bytes were written, and not all.
    ensures front { OnErr result ((n : ℕ) × (n < length bytes.now)
        × Appends (K.written sink.old) (K.written sink.new) (take n bytes.now)) }
{
    let mut done = 0;
    while done < bytes.len() {
        match sink.write(&bytes[done..]) {
            Ok(count) => done += count,
            Err(Failed) => {
                return Err(WriteFault {
                    count: sink.faults(),
                });
            }
        }
    }
    Ok(())
}
