ghost use Rattle.std.specs.Prelude.{◌≡◌, ℕ, ◌<◌, ◌≤◌, ◌^◌, List, Option, length, take, IfOk, OnErr, OnOk};
ghost use Rattle.lj_base.specs.Streams.{Appends, Consumes, IsAtEnd, Keeps, Rose};

use thiserror::Error;

/// A source or a sink failed.
#[derive(Clone, Copy, Debug, PartialEq, Eq, Error)]
#[error("reading or writing failed")]
pub struct Failed;

/// Where bytes come from.
pub trait Source {
    /// The bytes that are left, where the source reports them.
    ghost left: { Self → Option (List ℕ) };

    /// How many of its calls failed.
    ghost faults: { Self → ℕ };

    /// Puts the next bytes at the front of `buf` and returns their number: 0, for a buffer that is not empty, at the
    /// end. After an error no byte is lost: the next read goes on where this one began.
    fn read(&mut self, buf: &mut [u8]) -> Result<usize, Failed>
        ensures count { IfOk result (λ n. n ≤ length buf.new) }
        ensures bytes { IfOk result (λ n. Consumes (left self.old) (left self.new) (take n buf.new)) }
        ensures end { result ≡ Ok 0 → 0 < length buf.new → IsAtEnd (left self.new) }
        ensures nothing { OnErr result (Keeps (left self.old) (left self.new)) }
        ensures quiet { OnOk result (faults self.new ≡ faults self.old) }
        ensures failed { OnErr result (Rose (faults self.old) (faults self.new)) }
        ensures never_falls { faults self.old ≤ faults self.new };

    /// How many of its calls failed. The count stays at the greatest u64 once it is there.
    fn faults(&self) -> u64
        ensures { result ≡ faults self.now };
}

/// Where bytes go.
pub trait Sink {
    /// The bytes that were written, where the sink reports them.
    ghost written: { Self → Option (List ℕ) };

    /// How many of its calls failed.
    ghost faults: { Self → ℕ };

    /// Takes some of the bytes, from the front, and returns their number: 0 only where there are none.
    fn write(&mut self, bytes: &[u8]) -> Result<usize, Failed>
        ensures count { IfOk result (λ n. n ≤ length bytes.now) }
        ensures some { IfOk result (λ n. 0 < length bytes.now → 1 ≤ n) }
        ensures none { length bytes.now ≡ 0 → result ≡ Ok 0 }
        ensures bytes { IfOk result (λ n. Appends (written self.old) (written self.new) (take n bytes.now)) }
        ensures nothing { OnErr result (Keeps (written self.old) (written self.new)) }
        ensures quiet { OnOk result (faults self.new ≡ faults self.old) }
        ensures failed { OnErr result (Rose (faults self.old) (faults self.new)) }
        ensures never_falls { faults self.old ≤ faults self.new };

    /// How many of its calls failed. The count stays at the greatest u64 once it is there.
    fn faults(&self) -> u64
        ensures { result ≡ faults self.now };
}
