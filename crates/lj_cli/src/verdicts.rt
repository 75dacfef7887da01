ghost use Rattle.std.specs.Prelude.{◌≡◌, ◌++◌, IfOk, OnOk};
ghost use Rattle.lj_cli.specs.Verdicts.{verdict_line, verdict_status, verdict_text};

use crate::status::{DONE, FAULTY, UNCOVERED};
use lj_base::Memory;
use lj_blockfile::{BodyFault, put_body_fault};
use lj_text::{put, put_named};
use lj_verify::{Refusal, put_refusal};
use std::alloc::Global;

/// What holds of an input that is checked.
#[derive(Clone, Copy, Debug, PartialEq, Eq)]
pub enum Verdict {
    /// The input has a fault.
    Fault { fault: BodyFault },
    /// Its blocks are too many, or some set is not covered.
    Refused { refusal: Refusal },
    /// Its blocks cover, and there are this many.
    Covered { blocks: u64 },
}

impl Verdict {
    /// Whether the blocks cover, or leave a set uncovered, or the input has a fault.
    pub fn status(&self) -> u8
        ensures { result ≡ verdict_status self.now }
    {
        match self {
            Verdict::Covered { .. } => DONE,
            Verdict::Refused {
                refusal: Refusal::Uncovered { .. },
            } => UNCOVERED,
            _ => FAULTY,
        }
    }

    /// Its line.
    pub fn text(&self, alloc: Global) -> Result<Vec<u8>, Memory>
        ensures { IfOk result (λ text. text.items ≡ verdict_text self.now) }
    {
        let mut text = Vec::new(alloc);
        match self {
            Verdict::Fault { fault } => {
                put(&mut text, b"fault ")?;
                put_body_fault(&mut text, fault)?;
            }
            Verdict::Refused { refusal } => put_refused(&mut text, refusal)?,
            Verdict::Covered { blocks } => put_named(&mut text, b"covers", &[*blocks])?,
        }
        put(&mut text, b"\n")?;
        Ok(text)
    }
}

// The words for a refusal, with `fault ` before those of a limit.
fn put_refused(out: &mut Vec<u8>, refusal: &Refusal) -> Result<(), Memory>
    ensures { OnOk result (out.new.items ≡ out.old.items ++ verdict_line (Verdict.Refused refusal.now)) }
{
    if let Refusal::Uncovered { .. } = refusal {
        return put_refusal(out, refusal);
    }
    put(out, b"fault ")?;
    put_refusal(out, refusal)
}
