ghost use Rattle.std.specs.Prelude.{◌≡◌, ◌∷◌, ◌++◌, OnErr, OnOk};
ghost use Rattle.lj_text.specs.Fields.{Extends};
ghost use Rattle.lj_blockfile.specs.FaultTexts.{body_fault_text, line_fault_text};

use crate::faults::{BodyFault, LineFault};
use lj_base::Memory;
use lj_text::{cut_back, put, put_named};

/// Appends the words for what is wrong with a line: `column C not a number`, `point X out of range`,
/// `point X repeated`, `too few points X` or `too many points X`.
pub fn put_line_fault(out: &mut Vec<u8>, fault: &LineFault) -> Result<(), Memory>
    ensures ok { OnOk result (out.new.items ≡ out.old.items ++ line_fault_text fault.now) }
    ensures err { OnErr result (out.new.items ≡ out.old.items) }
{
    let start = out.len();
    let result = append_line_fault(out, fault);
    cut_back(out, start, result)
}

/// Appends the words for what is wrong with a text: `blocks N`, or `line N` and those for the line. That memory ran out
/// has no words.
pub fn put_body_fault(out: &mut Vec<u8>, fault: &BodyFault) -> Result<(), Memory>
    ensures ok { OnOk result (out.new.items ≡ out.old.items ++ body_fault_text fault.now) }
    ensures err { OnErr result (out.new.items ≡ out.old.items) }
{
    let start = out.len();
    let result = append_body_fault(out, fault);
    cut_back(out, start, result)
}

// Appends the words; where memory ran out a part of them may have been appended.
fn append_line_fault(out: &mut Vec<u8>, fault: &LineFault) -> Result<(), Memory>
    ensures ok { OnOk result (out.new.items ≡ out.old.items ++ line_fault_text fault.now) }
    ensures err { OnErr result (Extends out.old.items out.new.items) }
{
    match fault {
        LineFault::NotNumber { column } => {
            put_named(out, b"column", &[*column])?;
            put(out, b" not a number")
        }
        LineFault::PointRange { value } => {
            put_named(out, b"point", &[*value])?;
            put(out, b" out of range")
        }
        LineFault::Repeat { point } => {
            put_named(out, b"point", &[*point])?;
            put(out, b" repeated")
        }
        LineFault::Short { count } => put_named(out, b"too few points", &[*count]),
        LineFault::Long { count } => put_named(out, b"too many points", &[*count]),
    }
}

// Appends the words; where memory ran out a part of them may have been appended.
fn append_body_fault(out: &mut Vec<u8>, fault: &BodyFault) -> Result<(), Memory>
    ensures ok { OnOk result (out.new.items ≡ out.old.items ++ body_fault_text fault.now) }
    ensures err { OnErr result (Extends out.old.items out.new.items) }
{
    match fault {
        BodyFault::Blocks { n } => put_named(out, b"blocks", &[*n]),
        BodyFault::Line { number, fault } => {
            put_named(out, b"line", &[*number])?;
            put(out, b" ")?;
            put_line_fault(out, fault)
        }
        BodyFault::Memory => Ok(()),
    }
}

#[cfg(test)]
mod tests {
    use super::*;
    use std::test::Fail;

    #[test]
    fn faults_have_words(rt: HostRuntime) -> Result<(), Fail> {
        let rows = [
            (
                LineFault::NotNumber { column: 3 },
                b"column 3 not a number".as_slice(),
            ),
            (
                LineFault::PointRange { value: 6 },
                b"point 6 out of range".as_slice(),
            ),
            (
                LineFault::Repeat { point: 2 },
                b"point 2 repeated".as_slice(),
            ),
            (
                LineFault::Short { count: 0 },
                b"too few points 0".as_slice(),
            ),
            (
                LineFault::Long { count: 5 },
                b"too many points 5".as_slice(),
            ),
        ];
        for (fault, words) in rows {
            let mut out = Vec::new(rt.alloc());
            put_line_fault(&mut out, &fault)?;
            assert!(rt; out.as_slice() == words);
        }
        let mut out = Vec::new(rt.alloc());
        put_body_fault(&mut out, &BodyFault::Blocks { n: 100_001 })?;
        put(&mut out, b"\n")?;
        let fault = LineFault::Repeat { point: 2 };
        put_body_fault(&mut out, &BodyFault::Line { number: 7, fault })?;
        assert!(rt; out.as_slice() == b"blocks 100001\nline 7 point 2 repeated".as_slice());
        Ok(())
    }
}
