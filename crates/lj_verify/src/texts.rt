ghost use Rattle.std.specs.Prelude.{◌≡◌, ◌++◌, codes, OnErr, OnOk};
ghost use Rattle.lj_text.specs.Fields.{Extends, points_text};
ghost use Rattle.lj_verify.specs.Texts.{refusal_text};

use crate::refusals::Refusal;
use lj_base::Memory;
use lj_rank::TSet;
use lj_text::{cut_back, put, put_named, put_number_field};

/// Appends the words for a refusal: `blocks N`, `tsets N`, `marks N`, or `uncovered` and the points. That memory ran
/// out has no words.
pub fn put_refusal(out: &mut Vec<u8>, refusal: &Refusal) -> Result<(), Memory>
    ensures ok { OnOk result (out.new.items ≡ out.old.items ++ refusal_text refusal.now) }
    ensures err { OnErr result (out.new.items ≡ out.old.items) }
{
    match refusal {
        Refusal::Blocks { n } => put_named(out, b"blocks", &[*n]),
        Refusal::TSets { n } => put_named(out, b"tsets", &[*n]),
        Refusal::Marks { n } => put_named(out, b"marks", &[*n]),
        Refusal::Uncovered { set } => put_uncovered(out, set),
        Refusal::Memory => Ok(()),
    }
}

/// Appends each of the points, which are printed from 1, after a space.
pub fn put_points(out: &mut Vec<u8>, set: &TSet) -> Result<(), Memory>
    ensures ok { OnOk result (out.new.items ≡ out.old.items ++ points_text set.now) }
    ensures err { OnErr result (out.new.items ≡ out.old.items) }
{
    let start = out.len();
    let result = append_points(out, set);
    cut_back(out, start, result)
}

fn put_uncovered(out: &mut Vec<u8>, set: &TSet) -> Result<(), Memory>
    ensures ok { OnOk result (out.new.items ≡ out.old.items ++ (codes "uncovered" ++ points_text set.now)) }
    ensures err { OnErr result (out.new.items ≡ out.old.items) }
{
    let start = out.len();
    let result = append_uncovered(out, set);
    cut_back(out, start, result)
}

// Appends a word and the points; where memory ran out the word may have been appended.
fn append_uncovered(out: &mut Vec<u8>, set: &TSet) -> Result<(), Memory>
    ensures ok { OnOk result (out.new.items ≡ out.old.items ++ (codes "uncovered" ++ points_text set.now)) }
    ensures err { OnErr result (Extends out.old.items out.new.items) }
{
    put(out, b"uncovered")?;
    put_points(out, set)
}

// Appends the points; where memory ran out some of them may have been appended.
fn append_points(out: &mut Vec<u8>, set: &TSet) -> Result<(), Memory>
    ensures ok { OnOk result (out.new.items ≡ out.old.items ++ points_text set.now) }
    ensures err { OnErr result (Extends out.old.items out.new.items) }
{
    for i in 0..set.len() {
        put_number_field(out, set.at(i) as u64 + 1)?;
    }
    Ok(())
}

#[cfg(test)]
mod tests {
    use super::*;
    use std::test::Fail;

    // With ample memory each refusal has its words.
    #[test]
    fn refusals_have_their_words(rt: HostRuntime) -> Result<(), Fail> {
        let mut set = TSet::empty();
        set.push(2);
        set.push(98);
        let rows: [(Refusal, &[u8]); 4] = [
            (Refusal::Blocks { n: 100_001 }, b"blocks 100001"),
            (Refusal::TSets { n: 171_200_862_756 }, b"tsets 171200862756"),
            (Refusal::Marks { n: 2_147_514_600 }, b"marks 2147514600"),
            (Refusal::Uncovered { set }, b"uncovered 3 99"),
        ];
        for (refusal, text) in rows {
            let mut out = Vec::new(rt.alloc());
            put_refusal(&mut out, &refusal)?;
            assert!(rt; out.as_slice() == text);
        }
        let mut out = Vec::new(rt.alloc());
        put_points(&mut out, &set)?;
        assert!(rt; out.as_slice() == b" 3 99".as_slice());
        Ok(())
    }
}
