ghost use Rattle.std.specs.Prelude.{◌≤◌, length};
ghost use Rattle.std.specs.List.{AllByRecursion};
ghost use Rattle.lj_base.specs.Bounds.{at_cell};
ghost use Rattle.lj_base.specs.Cells.{IsCell, Triple};
ghost use Rattle.lj_base.specs.Frames.{InFrame};
ghost use Rattle.lj_cover.specs.Derivations.{IsLeast};
ghost use Rattle.lj_upload.specs.Uploads.{IsAccepted};
ghost use Rattle.lj_verify.specs.Limits.{IsWithinLimits};
ghost use Rattle.lj_cert.specs.Certificates.{IsCert};
ghost use Rattle.lj_cert.specs.Good.{IsGood};
ghost use Rattle.lj_cert.specs.Texts.{AreHeldIn, IsForestFor, IsWritable, cert_of, cert_text};

use lj_base::{Frame, cells_law, index_law};
use lj_blockfile::block_line_law;
use lj_cover::laws::{bases_have_no_children, prices_are_derivable};
use lj_deriv::Forest;
use lj_deriv::laws::trees_law;
use lj_text::{decimal_law, lines_law, tokens_law, words_law};
use lj_upload::Accepted;

/// The forest of nodes of an arena can be written, where there is one for each cell of the frame, which is of that cell
/// and costs its bound.
pub fn forests_are_writable(frame: Frame, uploads: &[Accepted], forest: &Forest, bounds: &[u64])
    requires held { AreHeldIn frame uploads.now }
    requires forest { IsForestFor frame uploads.now forest.now bounds.now }
    ensures { IsWritable frame uploads.now forest.now bounds.now }
{
    index_law();
    let _ = forest.len();
}

/// A certificate that is written reads back: its text spells the frame, the uploads, the forest's nodes and the bounds.
/// It takes a step for each upload.
pub fn written_law(frame: Frame, uploads: &[Accepted], forest: &Forest, bounds: &[u64])
    requires { IsWritable frame uploads.now forest.now bounds.now }
    ensures { IsCert (cert_text frame uploads.now forest.now bounds.now)
        (cert_of frame uploads.now forest.now bounds.now) }
{
    block_line_law();
    cells_law();
    decimal_law();
    index_law();
    lines_law();
    tokens_law();
    words_law();
    top_law(frame);
    accepted_law(uploads);
    let _ = forest.len();
}

/// A certificate that is written is good, where its uploads are within the limits of a check and each bound is the
/// least cost of any derivation in the frame from the uploads. It takes a step for each upload.
pub fn written_certificates_are_good(
    frame: Frame,
    uploads: &[Accepted],
    forest: &Forest,
    bounds: &[u64],
)
    requires writable { IsWritable frame uploads.now forest.now bounds.now }
    requires within { AllByRecursion (λ u. IsWithinLimits u.cell (length u.blocks)) uploads.now }
    requires least { (c : Triple) → InFrame frame c → IsLeast frame uploads.now c (at_cell frame bounds.now c) }
    ensures { IsGood (cert_of frame uploads.now forest.now bounds.now) }
{
    bases_have_no_children();
    cells_law();
    index_law();
    prices_are_derivable();
    trees_law();
    top_law(frame);
    accepted_law(uploads);
    let _ = forest.len();
}

// The greatest numbers of a frame are those of a cell whose blocks have points.
fn top_law(frame: Frame)
    ensures cell { IsCell frame.top }
    ensures some { 1 ≤ frame.top.k }
{
    let _ = frame.top.k;
}

// The type of each upload says that it is accepted.
fn accepted_law(uploads: &[Accepted])
    ensures { AllByRecursion IsAccepted uploads.now }
{
    for up in uploads {
        let _ = up.design();
    }
}
