ghost use Rattle.std.specs.Prelude.{◌≡◌, [], ◌∷◌, ◌++◌, length, map, OnErr, OnOk};
ghost use Rattle.std.specs.List.{flat_map};
ghost use Rattle.lj_base.specs.Frames.{InFrame, cells_of, size_of};
ghost use Rattle.lj_text.specs.Fields.{Extends};
ghost use Rattle.lj_text.specs.Lines.{with_feeds};
ghost use Rattle.lj_cert.specs.Certificates.{IsCert};
ghost use Rattle.lj_cert.specs.Texts.{IsWritable, bound_line, bound_lines, cell_numbers, cert_of, cert_text};
ghost use Rattle.lj_cert.specs.Texts.{frame_line};
ghost use Rattle.lj_cert.specs.Texts.{upload_line, upload_lines};

use crate::written::written_law;
use lj_base::{Cell, Frame, Memory};
use lj_blockfile::put_blocks;
use lj_deriv::Forest;
use lj_text::{fields_law, put, put_joined, put_named, put_number_fields};
use lj_upload::Accepted;

/// Appends a certificate: the frame, the uploads, the forest's nodes, and for each cell of the frame its bound and its
/// root. It reads back as these. Where memory ran out something may have been appended. It takes time for each byte.
pub fn write_cert(
    frame: Frame,
    uploads: &[Accepted],
    forest: &Forest,
    bounds: &[u64],
    out: &mut Vec<u8>,
) -> Result<(), Memory>
    requires { IsWritable frame uploads.now forest.now bounds.now }
    ensures ok { OnOk result (out.new.items ≡ out.old.items ++ cert_text frame uploads.now forest.now bounds.now) }
    ensures err { OnErr result (Extends out.old.items out.new.items) }
    ensures reads_back { IsCert (cert_text frame uploads.now forest.now bounds.now)
        (cert_of frame uploads.now forest.now bounds.now) }
{
    written_law(frame, uploads, forest, bounds);
    put_frame(frame, out)?;
    put_uploads(uploads, out)?;
    put(out, b"nodes\n")?;
    forest.text(out)?;
    put(out, b"bounds\n")?;
    put_bounds(frame, forest, bounds, out)
}

fn numbers(c: Cell) -> [u64; 3]
    ensures { result ≡ cell_numbers c }
{
    [u64::from(c.v), u64::from(c.k), u64::from(c.t)]
}

fn put_frame(frame: Frame, out: &mut Vec<u8>) -> Result<(), Memory>
    ensures ok { OnOk result (out.new.items ≡ out.old.items ++ with_feeds (frame_line frame ∷ [])) }
    ensures err { OnErr result (Extends out.old.items out.new.items) }
{
    fields_law();
    put_named(out, b"cert", &numbers(frame.top))?;
    put(out, b"\n")
}

fn put_uploads(uploads: &[Accepted], out: &mut Vec<u8>) -> Result<(), Memory>
    ensures ok { OnOk result (out.new.items ≡ out.old.items ++ with_feeds (flat_map upload_lines uploads.now)) }
    ensures err { OnErr result (Extends out.old.items out.new.items) }
{
    for up in uploads {
        put_upload(up, out)?;
    }
    Ok(())
}

// The upload's line, its blocks, and `end`.
fn put_upload(up: &Accepted, out: &mut Vec<u8>) -> Result<(), Memory>
    ensures ok { OnOk result (out.new.items ≡ out.old.items ++ with_feeds (upload_lines up.now)) }
    ensures err { OnErr result (Extends out.old.items out.new.items) }
{
    put_upload_line(up, out)?;
    put(out, b"\n")?;
    put_blocks(up.design().blocks(), out)?;
    put(out, b"end\n")
}

fn put_upload_line(up: &Accepted, out: &mut Vec<u8>) -> Result<(), Memory>
    ensures ok { OnOk result (out.new.items ≡ out.old.items ++ upload_line up.now) }
    ensures err { OnErr result (Extends out.old.items out.new.items) }
{
    fields_law();
    let [v, k, t] = numbers(up.design().cell());
    put(out, b"upload ")?;
    put(out, up.client().bytes())?;
    put_number_fields(out, &[up.ordinal(), v, k, t])
}

// A line for each cell's bound, and `end`.
fn put_bounds(
    frame: Frame,
    forest: &Forest,
    bounds: &[u64],
    out: &mut Vec<u8>,
) -> Result<(), Memory>
    requires roots { length forest.now.roots ≡ size_of frame }
    requires bounds { length bounds.now ≡ size_of frame }
    ensures ok { OnOk result (out.new.items
        ≡ out.old.items ++ with_feeds (bound_lines frame bounds.now forest.now.roots)) }
    ensures err { OnErr result (Extends out.old.items out.new.items) }
{
    put_each_bound(frame, forest, bounds, out)?;
    put(out, b"end\n")
}

fn put_each_bound(
    frame: Frame,
    forest: &Forest,
    bounds: &[u64],
    out: &mut Vec<u8>,
) -> Result<(), Memory>
    requires roots { length forest.now.roots ≡ size_of frame }
    requires bounds { length bounds.now ≡ size_of frame }
    ensures ok { OnOk result (out.new.items
        ≡ out.old.items ++ with_feeds (map (bound_line frame bounds.now forest.now.roots) (cells_of frame))) }
    ensures err { OnErr result (Extends out.old.items out.new.items) }
{
    for i in 0..frame.size() {
        put_bound(frame, frame.cell(i), forest, bounds, out)?;
    }
    Ok(())
}

// The line of a cell's bound, with the number of its root from 1.
fn put_bound(
    frame: Frame,
    cell: Cell,
    forest: &Forest,
    bounds: &[u64],
    out: &mut Vec<u8>,
) -> Result<(), Memory>
    requires inside { InFrame frame cell }
    requires roots { length forest.now.roots ≡ size_of frame }
    requires bounds { length bounds.now ≡ size_of frame }
    ensures ok { OnOk result (out.new.items
        ≡ out.old.items ++ with_feeds (bound_line frame bounds.now forest.now.roots cell ∷ [])) }
    ensures err { OnErr result (Extends out.old.items out.new.items) }
{
    let _ = forest.len();
    let i = frame.index(cell);
    let [v, k, t] = numbers(cell);
    put_joined(
        out,
        b' ',
        &[v, k, t, bounds[i as usize], forest.root(i) + 1],
    )?;
    put(out, b"\n")
}
