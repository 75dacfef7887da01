ghost use Rattle.std.specs.Prelude.{◌≡◌, ◌-◌, ◌+◌, ◌<◌, ◌≤◌, ◌↔◌, IsTrue};
ghost use Rattle.lj_base.specs.Cells.{IsCell};
ghost use Rattle.lj_base.specs.Frames.{InFrame};
ghost use Rattle.lj_cover.specs.Instances.{ReadSomewhere, Reads};
ghost use Rattle.lj_cover.specs.Rules.{triple};

use lj_base::{Cell, Frame};
use lj_cover::laws::reads_are_children;

/// Whether some instance at the reader, from some uploads and with its children in the frame, has the child as a child.
/// It compares their numbers.
pub fn reads(frame: Frame, reader: Cell, child: Cell) -> bool
    requires reader { InFrame frame reader }
    requires child { InFrame frame child }
    ensures reads { IsTrue result ↔ Reads frame reader child }
    ensures somewhere { IsTrue result ↔ ReadSomewhere frame reader child }
{
    reads_are_children();
    reads_by_numbers(frame, reader, child)
}

fn reads_by_numbers(frame: Frame, reader: Cell, child: Cell) -> bool
    requires reader { InFrame frame reader }
    requires child { InFrame frame child }
    ensures reads { IsTrue result ↔ Reads frame reader child }
    ensures limits { IsCell frame.top }
{
    let drop = is_at(child, reader.v + 1, reader.k, reader.t);
    let more = reader.t < reader.k;
    let add = more && is_at(child, reader.v - 1, reader.k - 1, reader.t);
    let grow = more && is_at(child, reader.v, reader.k - 1, reader.t);
    let lower = more && is_at(child, reader.v, reader.k, reader.t + 1);
    let product = is_factor(reader, child);
    let induced = is_cut(frame, reader, child);
    drop || add || grow || lower || product || induced
}

fn is_at(c: Cell, v: u8, k: u8, t: u8) -> bool
    ensures { IsTrue result ↔ (c ≡ triple v k t) }
{
    c.v == v && c.k == k && c.t == t
}

// What the reader has beside the child makes a second factor.
fn is_factor(reader: Cell, child: Cell) -> bool
    ensures { IsTrue result ↔ ((child.v < reader.v) × (child.k ≤ reader.k) × (child.t ≤ reader.t)
        × (reader.t - child.t ≤ reader.k - child.k) × (reader.k - child.k ≤ reader.v - child.v)) }
{
    child.v < reader.v
        && child.k <= reader.k
        && child.t <= reader.t
        && reader.t - child.t <= reader.k - child.k
        && reader.k - child.k <= reader.v - child.v
}

// A cut of a block of the frame to the reader's points may have as many points as the child.
fn is_cut(frame: Frame, reader: Cell, child: Cell) -> bool
    ensures cut { IsTrue result ↔ ((child ≡ triple child.v reader.k reader.t) × (reader.k < child.v)
        × (child.v ≤ reader.v) × (child.v ≤ frame.top.k)) }
    ensures limits { IsCell frame.top }
{
    child.k == reader.k
        && child.t == reader.t
        && reader.k < child.v
        && child.v <= reader.v
        && child.v <= frame.top.k
}
