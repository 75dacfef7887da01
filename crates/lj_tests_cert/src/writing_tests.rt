ghost use Rattle.lj_cert.specs.Texts.{AreHeldIn};

use lj_base::{Cell, Frame, Memory};
use lj_cert::{Cert, CertNode, CertRule, forests_are_writable, read_cert, write_cert};
use lj_samples::{fano_plane, upload};
use lj_table::Table;
use std::alloc::Global;
use std::test::Fail;

const SMALL: &[u8] =
    b"cert 3 2 1\nnodes\n1 one 1 0 0 1\n2 one 1 1 0 1\n3 one 1 1 1 1\n4 one 2 0 0 1\n5 one 2 1 0 1\n\
    6 runs 2 1 1 2\n7 one 2 2 0 1\n8 one 2 2 1 1\n9 one 3 0 0 1\n10 one 3 1 0 1\n11 runs 3 1 1 3\n12 one 3 2 0 1\n\
    13 runs 3 2 1 2\nbounds\n1 0 0 1 1\n1 1 0 1 2\n1 1 1 1 3\n2 0 0 1 4\n2 1 0 1 5\n2 1 1 2 6\n2 2 0 1 7\n\
    2 2 1 1 8\n3 0 0 1 9\n3 1 0 1 10\n3 1 1 3 11\n3 2 0 1 12\n3 2 1 2 13\nend\n";

// The certificate of a table.
fn written(alloc: Global, table: &Table) -> Result<Vec<u8>, Memory>
    requires { AreHeldIn table.now.arena.frame table.now.arena.uploads }
{
    let frame = table.frame();
    let forest = table.forest(alloc)?;
    let uploads = table.accepted();
    let bounds = table.bounds();
    forests_are_writable(frame, uploads, &forest, bounds);
    let mut text = Vec::new(alloc);
    write_cert(frame, uploads, &forest, bounds, &mut text)?;
    Ok(text)
}

// The certificate of a table at rest without uploads.
fn without_uploads(alloc: Global, frame: Frame) -> Result<Vec<u8>, Memory> {
    let mut table = Table::start(alloc, frame)?;
    table.settle(alloc)?;
    written(alloc, &table)
}

// The certificate of a table at rest that has accepted the seven lines of the Fano plane.
fn with_fano_plane(alloc: Global) -> Result<Vec<u8>, Memory> {
    let frame = Frame::new(Cell { v: 7, k: 3, t: 2 });
    let mut table = Table::start(alloc, frame)?;
    table.accept(upload(alloc, 1, fano_plane(alloc)?)?)?;
    table.settle(alloc)?;
    written(alloc, &table)
}

#[test]
fn the_least_bounds_of_a_small_frame_are_written(rt: HostRuntime) -> Result<(), Memory> {
    let alloc = rt.alloc();
    let frame = Frame::new(Cell { v: 3, k: 2, t: 1 });
    let text = without_uploads(alloc, frame)?;
    assert!(rt; text.as_slice() == SMALL);
    Ok(())
}

#[test]
fn an_upload_and_the_node_that_names_it_read_back(rt: HostRuntime) -> Result<(), Fail> {
    let alloc = rt.alloc();
    let text = with_fano_plane(alloc)?;
    let Cert {
        frame,
        uploads,
        nodes,
        bounds,
    } = read_cert(alloc, &text)?;
    assert_eq!(rt; frame.top, Cell { v: 7, k: 3, t: 2 });
    assert_eq!(rt; uploads.items().len(), 1);
    for upload in uploads.items() {
        assert!(rt; upload.client.bytes() == b"ann".as_slice());
        assert_eq!(rt; upload.ordinal, 1);
        assert_eq!(rt; upload.cell, Cell { v: 7, k: 3, t: 2 });
        assert_eq!(rt; upload.blocks.items().len(), 7);
    }
    assert_eq!(rt; bounds.items().len() as u64, frame.size());
    let last = bounds.items().last().expect(&rt, "a bound");
    assert_eq!(rt; last.cell, Cell { v: 7, k: 3, t: 2 });
    assert_eq!(rt; last.bound, 7);
    let place = last.node.wrapping_sub(1) as usize;
    let node = nodes.items().get(place).expect(&rt, "a node");
    assert!(rt; is_leaf(node));
    assert_eq!(rt; node.cost, 7);
    Ok(())
}

fn is_leaf(node: &CertNode) -> bool {
    match &node.rule {
        CertRule::Leaf { client, ordinal } => client.bytes() == b"ann".as_slice() && *ordinal == 1,
        _ => false,
    }
}
