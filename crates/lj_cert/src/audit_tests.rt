ghost use Rattle.std.specs.Prelude.{◌≤◌};

use crate::{Cert, No, Rest, audit, read_cert};
use lj_base::Cell;
use lj_verify::MAX_WORKERS;
use std::alloc::Global;
use std::test::Fail;
use std::thread::Threads;

const NODES: &[u8] =
    b"nodes\n1 one 1 0 0 1\n2 one 1 1 0 1\n3 one 1 1 1 1\n4 one 2 0 0 1\n5 one 2 1 0 1\n\
    6 runs 2 1 1 2\n7 one 2 2 0 1\n8 one 2 2 1 1\n9 one 3 0 0 1\n10 one 3 1 0 1\n11 runs 3 1 1 3\n12 one 3 2 0 1\n";

const BOUNDS: &[u8] =
    b"bounds\n1 0 0 1 1\n1 1 0 1 2\n1 1 1 1 3\n2 0 0 1 4\n2 1 0 1 5\n2 1 1 2 6\n2 2 0 1 7\n\
    2 2 1 1 8\n3 0 0 1 9\n3 1 0 1 10\n3 1 1 3 11\n3 2 0 1 12\n";

// A certificate of a small frame with these uploads, this last node and this last bound.
fn small(alloc: Global, uploads: &[u8], node: &[u8], bound: &[u8]) -> Result<Cert, Fail> {
    let mut text = Vec::new(alloc);
    for piece in [
        b"cert 3 2 1\n".as_slice(),
        uploads,
        NODES,
        node,
        BOUNDS,
        bound,
        b"end\n",
    ] {
        text.extend_from_slice(piece)?;
    }
    Ok(read_cert(alloc, &text)?)
}

// Whether the audit refuses the certificate for this reason.
fn refuses<R: Threads + Sync>(rt: &R, alloc: Global, cert: Cert, workers: u64, want: &No) -> bool
    requires some_workers { 1 ≤ workers }
    requires few_workers { workers ≤ MAX_WORKERS }
{
    let audited = audit(rt, alloc, cert, workers);
    match &audited {
        Ok(_) => false,
        Err(no) => *no == *want,
    }
}

// Whether the audit refuses the upload at the place.
fn refuses_upload<R: Threads + Sync>(rt: &R, alloc: Global, cert: Cert, at: u64) -> bool {
    let audited = audit(rt, alloc, cert, 1);
    match &audited {
        Err(No::Upload { place, .. }) => *place == at,
        _ => false,
    }
}

// Whether the cell is one of the frame, with this bound.
fn has_bound(rest: &Rest, c: Cell, bound: u64) -> bool {
    rest.frame().has(c) && rest.bound(c) == bound
}

#[test]
fn bounds_at_rest_are_least(rt: HostRuntime) -> Result<(), Fail> {
    let alloc = rt.alloc();
    for workers in [1, 2, 3, 64] {
        let cert = small(alloc, b"", b"13 runs 3 2 1 2\n", b"3 2 1 2 13\n")?;
        let rest: Rest = audit(&rt, alloc, cert, workers)?;
        assert_eq!(rt; rest.uploads(), 0);
        assert_eq!(rt; rest.cells(), 13);
        assert!(rt; has_bound(&rest, Cell { v: 3, k: 2, t: 1 }, 2));
    }
    Ok(())
}

#[test]
fn a_bound_that_a_rule_lowers_is_refused(rt: HostRuntime) -> Result<(), Fail> {
    let alloc = rt.alloc();
    let want = No::Low {
        cell: Cell { v: 3, k: 2, t: 1 },
        cost: 2,
    };
    for workers in [1, 2, 3, 64] {
        let cert = small(alloc, b"", b"13 grow 3 2 1 3 11\n", b"3 2 1 3 13\n")?;
        assert!(rt; refuses(&rt, alloc, cert, workers, &want));
    }
    Ok(())
}

#[test]
fn nodes_that_are_no_derivations_are_refused(rt: HostRuntime) -> Result<(), Fail> {
    let alloc = rt.alloc();
    for node in [
        b"13 runs 3 2 1 3\n".as_slice(),
        b"13 one 3 2 1 1\n",
        b"13 all 3 2 1 3\n",
        b"13 grow 3 2 1 3 13\n",
        b"13 grow 3 2 1 3 0\n",
        b"13 grow 3 2 1 3 14\n",
        b"13 grow 3 2 1 1 10\n",
        b"13 leaf 3 2 1 2 a 1\n",
        b"13 derived 3 2 1 2 a 1 1\n",
        b"13 induced 3 2 1 2 a 1\n",
        b"13 product 3 2 1 2 1 0:0:0:1:8\n",
        b"13 product 3 2 1 2 1 1:1:1:3:5 0:0:0:1:8\n",
        b"13 product 3 2 1 1 1 0:0:0:1:8 1:1:1:3:5\n",
        b"13 product 3 2 1 2 0 0:0:0:1:8 1:1:1:3:5\n",
        b"13 product 3 2 1 2 3 0:0:0:1:8 1:1:1:3:5\n",
    ] {
        let cert = small(alloc, b"", node, b"3 2 1 2 13\n")?;
        assert!(rt; refuses(&rt, alloc, cert, 1, &No::Node { number: 13 }));
    }
    Ok(())
}

#[test]
fn a_product_is_followed(rt: HostRuntime) -> Result<(), Fail> {
    let alloc = rt.alloc();
    let cert = small(
        alloc,
        b"",
        b"13 product 3 2 1 2 1 0:0:0:1:8 1:1:1:3:5\n",
        b"3 2 1 2 13\n",
    )?;
    let rest = audit(&rt, alloc, cert, 1)?;
    assert!(rt; has_bound(&rest, Cell { v: 3, k: 2, t: 1 }, 2));
    Ok(())
}

#[test]
fn uploads_are_checked(rt: HostRuntime) -> Result<(), Fail> {
    let alloc = rt.alloc();
    let cert = small(
        alloc,
        b"upload a 1 3 2 1\n1 2\nend\n",
        b"13 runs 3 2 1 2\n",
        b"3 2 1 2 13\n",
    )?;
    assert!(rt; refuses_upload(&rt, alloc, cert, 0));
    let upload = b"upload a 1 3 2 1\n1 2\n1 3\nend\n";
    for node in [
        b"13 runs 3 2 1 2\n".as_slice(),
        b"13 leaf 3 2 1 2 a 1\n",
        b"13 induced 3 2 1 2 a 1\n",
    ] {
        let cert = small(alloc, upload, node, b"3 2 1 2 13\n")?;
        let rest = audit(&rt, alloc, cert, 1)?;
        assert_eq!(rt; rest.uploads(), 1);
    }
    Ok(())
}

#[test]
fn bounds_are_met_by_their_nodes(rt: HostRuntime) -> Result<(), Fail> {
    let alloc = rt.alloc();
    let want = No::Bound {
        cell: Cell { v: 3, k: 2, t: 1 },
    };
    for bound in [
        b"3 2 1 2 14\n".as_slice(),
        b"3 2 1 2 0\n",
        b"3 2 1 1 13\n",
        b"3 2 1 3 13\n",
        b"3 2 1 1 12\n",
    ] {
        let cert = small(alloc, b"", b"13 runs 3 2 1 2\n", bound)?;
        assert!(rt; refuses(&rt, alloc, cert, 2, &want));
    }
    Ok(())
}

#[test]
fn uploads_are_found_by_name_and_ordinal(rt: HostRuntime) -> Result<(), Fail> {
    let alloc = rt.alloc();
    let uploads = b"upload b 1 3 2 1\n1 2\n1 3\n2 3\nend\nupload a 2 3 2 1\n1 2\n2 3\nend\n\
        upload a 1 3 2 1\n1 2\n1 3\nend\n";
    let nodes =
        b"13 leaf 3 2 1 2 a 1\n14 leaf 3 2 1 3 b 1\n15 leaf 3 2 1 2 a 2\n16 derived 2 1 0 1 a 2 3\n";
    let cert = small(alloc, uploads, nodes, b"3 2 1 2 13\n")?;
    let rest = audit(&rt, alloc, cert, 2)?;
    assert_eq!(rt; rest.uploads(), 3);
    for node in [
        b"13 leaf 3 2 1 2 a 1\n14 leaf 3 2 1 2 b 1\n".as_slice(),
        b"13 leaf 3 2 1 2 a 1\n14 leaf 3 2 1 2 b 2\n",
        b"13 leaf 3 2 1 2 a 1\n14 leaf 3 2 1 2 a 3\n",
        b"13 leaf 3 2 1 2 a 1\n14 leaf 3 2 1 2 c 1\n",
        b"13 leaf 3 2 1 2 a 1\n14 derived 2 1 0 1 a 2 4\n",
        b"13 leaf 3 2 1 2 a 1\n14 derived 2 1 0 1 a 2 0\n",
    ] {
        let cert = small(alloc, uploads, node, b"3 2 1 2 13\n")?;
        assert!(rt; refuses(&rt, alloc, cert, 2, &No::Node { number: 14 }));
    }
    Ok(())
}

#[test]
fn cuts_have_their_sizes(rt: HostRuntime) -> Result<(), Fail> {
    let alloc = rt.alloc();
    let upload = b"upload a 1 3 2 1\n1 2\n1 3\nend\n";
    let cert = small(
        alloc,
        upload,
        b"13 runs 3 2 1 2\n14 induced 3 1 1 4 a 1 2:6\n",
        b"3 2 1 2 13\n",
    )?;
    let rest = audit(&rt, alloc, cert, 1)?;
    assert_eq!(rt; rest.uploads(), 1);
    for node in [
        b"13 runs 3 2 1 2\n14 induced 3 1 1 4 a 1\n".as_slice(),
        b"13 runs 3 2 1 2\n14 induced 3 1 1 4 a 1 2:6 3:6\n",
        b"13 runs 3 2 1 2\n14 induced 3 1 1 4 a 1 1:3 2:6\n",
        b"13 runs 3 2 1 2\n14 induced 3 1 1 4 a 1 2:6 2:6\n",
        b"13 runs 3 2 1 2\n14 induced 3 1 1 4 a 1 2:5\n",
        b"13 runs 3 2 1 2\n14 induced 3 1 1 4 a 1 2:0\n",
        b"13 runs 3 2 1 2\n14 induced 3 1 1 4 a 1 2:14\n",
        b"13 runs 3 2 1 2\n14 induced 3 1 1 3 a 1 2:6\n",
        b"13 runs 3 2 1 2\n14 product 3 2 1 2 1 0:0:0:1:8 0:0:0:1:8\n",
        b"13 runs 3 2 1 2\n14 product 3 2 1 2 1 0:0:0:1:8 1:1:1:3:5 1:1:1:3:5\n",
    ] {
        let cert = small(alloc, upload, node, b"3 2 1 2 13\n")?;
        assert!(rt; refuses(&rt, alloc, cert, 1, &No::Node { number: 14 }));
    }
    Ok(())
}
