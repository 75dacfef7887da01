use crate::{Cert, CertFault, CertRule, read_cert};
use std::alloc::Global;
use std::process::Abort;
use std::test::Fail;

const HEAD: &[u8] = b"cert 3 2 1\n";

const NODES: &[u8] =
    b"nodes\n1 one 1 0 0 1\n2 one 1 1 0 1\n3 one 1 1 1 1\n4 one 2 0 0 1\n5 one 2 1 0 1\n\
    6 runs 2 1 1 2\n7 one 2 2 0 1\n8 one 2 2 1 1\n9 one 3 0 0 1\n10 one 3 1 0 1\n11 runs 3 1 1 3\n12 one 3 2 0 1\n\
    13 runs 3 2 1 2\n";

const BOUNDS: &[u8] =
    b"bounds\n1 0 0 1 1\n1 1 0 1 2\n1 1 1 1 3\n2 0 0 1 4\n2 1 0 1 5\n2 1 1 2 6\n2 2 0 1 7\n\
    2 2 1 1 8\n3 0 0 1 9\n3 1 0 1 10\n3 1 1 3 11\n3 2 0 1 12\n3 2 1 2 13\n";

// The pieces, one after the other.
fn joined(alloc: Global, pieces: &[&[u8]]) -> Result<Vec<u8>, Fail> {
    let mut text = Vec::new(alloc);
    for piece in pieces {
        text.extend_from_slice(piece)?;
    }
    Ok(text)
}

fn expect_fault(rt: &impl Abort, alloc: Global, text: &[u8], want: CertFault) {
    match read_cert(alloc, text) {
        Ok(_) => assert!(rt; false),
        Err(fault) => assert_eq!(rt; fault, want),
    }
}

#[test]
fn a_certificate_is_read(rt: HostRuntime) -> Result<(), Fail> {
    let alloc = rt.alloc();
    let text = joined(
        alloc,
        &[
            HEAD,
            b"upload a 1 3 2 1\n1 2\n\n3 1\nend\n",
            NODES,
            BOUNDS,
            b"end\n\n",
        ],
    )?;
    let Cert {
        frame,
        uploads,
        nodes,
        bounds,
    } = read_cert(alloc, &text)?;
    assert!(rt; frame.size() == 13);
    assert!(rt; uploads.items().len() == 1);
    let upload = &uploads.items()[0];
    assert!(rt; upload.blocks.items().len() == 2);
    assert!(rt; nodes.items().len() == 13);
    assert!(rt; matches!(nodes.items()[12].rule, CertRule::Runs));
    assert!(rt; nodes.items()[10].cost == 3);
    assert!(rt; bounds.items().len() == 13);
    assert!(rt; bounds.items()[12].node == 13);
    Ok(())
}

#[test]
fn every_rule_is_read(rt: HostRuntime) -> Result<(), Fail> {
    let alloc = rt.alloc();
    let nodes =
        b"nodes\n1 all 3 2 2 3\n2 leaf 3 2 1 2 ann 1\n3 derived 2 1 0 1 ann 1 3\n4 derived2 1 0 0 1 ann 1 2 3\n\
        5 drop 2 2 1 3 1\n6 add 4 3 1 3 2\n7 grow 3 3 1 3 2\n8 lower 3 2 1 3 1\n\
        9 product 3 2 1 5 1 0:0:1:2:3 1:1:1:4:5\n\
        10 induced 2 1 1 2 ann 1 2:3\n11 induced 2 1 1 2 ann 1\n";
    let text = joined(alloc, &[HEAD, nodes, BOUNDS, b"end"])?;
    let cert = read_cert(alloc, &text)?;
    let nodes = cert.nodes.items();
    assert!(rt; nodes.len() == 11);
    match &nodes[8].rule {
        CertRule::Product { v1, parts } => {
            assert!(rt; *v1 == 1);
            let parts = parts.items();
            assert!(rt; parts.len() == 2);
            assert!(rt; parts[1].a == 1 && parts[1].b == 1 && parts[1].l == 1);
            assert!(rt; parts[1].first == 4 && parts[1].second == 5);
        }
        _ => assert!(rt; false),
    }
    match &nodes[9].rule {
        CertRule::Induced {
            client,
            ordinal,
            children,
        } => {
            assert!(rt; client.bytes() == b"ann".as_slice());
            assert!(rt; *ordinal == 1);
            assert!(rt; children.items().len() == 1);
            assert!(rt; children.items()[0].l == 2 && children.items()[0].child == 3);
        }
        _ => assert!(rt; false),
    }
    Ok(())
}

// The bad line among lines after the frame's and an upload's.
#[test]
fn lines_of_no_form_are_refused(rt: HostRuntime) -> Result<(), Fail> {
    let alloc = rt.alloc();
    for line in [
        b"upload a 1 3 2 1\n".as_slice(),
        b"upload b 0 3 2 1\n".as_slice(),
        b"upload b 1 4 2 1\n".as_slice(),
        b"upload b 1 3 0 0\n".as_slice(),
        b"upload b+ 1 3 2 1\n".as_slice(),
        b"upload b 1 3 2\n".as_slice(),
        b"upload b 1 3 2 1 1\n".as_slice(),
        b"cert 3 2 1\n".as_slice(),
        b"end\n".as_slice(),
        b"bounds\n".as_slice(),
        b"nodes\n2 one 1 0 0 1\n".as_slice(),
    ] {
        let text = joined(alloc, &[HEAD, b"upload a 1 3 2 1\n1 2\n1 3\nend\n", line])?;
        let at = if line[0] == b'n' { 7 } else { 6 };
        expect_fault(&rt, alloc, &text, CertFault::BadLine { line: at });
    }
    Ok(())
}

#[test]
fn node_lines_of_no_form_are_refused(rt: HostRuntime) -> Result<(), Fail> {
    let alloc = rt.alloc();
    for line in [
        b"1 one 1 0 0".as_slice(),
        b"1 one 1 0 0 1 1".as_slice(),
        b"1 one 1 2 0 1".as_slice(),
        b"1 none 1 0 0 1".as_slice(),
        b"1 leaf 1 0 0 1 ann".as_slice(),
        b"1 leaf 1 0 0 1 a.n 1".as_slice(),
        b"1 derived 1 0 0 1 ann 1".as_slice(),
        b"1 derived2 1 0 0 1 ann 1 1".as_slice(),
        b"1 drop 1 0 0 1".as_slice(),
        b"1 drop 1 0 0 1 1 1".as_slice(),
        b"1 product 1 0 0 1 1".as_slice(),
        b"1 product 1 0 0 1 1 0:0:0:1".as_slice(),
        b"1 product 1 0 0 1 1 0:0:0:1:1:1".as_slice(),
        b"1 product 1 0 0 1 1 0:0:0:1:".as_slice(),
        b"1 induced 1 0 0 1 ann 1 1".as_slice(),
        b"1 induced 1 0 0 1 ann 1 1:1:1".as_slice(),
        b"1 induced 1 0 0 1 ann".as_slice(),
        b"end".as_slice(),
    ] {
        let text = joined(alloc, &[HEAD, b"nodes\n", line])?;
        expect_fault(&rt, alloc, &text, CertFault::BadLine { line: 3 });
    }
    Ok(())
}

#[test]
fn bounds_stand_in_order_and_end(rt: HostRuntime) -> Result<(), Fail> {
    let alloc = rt.alloc();
    expect_fault(&rt, alloc, b"", CertFault::Unended);
    expect_fault(&rt, alloc, b"cert 3 0 0", CertFault::BadLine { line: 1 });
    expect_fault(
        &rt,
        alloc,
        b"\ncert 3 2 1 1",
        CertFault::BadLine { line: 2 },
    );
    let text = joined(alloc, &[HEAD, NODES, BOUNDS])?;
    expect_fault(&rt, alloc, &text, CertFault::Unended);
    let text = joined(alloc, &[HEAD, b"upload a 1 3 2 1\n"])?;
    expect_fault(&rt, alloc, &text, CertFault::Unended);
    let text = joined(alloc, &[HEAD, b"nodes\nbounds\n1 1 0 1 1"])?;
    expect_fault(&rt, alloc, &text, CertFault::BadLine { line: 4 });
    let text = joined(alloc, &[HEAD, b"nodes\nbounds\nend"])?;
    expect_fault(&rt, alloc, &text, CertFault::BadLine { line: 4 });
    let text = joined(alloc, &[HEAD, NODES, BOUNDS, b"end\nend\n"])?;
    expect_fault(&rt, alloc, &text, CertFault::BadLine { line: 31 });
    Ok(())
}

#[test]
fn at_most_4096_uploads_are_read(rt: HostRuntime) -> Result<(), Fail> {
    let alloc = rt.alloc();
    let mut text = joined(alloc, &[HEAD])?;
    for ordinal in 1..4098_u64 {
        let upload = format!(in alloc; "upload a {ordinal} 1 1 1\n1\nend\n")?;
        text.extend_from_slice(upload.as_bytes())?;
    }
    expect_fault(
        &rt,
        alloc,
        &text,
        CertFault::TooManyUploads { line: 12_290 },
    );
    Ok(())
}
