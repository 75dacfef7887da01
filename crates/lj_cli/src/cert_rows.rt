use crate::build_rows::TRIPLES;
use crate::rows::run;
use crate::{audit_run, certify_run};
use lj_base::{MemSink, MemSource};
use std::alloc::Global;
use std::test::Fail;
use std::thread::Threads;

const NODES: &[u8] =
    b"nodes\n1 one 1 0 0 1\n2 one 1 1 0 1\n3 one 1 1 1 1\n4 one 2 0 0 1\n5 one 2 1 0 1\n\
    6 runs 2 1 1 2\n7 one 2 2 0 1\n8 one 2 2 1 1\n9 one 3 0 0 1\n10 one 3 1 0 1\n11 runs 3 1 1 3\n12 one 3 2 0 1\n";

const BOUNDS: &[u8] =
    b"bounds\n1 0 0 1 1\n1 1 0 1 2\n1 1 1 1 3\n2 0 0 1 4\n2 1 0 1 5\n2 1 1 2 6\n2 2 0 1 7\n\
    2 2 1 1 8\n3 0 0 1 9\n3 1 0 1 10\n3 1 1 3 11\n3 2 0 1 12\n";

// The fourteen planes of the affine space of eight points.
const PLANES: &[u8] =
    b"frame 8 4 3\nclient x\nupload 8 4 3\n1 2 3 4\n1 2 5 6\n1 2 7 8\n1 3 5 7\n1 3 6 8\n1 4 5 8\n\
    1 4 6 7\n2 3 5 8\n2 3 6 7\n2 4 5 7\n2 4 6 8\n3 4 5 6\n3 4 7 8\n5 6 7 8\nend\nbound 8 4 3\nbound 7 3 2\n";

// A certificate of the frame of 3 points with these uploads, this last node, this last bound and this end.
fn small(
    alloc: Global,
    uploads: &[u8],
    node: &[u8],
    bound: &[u8],
    end: &[u8],
) -> Result<Vec<u8>, Fail> {
    let mut text = Vec::new(alloc);
    for piece in [
        b"cert 3 2 1\n".as_slice(),
        uploads,
        NODES,
        node,
        BOUNDS,
        bound,
        end,
    ] {
        text.extend_from_slice(piece)?;
    }
    Ok(text)
}

// An audit of such a certificate, and what is printed of it.
#[derive(Clone, Copy)]
struct Row {
    uploads: &'static [u8],
    node: &'static [u8],
    bound: &'static [u8],
    end: &'static [u8],
    text: &'static [u8],
    status: u8,
}

const GOOD: Row = Row {
    uploads: b"",
    node: b"13 runs 3 2 1 2\n",
    bound: b"3 2 1 2 13\n",
    end: b"end\n",
    text: b"rest 0 13\n",
    status: 0,
};

#[test]
fn certificates_have_their_line_and_status(rt: HostRuntime) -> Result<(), Fail> {
    let rows: [Row; 10] = [
        GOOD,
        Row {
            end: b"\n \t\r\nend\r\n\n",
            ..GOOD
        },
        Row {
            node: b"13 grow 3 2 1 3 11\n",
            bound: b"3 2 1 3 13\n",
            text: b"no rest 3 2 1 2\n",
            status: 1,
            ..GOOD
        },
        Row {
            node: b"13 runs 3 2 1 3\n",
            text: b"no node 13\n",
            status: 1,
            ..GOOD
        },
        Row {
            bound: b"3 2 1 3 13\n",
            text: b"no bound 3 2 1\n",
            status: 1,
            ..GOOD
        },
        Row {
            uploads: b"upload a 1 3 2 1\n1 2\nend\n",
            text: b"no upload a 1\n",
            status: 1,
            ..GOOD
        },
        Row {
            uploads: b"upload a 1 3 2 1\n1 2\n1 3\nend\nupload a 70 3 2 1\n1 2\nend\n",
            text: b"no upload a 70\n",
            status: 1,
            ..GOOD
        },
        Row {
            uploads: b"upload a 1 3 2 1\n1 2\n1 3\nend\n",
            text: b"rest 1 13\n",
            ..GOOD
        },
        Row {
            end: b"",
            text: b"fault no end\n",
            status: 3,
            ..GOOD
        },
        Row {
            end: b"\nend\nend\n",
            text: b"fault line 32 bad line\n",
            status: 3,
            ..GOOD
        },
    ];
    for row in rows {
        let input = small(rt.alloc(), row.uploads, row.node, row.bound, row.end)?;
        for line in ["audit", "audit --workers 3"] {
            let (ended, sink) = run(&rt, rt.alloc(), line, &input)?;
            assert_eq!(rt; sink.bytes(), row.text);
            assert_eq!(rt; ended, row.status);
        }
    }
    Ok(())
}

#[test]
fn bytes_that_are_no_certificate_have_their_fault(rt: HostRuntime) -> Result<(), Fail> {
    let rows: [(&[u8], &[u8]); 5] = [
        (b"", b"fault no end\n"),
        (b"\n\n", b"fault no end\n"),
        (b"frame 3 2 1\n", b"fault line 1 bad line\n"),
        (
            b"\ncert 3 2 1\nupload a 0 3 2 1\n",
            b"fault line 3 bad line\n",
        ),
        (b"cert 3 2 1\nupload a 1 3 2 1\n1 2\n", b"fault no end\n"),
    ];
    for (input, text) in rows {
        let (ended, sink) = run(&rt, rt.alloc(), "audit", input)?;
        assert_eq!(rt; sink.bytes(), text);
        assert_eq!(rt; ended, 3);
    }
    Ok(())
}

// The certificate of a script, which certifies, and what an audit of it prints.
fn certified<R: Threads + Sync>(
    rt: &R,
    alloc: Global,
    script: &[u8],
) -> Result<(MemSink, MemSink), Fail> {
    let mut source = MemSource::new(script.to_vec(alloc)?, 4096, Vec::new(alloc));
    let mut cert = MemSink::new(alloc, 65_536, 4096, Vec::new(alloc))?;
    if certify_run(rt, alloc, &mut source, &mut cert) != 0 {
        return Err(Fail::from("it does not certify"));
    }
    let mut input = MemSource::new(cert.bytes().to_vec(alloc)?, 4096, Vec::new(alloc));
    let mut out = MemSink::new(alloc, 64, 64, Vec::new(alloc))?;
    if audit_run(rt, alloc, 2, &mut input, &mut out) != 0 {
        return Err(Fail::from("its certificate is not good"));
    }
    Ok((cert, out))
}

#[test]
fn what_is_certified_is_good(rt: HostRuntime) -> Result<(), Fail> {
    let alloc = rt.alloc();
    let two =
        b"frame 5 3 2\nclient a\nupload 5 3 2\n1 2 3\nend\nupload 5 3 2\n1 2 3\n1 4 5\n2 4 5\n3 4 5\nend\n\
        client b\nupload file\n4 2 1 2\n1 2\n3 4\nend\nupload 3 2 1\n1 2\n1 3\nend\n";
    let rows: [(&[u8], &[u8], &[u8]); 4] = [
        (b"frame 3 2 1\n", b"cert 3 2 1\nnodes\n", b"rest 0 13\n"),
        (
            TRIPLES,
            b"cert 7 3 2\nupload ann 1 5 3 2\n1 2 3\n1 4 5\n2 4 5\n3 4 5\nend\nnodes\n",
            b"rest 1 54\n",
        ),
        (
            PLANES,
            b"cert 8 4 3\nupload x 1 8 4 3\n1 2 3 4\n",
            b"rest 1 89\n",
        ),
        (
            two,
            b"cert 5 3 2\nupload a 1 5 3 2\n1 2 3\n1 4 5\n2 4 5\n3 4 5\nend\n\
            upload b 1 4 2 1\n1 2\n3 4\nend\nupload b 2 3 2 1\n1 2\n1 3\nend\nnodes\n",
            b"rest 3 36\n",
        ),
    ];
    for (script, start, line) in rows {
        let (cert, out) = certified(&rt, alloc, script)?;
        assert!(rt; cert.bytes().starts_with(start));
        assert!(rt; cert.bytes().ends_with(b"\nend\n"));
        assert_eq!(rt; out.bytes(), line);
    }
    Ok(())
}

#[test]
fn a_script_with_a_fault_is_not_certified(rt: HostRuntime) -> Result<(), Fail> {
    let rows: [(&[u8], &[u8]); 3] = [
        (b"", b"fault no frame\n"),
        (b"frame 3 2\n", b"fault line 1 bad frame\n"),
        (
            b"frame 3 2 1\nclient a\nclient a\n",
            b"fault line 3 bad line\n",
        ),
    ];
    for (input, text) in rows {
        let (ended, sink) = run(&rt, rt.alloc(), "certify", input)?;
        assert_eq!(rt; sink.bytes(), text);
        assert_eq!(rt; ended, 3);
    }
    Ok(())
}

// The status of an audit of the good certificate and what was written, where the read or the write of this number
// fails, in pieces of 64 and of 4 bytes.
fn audited<R: Threads + Sync>(
    rt: &R,
    alloc: Global,
    read: u64,
    write: u64,
) -> Result<(u8, MemSink), Fail> {
    let input = small(alloc, GOOD.uploads, GOOD.node, GOOD.bound, GOOD.end)?;
    let mut source = MemSource::new(input, 64, vec![in alloc; read]?);
    let mut sink = MemSink::new(alloc, 64, 4, vec![in alloc; write]?)?;
    let status = audit_run(rt, alloc, 1, &mut source, &mut sink);
    Ok((status, sink))
}

#[test]
fn an_audit_whose_streams_fail_has_their_status(rt: HostRuntime) -> Result<(), Fail> {
    let rows: [(u64, u64, u8, &[u8]); 6] = [
        (1, 0, 4, b""),
        (3, 0, 4, b""),
        (0, 1, 5, b""),
        (0, 2, 5, b"rest"),
        (0, 3, 5, b"rest 0 1"),
        (0, 0, 0, b"rest 0 13\n"),
    ];
    for (read, write, status, text) in rows {
        let (ended, sink) = audited(&rt, rt.alloc(), read, write)?;
        assert_eq!(rt; ended, status, "read {read} and write {write} fail");
        assert_eq!(rt; sink.bytes(), text, "read {read} and write {write} fail");
    }
    Ok(())
}
