use crate::build_rows::{SEVEN, TRIPLES};
use crate::rows::FOUR;
use crate::{build_run, check_run, gen_run};
use lj_base::{Cell, MemSink, MemSource};
use std::alloc::Global;
use std::test::Fail;
use std::thread::Threads;

#[test]
fn a_check_whose_streams_fail_has_their_status(rt: HostRuntime) -> Result<(), Fail> {
    // The read that fails, the write that fails, the status and what was written, in pieces of 8 and of 2 bytes.
    let rows: [(u64, u64, u8, &[u8]); 5] = [
        (0, 0, 0, b"covers 4\n"),
        (1, 0, 4, b""),
        (2, 0, 4, b""),
        (0, 3, 5, b"cove"),
        (0, 1, 5, b""),
    ];
    let cell = Cell::new(5, 3, 2)?;
    for (read, write, status, text) in rows {
        let alloc = rt.alloc();
        let mut source = MemSource::new(FOUR.to_vec(alloc)?, 8, vec![in alloc; read]?);
        let mut sink = MemSink::new(alloc, 64, 2, vec![in alloc; write]?)?;
        let ended = check_run(&rt, alloc, cell, 1, &mut source, &mut sink);
        assert_eq!(rt; ended, status, "read {read} and write {write} fail");
        assert_eq!(rt; sink.bytes(), text, "read {read} and write {write} fail");
    }
    Ok(())
}

// The status of a build of the triples' script and what was written, where the read or the write of this number fails,
// in pieces of 8 and of 16 bytes.
fn built<R: Threads + Sync>(
    rt: &R,
    alloc: Global,
    read: u64,
    write: u64,
    room: u64,
) -> Result<(u8, MemSink), Fail> {
    let mut source = MemSource::new(TRIPLES.to_vec(alloc)?, 8, vec![in alloc; read]?);
    let mut sink = MemSink::new(alloc, room, 16, vec![in alloc; write]?)?;
    let status = build_run(rt, alloc, false, &mut source, &mut sink);
    Ok((status, sink))
}

// What a build of the triples' script prints.
fn built_text(alloc: Global) -> Result<Vec<u8>, Fail> {
    let mut text = b"client ann\naccepted 1 4\n".to_vec(alloc)?;
    text.extend_from_slice(SEVEN)?;
    Ok(text)
}

#[test]
fn a_build_whose_read_fails_writes_nothing(rt: HostRuntime) -> Result<(), Fail> {
    let text = built_text(rt.alloc())?;
    // Eight pieces and the call that finds the end.
    for read in 1..10 {
        let (status, sink) = built(&rt, rt.alloc(), read, 0, 4096)?;
        assert_eq!(rt; status, 4, "read {read} fails");
        assert!(rt; sink.bytes().is_empty(), "read {read} fails");
    }
    let (status, sink) = built(&rt, rt.alloc(), 10, 0, 4096)?;
    assert_eq!(rt; status, 0);
    assert_eq!(rt; sink.bytes(), text.as_slice());
    Ok(())
}

#[test]
fn a_build_whose_write_fails_wrote_the_start(rt: HostRuntime) -> Result<(), Fail> {
    let text = built_text(rt.alloc())?;
    // The text has 249 bytes.
    for write in 1..17 {
        let (status, sink) = built(&rt, rt.alloc(), 0, write, 4096)?;
        assert_eq!(rt; status, 5, "write {write} fails");
        assert!(rt; text.starts_with(sink.bytes()), "write {write} fails");
        assert_eq!(rt; sink.bytes().len() as u64, 16 * (write - 1));
    }
    let (status, sink) = built(&rt, rt.alloc(), 0, 17, 4096)?;
    assert_eq!(rt; status, 0);
    assert_eq!(rt; sink.bytes(), text.as_slice());
    Ok(())
}

#[test]
fn a_sink_without_room_is_a_write_that_fails(rt: HostRuntime) -> Result<(), Fail> {
    for (room, start) in [(0, ""), (1, "c"), (23, "client ann\naccepted 1 4")] {
        let (status, sink) = built(&rt, rt.alloc(), 0, 0, room)?;
        assert_eq!(rt; status, 5, "room for {room} bytes");
        assert_eq!(rt; sink.bytes(), start.as_bytes(), "room for {room} bytes");
    }
    for (room, status) in [(0, 5), (60, 5), (4096, 0)] {
        let mut sink = MemSink::new(rt.alloc(), room, 16, Vec::new(rt.alloc()))?;
        let ended = gen_run(rt.alloc(), 2, &mut sink);
        assert_eq!(rt; ended, status, "room for {room} bytes");
    }
    Ok(())
}

#[test]
fn an_input_one_byte_too_long_is_no_script(rt: HostRuntime) -> Result<(), Fail> {
    let alloc = rt.alloc();
    let bytes = vec![in alloc; b'\n'; (1 << 26) + 1]?;
    let mut source = MemSource::new(bytes, 1 << 20, Vec::new(alloc));
    let mut sink = MemSink::new(alloc, 64, 64, Vec::new(alloc))?;
    assert_eq!(rt; build_run(&rt, alloc, false, &mut source, &mut sink), 6);
    assert_eq!(rt; sink.bytes(), b"fault input too large\n".as_slice());
    Ok(())
}
