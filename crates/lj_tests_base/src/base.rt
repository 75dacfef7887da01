use lj_base::{
    Block, Cell, Failed, Frame, MemSink, MemSource, Outside, Sink, Source, StdSink, StdSource,
    binom,
};
use std::io;
use std::io::Read;
use std::test::Fail;

#[test]
fn cells_are_made_within_the_limits(rt: HostRuntime) {
    let rows = [
        (5, 3, 2, None),
        (99, 25, 8, None),
        (1, 0, 0, None),
        (8, 8, 8, None),
        (0, 0, 0, Some(Outside)),
        (100, 3, 2, Some(Outside)),
        (30, 26, 2, Some(Outside)),
        (20, 10, 9, Some(Outside)),
        (3, 4, 2, Some(Outside)),
        (5, 3, 4, Some(Outside)),
    ];
    for (v, k, t, fault) in rows {
        assert_eq!(rt; Cell::new(v, k, t).err(), fault, "({v},{k},{t})");
    }
}

#[test]
fn a_frame_numbers_its_cells(rt: HostRuntime) {
    let frame = Frame::new(Cell { v: 7, k: 3, t: 2 });
    assert_eq!(rt; frame.size(), 54);
    assert_eq!(rt; frame.cell(0), Cell { v: 1, k: 0, t: 0 });
    assert_eq!(rt; frame.cell(53), Cell { v: 7, k: 3, t: 2 });
    assert!(rt; frame.has(Cell { v: 5, k: 3, t: 2 }));
    assert!(rt; !frame.has(Cell { v: 8, k: 3, t: 2 }));
    for i in 0..frame.size() {
        assert_eq!(rt; frame.index(frame.cell(i)), i);
    }
}

#[test]
fn blocks_keep_their_points_in_order(rt: HostRuntime) {
    let mut block = Block::empty();
    block.push(2);
    block.push(7);
    assert!(rt; block.insert(5));
    assert!(rt; !block.insert(7));
    assert_eq!(rt; block.len(), 3);
    assert_eq!(rt; (block.at(0), block.at(1), block.at(2)), (2, 5, 7));
    assert!(rt; block.has(5) && !block.has(6));
}

#[test]
fn binomials_count_sets(rt: HostRuntime) {
    let rows = [
        (0, 0, 1),
        (0, 1, 0),
        (7, 2, 21),
        (25, 5, 53_130),
        (99, 8, 171_200_862_756),
    ];
    for (n, r, count) in rows {
        assert_eq!(rt; binom(n, r), count, "{r} of {n}");
    }
}

#[test]
fn a_source_in_memory_gives_pieces_and_fails_where_stated(rt: HostRuntime) -> Result<(), Fail> {
    let alloc = rt.alloc();
    let mut bytes = Vec::new(alloc);
    bytes.extend_from_slice(b"seven")?;
    let mut source = MemSource::new(bytes, 3, vec![in alloc; 2; 1]?);
    let mut piece = [0; 4];
    assert_eq!(rt; source.read(&mut piece), Ok(3));
    assert_eq!(rt; piece, *b"sev\0");
    for want in [Err(Failed), Ok(2), Ok(0)] {
        assert_eq!(rt; source.read(&mut piece), want);
    }
    assert_eq!(rt; (source.calls(), Source::faults(&source)), (4, 1));
    Ok(())
}

#[test]
fn a_sink_in_memory_takes_pieces_and_fails_where_stated(rt: HostRuntime) -> Result<(), Fail> {
    let alloc = rt.alloc();
    let mut sink = MemSink::new(alloc, 4, 3, vec![in alloc; 2; 1]?)?;
    let rows: [(&[u8], Result<usize, Failed>); 5] = [
        (b"seven", Ok(3)),
        (b"en", Err(Failed)),
        (b"en", Ok(1)),
        (b"n", Err(Failed)),
        (b"", Ok(0)),
    ];
    for (bytes, want) in rows {
        assert_eq!(rt; sink.write(bytes), want, "of {bytes:?}");
    }
    assert_eq!(rt; sink.bytes(), b"seve".as_slice());
    assert_eq!(rt; Sink::faults(&sink), 2);
    Ok(())
}

// A reader that fails at each second call.
#[derive(Drop)]
struct Halting<'a> {
    bytes: &'a [u8],
    fails: bool,
}

impl<'a> Read for Halting<'a> {
    fn read(&mut self, buf: &mut [u8]) -> io::Result<usize> {
        self.fails = !self.fails;
        if !self.fails {
            return Err(io::Error::from(io::ErrorKind::WouldBlock));
        }
        self.bytes.read(buf)
    }
}

#[test]
fn a_reader_that_fails_is_a_source_that_counts_it(rt: HostRuntime) {
    let mut source = StdSource::new(Halting {
        bytes: b"seven",
        fails: false,
    });
    let mut piece = [0; 4];
    for (want, faults) in [
        (Ok(4), 0),
        (Err(Failed), 1),
        (Ok(1), 1),
        (Err(Failed), 2),
        (Ok(0), 2),
    ] {
        assert_eq!(rt; source.read(&mut piece), want);
        assert_eq!(rt; source.faults(), faults);
    }
    assert_eq!(rt; piece, *b"neve");
}

#[test]
fn a_writer_without_room_is_a_sink_that_counts_it(rt: HostRuntime) {
    let mut room = [0; 4];
    let mut sink = StdSink::new(room.as_mut_slice());
    let rows: [(&[u8], Result<usize, Failed>, u64); 5] = [
        (b"sev", Ok(3), 0),
        (b"en", Ok(1), 0),
        (b"n", Err(Failed), 1),
        (b"", Ok(0), 1),
        (b"n", Err(Failed), 2),
    ];
    for (bytes, want, faults) in rows {
        assert_eq!(rt; sink.write(bytes), want, "of {bytes:?}");
        assert_eq!(rt; sink.faults(), faults, "after {bytes:?}");
    }
    assert_eq!(rt; room, *b"seve");
}
