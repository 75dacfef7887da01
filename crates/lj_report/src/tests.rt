use crate::{ReportCells, optimal_law, report_cells_law, report_json, report_text};
use lj_base::{Cell, Frame};
use std::alloc::Global;
use std::process::Abort;
use std::test::Fail;

// Bounds of 1 for all cells of the frame but these (v,k,t), which have the last number.
fn bounds_with(
    alloc: Global,
    frame: &Frame,
    rows: &[(u64, u64, u64, u64)],
) -> Result<Vec<u64>, Fail> {
    let mut bounds = vec![in alloc; 1u64; frame.size() as usize]?;
    for (v, k, t, bound) in rows {
        let cell = Cell::new(*v, *k, *t)?;
        if frame.has(cell)
            && let Some(place) = bounds.get_mut(frame.index(cell) as usize)
        {
            *place = *bound;
        }
    }
    Ok(bounds)
}

#[test]
fn the_text_of_a_frame_of_seven_points(rt: HostRuntime) -> Result<(), Fail> {
    report_cells_law();
    optimal_law();
    let frame = Frame::new(Cell::new(7, 3, 2)?);
    let rows = [
        (3, 2, 1, 2),
        (4, 2, 1, 2),
        (5, 2, 1, 3),
        (6, 2, 1, 3),
        (7, 2, 1, 4),
        (4, 3, 1, 2),
        (5, 3, 1, 2),
        (6, 3, 1, 2),
        (7, 3, 1, 3),
        (4, 3, 2, 3),
        (5, 3, 2, 4),
        (6, 3, 2, 7),
        (7, 3, 2, 9),
    ];
    let bounds = bounds_with(rt.alloc(), &frame, rows.as_slice())?;
    assert_eq!(rt; bounds.len() as u64, frame.size());
    assert_eq!(rt; ReportCells::of(frame).count(), 13);
    let mut out = b"before\n".to_vec(rt.alloc())?;
    report_text(frame, &bounds, &mut out)?;
    let lines = b"before
report
3 2 1 2 2 optimal
4 2 1 2 2 optimal
5 2 1 3 3 optimal
6 2 1 3 3 optimal
7 2 1 4 4 optimal
4 3 1 2 2 optimal
5 3 1 2 2 optimal
6 3 1 2 2 optimal
7 3 1 3 3 optimal
4 3 2 3 3 optimal
5 3 2 4 4 optimal
6 3 2 7 6
7 3 2 9 7
";
    assert_eq!(rt; out.as_slice(), lines.as_slice());
    Ok(())
}

// The report of the frame as JSON, where the bound of (3,2,1) is this one.
fn json_of(alloc: Global, rt: &impl Abort, frame: Frame, bound: u64) -> Result<Vec<u8>, Fail> {
    let bounds = bounds_with(alloc, &frame, &[(3, 2, 1, bound)])?;
    assert_eq!(rt; bounds.len() as u64, frame.size());
    let mut out = Vec::new(alloc);
    report_json(alloc, frame, &bounds, &mut out)?;
    Ok(out)
}

#[test]
fn json_has_a_flag_where_no_covering_is_smaller(rt: HostRuntime) -> Result<(), Fail> {
    let frame = Frame::new(Cell::new(3, 2, 1)?);
    let equal = json_of(rt.alloc(), &rt, frame, 2)?;
    let line = b"{\"cells\":[[3,2,1,2,2,true]],\"frame\":[3,2,1]}\n";
    assert_eq!(rt; equal.as_slice(), line.as_slice());
    let above = json_of(rt.alloc(), &rt, frame, 3)?;
    let line = b"{\"cells\":[[3,2,1,3,2,false]],\"frame\":[3,2,1]}\n";
    assert_eq!(rt; above.as_slice(), line.as_slice());
    Ok(())
}

#[test]
fn a_frame_of_blocks_of_one_point_lists_no_cell(rt: HostRuntime) -> Result<(), Fail> {
    let frame = Frame::new(Cell::new(99, 1, 1)?);
    let bounds = bounds_with(rt.alloc(), &frame, &[])?;
    assert_eq!(rt; bounds.len() as u64, frame.size());
    let mut out = Vec::new(rt.alloc());
    report_text(frame, &bounds, &mut out)?;
    report_json(rt.alloc(), frame, &bounds, &mut out)?;
    let texts = b"report\n{\"cells\":[],\"frame\":[99,1,1]}\n";
    assert_eq!(rt; out.as_slice(), texts.as_slice());
    Ok(())
}
