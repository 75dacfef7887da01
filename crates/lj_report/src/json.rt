ghost use Rattle.std.specs.Prelude.{◌≡◌, ◌++◌, IfOk, OnErr, OnOk, length, map, string_bytes};
ghost use Rattle.lj_base.specs.Frames.{size_of};
ghost use Rattle.serde_json.specs.View.{view};
ghost use Rattle.lj_report.specs.Reports.{report_json};
ghost use Rattle.lj_report.specs.ReportValues.{cell_value, cell_values, report_value};

use crate::cells::ReportCells;
use lj_base::{Cell, Frame, Memory};
use lj_schonheim::schonheim;
use lj_text::put;
use serde_json::{Value, json};
use std::alloc::{AllocError, Global};

/// Appends the report as one line of JSON: an object with the list `cells` of lists `[V,K,T,N,L,O]`, in the order of
/// the text's lines, and the list `frame`, `[V,K,T]`. O is whether N and L are equal. It takes memory for the whole
/// text besides.
pub fn report_json(
    alloc: Global,
    frame: Frame,
    bounds: &[u64],
    out: &mut Vec<u8>,
) -> Result<(), Memory>
    requires { length bounds.now ≡ size_of frame }
    ensures ok { OnOk result (out.new.items ≡ out.old.items ++ report_json frame bounds.now) }
    ensures err { OnErr result (out.new.items ≡ out.old.items) }
{
    let line = json_line(alloc, frame, bounds)?;
    put(out, line.as_bytes())
}

// The report's line with its LF.
fn json_line(alloc: Global, frame: Frame, bounds: &[u64]) -> Result<String, AllocError>
    requires { length bounds.now ≡ size_of frame }
    ensures { IfOk result (λ line. string_bytes line ≡ report_json frame bounds.now) }
{
    let mut line = report_value(alloc, frame, bounds)?.to_string(alloc)?;
    line.push('\n')?;
    Ok(line)
}

fn report_value(alloc: Global, frame: Frame, bounds: &[u64]) -> Result<Value, AllocError>
    requires { length bounds.now ≡ size_of frame }
    ensures { IfOk result (λ value. view value ≡ report_value frame bounds.now) }
{
    let cells = cell_values(alloc, frame, bounds)?;
    let top = frame.top;
    json!(in alloc; {"cells": cells, "frame": [top.v, top.k, top.t]})
}

fn cell_values(alloc: Global, frame: Frame, bounds: &[u64]) -> Result<Vec<Value>, AllocError>
    requires { length bounds.now ≡ size_of frame }
    ensures { IfOk result (λ values. map view values.items ≡ cell_values frame bounds.now) }
{
    let mut values = Vec::new(alloc);
    for cell in ReportCells::of(frame) {
        values.push(cell_value(alloc, cell, frame.at_cell(bounds, cell))?)?;
    }
    Ok(values)
}

fn cell_value(alloc: Global, cell: Cell, bound: u64) -> Result<Value, AllocError>
    ensures { IfOk result (λ value. view value ≡ cell_value cell bound) }
{
    let lower = schonheim(cell);
    json!(in alloc; [cell.v, cell.k, cell.t, bound, lower, bound == lower])
}
