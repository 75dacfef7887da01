ghost use Rattle.std.specs.Prelude.{All};
ghost use Rattle.lj_base.specs.Bounds.{AreBounds};
ghost use Rattle.lj_base.specs.Frames.{InFrame};
ghost use Rattle.lj_induced.specs.Rows.{IsRowAt};

use crate::lists::{are_bounds, are_rows, fresh, mixed, mixed_row};
use crate::plain;
use lj_base::{Cell, Frame, Row};
use lj_induced::{InducedChoice, best_induced};
use lj_product::{best_product, best_product_price};
use lj_relax::{Found, least_instance, least_price};
use lj_rules::{Choice, Kind, best_elementary};

#[test]
fn the_least_elementary_price_and_product_over_fresh_bounds(rt: HostRuntime) {
    let frame = Frame::new(Cell { v: 7, k: 3, t: 2 });
    let numbers = fresh(rt.alloc(), frame).expect(&rt, "memory");
    let fit = are_bounds(frame, &numbers);
    assert!(rt; fit);
    let cell = Cell { v: 5, k: 3, t: 2 };
    let elementary = best_elementary(frame, &numbers, cell);
    let add = Choice {
        kind: Kind::Add,
        child: Cell { v: 4, k: 2, t: 2 },
        cost: 6,
    };
    assert!(rt; elementary == Some(add));
    let product = best_product(frame, &numbers, cell);
    assert!(rt; matches!(product, Some(choice) if choice.cost == 4));
    assert!(rt; best_product_price(frame, &numbers, cell) == Some(4));
    assert!(rt; least_price(frame, &numbers, &[], cell) == Some(4));
    let found = least_instance(frame, &numbers, &[], cell);
    assert!(rt; matches!(found, Found::Product { .. }) && found.cost() == Some(4));
}

#[test]
fn the_price_of_a_row_over_fresh_bounds(rt: HostRuntime) {
    let frame = Frame::new(Cell { v: 6, k: 4, t: 2 });
    let numbers = fresh(rt.alloc(), frame).expect(&rt, "memory");
    let fit = are_bounds(frame, &numbers);
    assert!(rt; fit);
    let cell = Cell { v: 5, k: 3, t: 2 };
    let mut counts = [0; 26];
    counts[3] = 2;
    counts[4] = 1;
    let mut more = counts;
    more[4] = 2;
    let rows = [
        Row {
            upload: 3,
            counts: more,
        },
        Row { upload: 5, counts },
    ];
    let rows_fit = are_rows(frame, cell, &rows);
    assert!(rt; rows_fit);
    let induced = best_induced(frame, &numbers, &rows, cell);
    assert!(rt; induced == Some(InducedChoice { place: 1, cost: 8 }));
    assert!(rt; best_induced(frame, &numbers, &rows[..0], cell) == None);
}

#[test]
fn a_cell_of_one_point_has_no_product(rt: HostRuntime) {
    let frame = Frame::new(Cell { v: 1, k: 1, t: 0 });
    let numbers = fresh(rt.alloc(), frame).expect(&rt, "memory");
    let fit = are_bounds(frame, &numbers);
    assert!(rt; fit && frame.size() == 2);
    let cell = Cell { v: 1, k: 0, t: 0 };
    assert!(rt; best_product(frame, &numbers, cell) == None);
    assert!(rt; best_product_price(frame, &numbers, cell) == None);
    assert!(rt; best_elementary(frame, &numbers, cell) == None);
    assert!(rt; least_price(frame, &numbers, &[], cell) == None);
}

#[test]
fn prices_are_those_of_a_plain_program(rt: HostRuntime) {
    let frame = Frame::new(Cell { v: 9, k: 5, t: 3 });
    let numbers = fresh(rt.alloc(), frame).expect(&rt, "memory");
    assert!(rt; are_plain(frame, &numbers));
    for seed in 0..3 {
        let numbers = mixed(rt.alloc(), frame, seed).expect(&rt, "memory");
        assert!(rt; are_plain(frame, &numbers));
    }
    let small = Frame::new(Cell { v: 6, k: 2, t: 2 });
    let numbers = mixed(rt.alloc(), small, 7).expect(&rt, "memory");
    assert!(rt; are_plain(small, &numbers));
}

// Whether the numbers are bounds, over which each call has at each cell the price of the plain program.
fn are_plain(frame: Frame, numbers: &[u64]) -> bool {
    if !are_bounds(frame, numbers) {
        return false;
    }
    for i in 0..frame.size() {
        if !is_plain(frame, numbers, frame.cell(i)) {
            return false;
        }
    }
    true
}

fn is_plain(frame: Frame, numbers: &[u64], c: Cell) -> bool
    requires inside { InFrame frame c }
    requires bounds { AreBounds frame numbers.now }
{
    let rows = [mixed_row(frame, c, 1), mixed_row(frame, c, 4)];
    if !are_rows(frame, c, &rows) {
        return false;
    }
    let elementary = plain::elementary(frame, numbers, c);
    let product = plain::product(frame, numbers, c);
    let induced = plain::induced(frame, numbers, c, &rows);
    let all = plain::lesser(plain::lesser(elementary, product), induced);
    elementary_cost(frame, numbers, c) == elementary
        && product_cost(frame, numbers, c) == product
        && induced_cost(frame, numbers, &rows, c) == induced
        && least_instance(frame, numbers, &rows, c).cost() == all
        && least_price(frame, numbers, &rows, c) == all
}

fn elementary_cost(frame: Frame, numbers: &[u64], c: Cell) -> Option<u64>
    requires inside { InFrame frame c }
    requires bounds { AreBounds frame numbers.now }
{
    let choice = best_elementary(frame, numbers, c)?;
    Some(choice.cost)
}

fn product_cost(frame: Frame, numbers: &[u64], c: Cell) -> Option<u64>
    requires inside { InFrame frame c }
    requires bounds { AreBounds frame numbers.now }
{
    let choice = best_product(frame, numbers, c)?;
    Some(choice.cost)
}

fn induced_cost(frame: Frame, numbers: &[u64], rows: &[Row], c: Cell) -> Option<u64>
    requires inside { InFrame frame c }
    requires bounds { AreBounds frame numbers.now }
    requires rows { All (IsRowAt frame c) rows.now }
{
    let choice = best_induced(frame, numbers, rows, c)?;
    Some(choice.cost)
}
