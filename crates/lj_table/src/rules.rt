ghost use Rattle.std.specs.Prelude.{◌≡◌, ◌-◌, ◌<◌, ◌≤◌, All, IfSome, length};
ghost use Rattle.std.specs.List.{AllByRecursion};
ghost use Rattle.lj_base.specs.Bounds.{at_cell};
ghost use Rattle.lj_base.specs.Frames.{InFrame, size_of};
ghost use Rattle.lj_cover.specs.Instances.{AreUploads, IsRowOf};
ghost use Rattle.lj_cover.specs.Rules.{triple};
ghost use Rattle.lj_product.specs.Products.{chosen_parts};
ghost use Rattle.lj_relax.specs.Found.{IsFound, found_cost};
ghost use Rattle.lj_relax.specs.Tickets.{snapshot};
ghost use Rattle.lj_table.specs.RulesOver.{IsInducedNode, IsProductNode, IsRuleFor, IsServed, kind_node, part_node};
ghost use Rattle.lj_table.specs.Tables.{AreNodes};

use lj_base::{COST_LIMIT, Cell, Frame, Row};
use lj_cover::laws::{
    chains_have_ends, induced_has_instances, points_of_cuts, price_by_row, sizes_of_cuts,
};
use lj_deriv::{Arena, Part, Rule};
use lj_product::{PartChoice, ProductChoice};
use lj_relax::Found;
use lj_rules::Kind;

/// The rule of what was found over these bounds, with the cells' nodes as its children. Where nothing was found, the
/// rule has no meaning.
pub fn rule_over(
    arena: &Arena,
    frame: Frame,
    cell: Cell,
    bounds: &[u64],
    nodes: &[u64],
    rows: &[Row],
    found: &Found,
) -> Rule
    requires frame { frame ≡ arena.now.frame }
    requires inside { InFrame frame cell }
    requires nodes { AreNodes frame arena.now nodes.now bounds.now }
    requires count { length nodes.now ≡ size_of frame }
    requires rows { All (IsRowOf arena.now.uploads cell) rows.now }
    requires uploads { AreUploads arena.now.frame arena.now.uploads }
    requires found { IsFound frame (snapshot frame cell bounds.now rows.now) found.now }
    requires small { IfSome (found_cost found.now) (λ n. n < COST_LIMIT) }
    ensures { IfSome (found_cost found.now) (λ n. IsRuleFor arena.now cell n result) }
{
    price_by_row();
    induced_has_instances();
    sizes_of_cuts();
    points_of_cuts();
    chains_have_ends();
    let _ = (arena.len(), bounds.len());
    match found {
        Found::Elementary { choice } => of_kind(choice.kind, frame.at_cell(nodes, choice.child)),
        Found::Product { choice } => of_parts(frame, nodes, cell, choice),
        Found::Induced { choice } => of_row(frame, nodes, cell, rows[choice.place as usize].upload),
        Found::Nothing => Rule::One { cell },
    }
}

fn of_kind(kind: Kind, child: u64) -> Rule
    ensures { result ≡ kind_node kind child }
{
    match kind {
        Kind::Drop => Rule::Drop { child },
        Kind::Add => Rule::Add { child },
        Kind::Grow => Rule::Grow { child },
        Kind::Lower => Rule::Lower { child },
    }
}

fn of_parts(frame: Frame, nodes: &[u64], cell: Cell, choice: &ProductChoice) -> Rule
    requires count { length nodes.now ≡ size_of frame }
    requires few { choice.now.count ≤ 9 }
    requires v { choice.now.v1 ≤ cell.v }
    requires served { AllByRecursion (IsServed frame cell choice.now.v1)
        (chosen_parts choice.now.parts choice.now.count) }
    ensures { IsProductNode (at_cell frame nodes.now) cell choice.now.v1 choice.now.parts choice.now.count result }
{
    let none = Part {
        a: 0,
        b: 0,
        l: 0,
        first: 0,
        second: 0,
    };
    let mut parts = [none; 9];
    for i in 0..choice.count as usize {
        parts[i] = of_part(frame, nodes, cell, choice.v1, choice.parts[i]);
    }
    Rule::Product {
        cell,
        v1: choice.v1,
        parts,
        count: choice.count,
    }
}

fn of_part(frame: Frame, nodes: &[u64], cell: Cell, v1: u8, p: PartChoice) -> Part
    requires count { length nodes.now ≡ size_of frame }
    requires first { InFrame frame (triple v1 p.l p.b) }
    requires second { InFrame frame (triple (cell.v - v1) (cell.k - p.l) (cell.t - p.a)) }
    requires v { v1 ≤ cell.v }
    requires k { p.l ≤ cell.k }
    requires t { p.a ≤ cell.t }
    ensures { result ≡ part_node (at_cell frame nodes.now) cell v1 p }
{
    let first = Cell {
        v: v1,
        k: p.l,
        t: p.b,
    };
    let second = Cell {
        v: cell.v - v1,
        k: cell.k - p.l,
        t: cell.t - p.a,
    };
    Part {
        a: p.a,
        b: p.b,
        l: p.l,
        first: frame.at_cell(nodes, first),
        second: frame.at_cell(nodes, second),
    }
}

fn of_row(frame: Frame, nodes: &[u64], cell: Cell, upload: u32) -> Rule
    requires inside { InFrame frame cell }
    requires count { length nodes.now ≡ size_of frame }
    ensures { IsInducedNode (at_cell frame nodes.now) cell upload result }
{
    let mut children = [0; 26];
    for l in cell.k + 1..cell.v.min(25) + 1 {
        let child = Cell {
            v: l,
            k: cell.k,
            t: cell.t,
        };
        children[l as usize] = frame.at_cell(nodes, child);
    }
    Rule::Induced {
        cell,
        upload,
        children,
    }
}
