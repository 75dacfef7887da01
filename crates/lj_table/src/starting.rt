ghost use Rattle.std.specs.Prelude.{◌≡◌, ◌+◌, ◌-◌, ◌<◌, ◌==◌, ◌||◌, false};
ghost use Rattle.lj_base.specs.Cells.{IsCell};
ghost use Rattle.lj_base.specs.Colex.{choose};
ghost use Rattle.lj_base.specs.Frames.{InFrame, index_of, size_of};
ghost use Rattle.lj_cover.specs.Rules.{triple};
ghost use Rattle.lj_deriv.specs.declared.rules.Rule.TheVariants.{Grow as GrowNode};
ghost use Rattle.lj_table.specs.RulesOver.{IsRuleFor};
ghost use Rattle.lj_table.specs.Starting.{IsBegun, first_bound};

use lj_base::{COST_LIMIT, Cell, Frame, binom};
use lj_deriv::{Arena, Rule};

/// Gives each cell of the frame its first node and bound.
pub fn begin(frame: Frame, arena: &mut Arena, bounds: &mut Vec<u64>, nodes: &mut Vec<u64>)
    requires { IsBegun frame 0 arena.old bounds.old.items nodes.old.items }
    ensures { IsBegun frame (size_of frame) arena.new bounds.new.items nodes.new.items }
{
    for j in 0..frame.size() {
        begin_cell(frame, arena, bounds, nodes, j);
    }
}

fn begin_cell(frame: Frame, arena: &mut Arena, bounds: &mut Vec<u64>, nodes: &mut Vec<u64>, j: u64)
    requires before { IsBegun frame j arena.old bounds.old.items nodes.old.items }
    requires inside { j < size_of frame }
    ensures { IsBegun frame (j + 1) arena.new bounds.new.items nodes.new.items }
{
    let c = frame.cell(j);
    let rule = first_rule(arena, bounds, nodes, frame, c);
    let node = arena.add(rule);
    bounds[j as usize] = arena.cost(node);
    nodes[j as usize] = node;
}

// The first rule of a cell, over the nodes of the cells before it, whose numbers are their indices.
fn first_rule(arena: &Arena, bounds: &[u64], nodes: &[u64], frame: Frame, c: Cell) -> Rule
    requires inside { InFrame frame c }
    requires before { IsBegun frame (index_of frame c) arena.now bounds.now nodes.now }
    ensures { IsRuleFor arena.now c (first_bound c) result }
{
    let _ = (arena.len(), bounds.len(), nodes.len());
    let most = most_of(c);
    prove!(most < 1 << 38);
    if is_single(c) {
        Rule::One { cell: c }
    } else if is_run(c) {
        Rule::Runs { cell: c }
    } else if is_full(c) {
        Rule::All { cell: c }
    } else {
        grown_from(frame, c)
    }
}

// The number of sets that a covering of the cell covers.
fn most_of(c: Cell) -> u64
    ensures most { result ≡ choose c.v c.t }
    ensures small { result < COST_LIMIT }
    ensures cell { IsCell c }
{
    binom(u64::from(c.v), u64::from(c.t))
}

fn is_single(c: Cell) -> bool
    ensures { result ≡ ((c.t == 0) || (c.k == c.v)) }
{
    c.t == 0 || c.k == c.v
}

fn is_run(c: Cell) -> bool
    ensures { result ≡ (c.t == 1) }
{
    c.t == 1
}

fn is_full(c: Cell) -> bool
    ensures { result ≡ (c.t == c.k) }
{
    c.t == c.k
}

fn grown_from(frame: Frame, c: Cell) -> Rule
    requires inside { InFrame frame c }
    requires single { ((c.t == 0) || (c.k == c.v)) ≡ false }
    requires full { (c.t == c.k) ≡ false }
    ensures { result ≡ GrowNode (index_of frame (triple c.v (c.k - 1) c.t)) }
{
    let child = Cell {
        v: c.v,
        k: c.k - 1,
        t: c.t,
    };
    Rule::Grow {
        child: frame.index(child),
    }
}
