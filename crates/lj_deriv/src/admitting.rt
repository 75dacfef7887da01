ghost use Rattle.std.specs.Prelude.{◌≡◌, ℕ, ◌+◌, ◌-◌, ◌*◌, ◌<◌, ◌≤◌, ◌↔◌, ◌∷◌, [], IsTrue, length, map, min};
ghost use Rattle.std.specs.Prelude.{slice_index, take};
ghost use Rattle.std.specs.Option.{MatchOption};
ghost use Rattle.std.specs.List.{AllByRecursion, flat_map};
ghost use Rattle.lj_base.specs.Cells.{Triple};
ghost use Rattle.lj_cover.specs.Derivations.{root_cell, tree_cost, tree_costs};
ghost use Rattle.lj_cover.specs.Instances.{cut_counts, row_price};
ghost use Rattle.lj_cover.specs.Rules.{IsCovering, PartFits, sum_of_products};
ghost use Rattle.lj_deriv.specs.Admission.{ArePartsFrom, IsCutChild, IsHeld, IsPart, IsThere};
ghost use Rattle.lj_deriv.specs.Nodes.{IsAdmitted, node_tree, sizes_of, trees_at, trees_of};
ghost use Rattle.lj_deriv.specs.declared.rules.Rule.TheVariants.{One, Runs, All, Leaf, Derived, Derived2};
ghost use Rattle.lj_deriv.specs.declared.rules.Rule.TheVariants.{Drop, Add, Grow};
ghost use Rattle.lj_deriv.specs.declared.rules.Rule.TheVariants.{Lower, Product, Induced};

use crate::arena::Arena;
use crate::children::cut_sizes;
use crate::rules::{Part, Rule};
use lj_base::{COST_LIMIT, Cell, choose_law};
use lj_cover::laws::{price_by_row, sizes_of_cuts};
use lj_upload::Accepted;

impl Arena {
    /// Whether a rule may follow the nodes that are there, at a cell of the frame, whatever it names. It takes no
    /// memory, and a step for each child; of an induced rule's upload a row of counts is looked up.
    pub fn admits(&self, rule: &Rule) -> bool
        ensures { IsTrue result ↔ IsAdmitted self.now rule.now }
    {
        match rule {
            Rule::One { cell } => self.admits_one(*cell),
            Rule::Runs { cell } => self.admits_runs(*cell),
            Rule::All { cell } => self.admits_all(*cell),
            Rule::Leaf { upload } => self.held(*upload).is_some(),
            Rule::Derived { upload, point } => self.admits_derived(*upload, *point),
            Rule::Derived2 {
                upload,
                first,
                second,
            } => self.admits_derived2(*upload, *first, *second),
            Rule::Drop { child } => self.admits_drop(*child),
            Rule::Add { child } => self.admits_add(*child),
            Rule::Grow { child } => self.admits_grow(*child),
            Rule::Lower { child } => self.admits_lower(*child),
            Rule::Product {
                cell,
                v1,
                parts,
                count,
            } => self.admits_product(*cell, *v1, parts, *count),
            Rule::Induced {
                cell,
                upload,
                children,
            } => self.admits_induced(*cell, *upload, children),
        }
    }

    // The cell of a node, where there is such a node.
    fn found(&self, node: u64) -> Option<Cell>
        ensures { MatchOption result (length self.now.rules ≤ node) (IsThere self.now node) }
    {
        if node >= self.len() {
            return None;
        }
        self.nodes_derive();
        Some(self.cell(node))
    }

    // The cell of an upload, where there is such an upload.
    fn held(&self, upload: u32) -> Option<Cell>
        ensures { MatchOption result (length self.now.uploads ≤ upload) (IsHeld self.now upload) }
    {
        let held = self.uploads();
        if upload as usize >= held.len() {
            return None;
        }
        Some(held[upload as usize].design().cell())
    }

    fn admits_one(&self, c: Cell) -> bool
        ensures { IsTrue result ↔ IsAdmitted self.now (One c) }
    {
        self.frame().has(c) && (c.t == 0 || c.k == c.v)
    }

    fn admits_runs(&self, c: Cell) -> bool
        ensures { IsTrue result ↔ IsAdmitted self.now (Runs c) }
    {
        self.frame().has(c) && c.t == 1
    }

    fn admits_all(&self, c: Cell) -> bool
        ensures { IsTrue result ↔ IsAdmitted self.now (All c) }
    {
        choose_law();
        self.frame().has(c) && c.t == c.k
    }

    fn admits_derived(&self, upload: u32, point: u8) -> bool
        ensures { IsTrue result ↔ IsAdmitted self.now (Derived upload point) }
    {
        match self.held(upload) {
            Some(c) => 1 <= c.t && 2 <= c.v && point < c.v,
            None => false,
        }
    }

    fn admits_derived2(&self, upload: u32, first: u8, second: u8) -> bool
        ensures { IsTrue result ↔ IsAdmitted self.now (Derived2 upload first second) }
    {
        match self.held(upload) {
            Some(c) => 2 <= c.t && 3 <= c.v && first < second && second < c.v,
            None => false,
        }
    }

    fn admits_drop(&self, child: u64) -> bool
        ensures { IsTrue result ↔ IsAdmitted self.now (Drop child) }
    {
        match self.found(child) {
            Some(c) => 2 <= c.v && c.k < c.v,
            None => false,
        }
    }

    fn admits_add(&self, child: u64) -> bool
        ensures { IsTrue result ↔ IsAdmitted self.now (Add child) }
    {
        let top = self.frame().top;
        match self.found(child) {
            Some(c) => c.v < top.v && c.k < top.k,
            None => false,
        }
    }

    fn admits_grow(&self, child: u64) -> bool
        ensures { IsTrue result ↔ IsAdmitted self.now (Grow child) }
    {
        let top = self.frame().top;
        match self.found(child) {
            Some(c) => c.k < c.v && c.k < top.k,
            None => false,
        }
    }

    fn admits_lower(&self, child: u64) -> bool
        ensures { IsTrue result ↔ IsAdmitted self.now (Lower child) }
    {
        match self.found(child) {
            Some(c) => 1 <= c.t,
            None => false,
        }
    }

    fn admits_product(&self, c: Cell, v1: u8, parts: &[Part; 9], count: u8) -> bool
        ensures { IsTrue result ↔ IsAdmitted self.now (Product c v1 parts.now count) }
    {
        if !self.frame().has(c) || v1 < 1 || v1 >= c.v || count > 9 {
            return false;
        }
        let own = &parts[..count as usize];
        self.are_parts(c, v1, own) && self.parts_are_cheap(own)
    }

    // The parts serve each number of points that a set can have on the first side, and each has its nodes.
    fn are_parts(&self, c: Cell, v1: u8, parts: &[Part]) -> bool
        requires { v1 < c.v }
        ensures { IsTrue result ↔ ArePartsFrom self.now c v1 (c.t - (c.v - v1)) (min c.t v1) parts.now }
    {
        let mut from = u64::from(c.t.saturating_sub(c.v - v1));
        for part in parts {
            if u64::from(part.a) != from || part.b < part.a || !self.is_part(c, v1, part) {
                return false;
            }
            from = u64::from(part.b) + 1;
        }
        from == u64::from(c.t.min(v1)) + 1
    }

    fn is_part(&self, c: Cell, v1: u8, part: &Part) -> bool
        requires { v1 < c.v }
        ensures { IsTrue result ↔ IsPart self.now c v1 part.now }
    {
        if !fits(c, v1, part) {
            return false;
        }
        match (self.found(part.first), self.found(part.second)) {
            (Some(x), Some(y)) => {
                x.v == v1
                    && x.k == part.l
                    && x.t == part.b
                    && y.v == c.v - v1
                    && y.k == c.k.saturating_sub(part.l)
                    && y.t == c.t.saturating_sub(part.a)
            }
            _ => false,
        }
    }

    // The products of the costs of the parts' factors are together below the limit.
    fn parts_are_cheap(&self, parts: &[Part]) -> bool
        requires { AllByRecursion (λ i. i < length self.now.rules) (flat_map (λ p. p.first ∷ p.second ∷ []) parts.now) }
        ensures { IsTrue result ↔ (sum_of_products (tree_costs (trees_at (trees_of self.now.uploads self.now.rules)
            (flat_map (λ p. p.first ∷ p.second ∷ []) parts.now))) < COST_LIMIT) }
    {
        let mut cost = 0;
        for part in parts {
            match cost_with(cost, self.cost(part.first), self.cost(part.second)) {
                Some(sum) => cost = sum,
                None => return false,
            }
        }
        true
    }

    fn admits_induced(&self, c: Cell, upload: u32, children: &[u64; 26]) -> bool
        ensures { IsTrue result ↔ IsAdmitted self.now (Induced c upload children.now) }
    {
        price_by_row();
        if !self.frame().has(c) {
            return false;
        }
        match self.held(upload) {
            Some(own) if own.t == c.t && c.v <= own.v => {
                let up = self.upload(upload);
                self.has_cuts(c, up, children) && self.cuts_are_cheap(c, up, children)
            }
            _ => false,
        }
    }

    // The node for each size of cut is there, and of its cell.
    fn has_cuts(&self, c: Cell, up: &Accepted, children: &[u64; 26]) -> bool
        requires { c.v ≤ up.now.cell.v }
        ensures { IsTrue result ↔ AllByRecursion (IsCutChild self.now c children.now) (sizes_of up.now c.k c.v) }
    {
        for l in cut_sizes(up, c).as_slice() {
            if !self.has_cut(c, *l, children[*l as usize]) {
                return false;
            }
        }
        true
    }

    fn has_cut(&self, c: Cell, l: u64, child: u64) -> bool
        ensures { IsTrue result ↔ ((child < length self.now.rules)
            × (root_cell (node_tree self.now child) ≡ record { v = l; k = c.k; t = c.t })) }
    {
        match self.found(child) {
            Some(x) => u64::from(x.v) == l && x.k == c.k && x.t == c.t,
            None => false,
        }
    }

    // The cuts cost together less than the limit.
    fn cuts_are_cheap(&self, c: Cell, up: &Accepted, children: &[u64; 26]) -> bool
        requires narrow { c.v ≤ up.now.cell.v }
        requires covering { IsCovering up.now }
        requires there { AllByRecursion (λ i. i < length self.now.rules)
            (map (λ l. slice_index children.now l) (sizes_of up.now c.k c.v)) }
        ensures { IsTrue result ↔ (row_price (λ x. tree_cost (node_tree self.now (slice_index children.now x.v))) c
            (cut_counts c.v up.now.blocks) < COST_LIMIT) }
    {
        sizes_of_cuts();
        let counts = up.counts(u64::from(c.v));
        let mut cost = 0;
        for l in 0..26u64 {
            let count = counts[l as usize];
            if count > 0 {
                let one = self.cut_cost(c, l, children[l as usize]);
                match cost_with(cost, u64::from(count), one) {
                    Some(sum) => cost = sum,
                    None => return false,
                }
            }
        }
        true
    }
}

// Both factors of the part are cells.
fn fits(c: Cell, v1: u8, part: &Part) -> bool
    requires { v1 < c.v }
    ensures { IsTrue result ↔ PartFits c v1 (record { a = part.now.a; b = part.now.b; l = part.now.l }) }
{
    part.b <= part.l
        && part.l <= v1
        && u64::from(part.l) + u64::from(c.t) <= u64::from(c.k) + u64::from(part.a)
        && u64::from(c.k) <= u64::from(part.l) + u64::from(c.v - v1)
}

// The sum of a cost and of a number of others, where it is below the limit: no product wraps.
fn cost_with(cost: u64, count: u64, each: u64) -> Option<u64>
    requires { cost < COST_LIMIT }
    ensures { MatchOption result (COST_LIMIT ≤ cost + count * each)
        (λ n. (n ≡ cost + count * each) × (n < COST_LIMIT)) }
{
    match count.checked_mul(each) {
        Some(more) if more < COST_LIMIT - cost => Some(cost + more),
        _ => None,
    }
}
