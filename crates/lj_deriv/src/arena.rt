ghost use Rattle.std.specs.Prelude.{◌≡◌, ℕ, ◌+◌, ◌-◌, ◌^◌, ◌<◌, ◌≤◌, [], ◌∷◌, ◌++◌, if◌then◌else◌};
ghost use Rattle.std.specs.Prelude.{length, map, max, slice_index, IfOk, OnErr, OnOk};
ghost use Rattle.std.specs.List.{AllByRecursion, flat_map};
ghost use Rattle.lj_base.specs.Frames.{InFrame};
ghost use Rattle.lj_cover.specs.Derivations.{IsIn, root_cell, tree_cost, tree_costs};
ghost use Rattle.lj_cover.specs.Rules.{IsCovering, cut_cost, sum_of_products};
ghost use Rattle.lj_cover.specs.Instances.{cut_counts, row_price};
ghost use Rattle.lj_cover.specs.Operations.{cut, has_point};
ghost use Rattle.lj_deriv.specs.Forests.{IsForestOf};
ghost use Rattle.lj_deriv.specs.Nodes.{IsDerivedIn, node_tree, plan_tree, rule_tree};
ghost use Rattle.lj_deriv.specs.Plans.{IsPlanOf};
ghost use Rattle.lj_deriv.specs.Positions.{source_at, tree_share, tree_source};
ghost use Rattle.lj_deriv.specs.Trees.{children_of, sizes_of, trees_at, trees_of, upload_at};
ghost use Rattle.lj_deriv.specs.Validity.{AreValid, IsNode, IsValid};
ghost use Rattle.lj_upload.specs.Uploads.{IsAccepted};

use crate::copying::{copy_reached, copy_roots};
use crate::forests::Forest;
use crate::limits::{MAX_ARENA_UPLOADS, MAX_NODES};
use crate::plans::Plan;
use crate::rules::{Part, Rule};
use lj_base::{Block, COST_LIMIT, Cell, Frame, Memory, binom};
use lj_cover::laws::{
    costs_are_positive, larger_cuts_have_children, points_are_tested, price_by_row, sizes_of_cuts,
};
use lj_cover::{cut_first, degree, has_both, pair_degree, runs_count};
use lj_upload::Accepted;
use std::alloc::Global;
use std::marker::Model;

// A node, with the cell and the cost of its derivation.
#[derive(Clone, Copy)]
struct Node {
    rule: Rule,
    cell: Cell,
    cost: u64,
}

/// Accepted uploads, and nodes that derive coverings from them. It only grows.
#[derive(Drop)]
pub struct Arena {
    frame: Frame,
    uploads: Vec<Accepted>,
    nodes: Vec<Node>,
    spare: u64,
}

impl Model for Arena {
    ghost use Rattle.std.specs.Prelude.{vec_capacity, vec_len};
    ghost use Rattle.lj_deriv.specs.Nodes.{Nodes};

    ghost Value = { Nodes };

    ghost use Rattle.lj_deriv.specs.Stored.{AreHeld, AreStored, HasRoom, rules_of};

    ghost view = { λ a. record {
      frame = a.frame;
      uploads = a.uploads.items;
      rules = rules_of a.nodes.items;
      spare = a.spare;
    } };

    ghost invariant = { λ a. AreStored a.frame a.uploads.items a.nodes.items × AreHeld a.frame a.uploads.items
        × HasRoom (vec_len a.nodes) a.spare (vec_capacity a.nodes) };
}

impl Arena {
    /// An arena with no uploads and no nodes. It takes no memory.
    pub fn new(alloc: Global, frame: Frame) -> Arena
        ensures { result ≡ record { frame = frame; uploads = []; rules = []; spare = 0 } }
    {
        Arena {
            frame,
            uploads: Vec::new(alloc),
            nodes: Vec::new(alloc),
            spare: 0,
        }
    }

    /// The frame in which all its cells lie.
    pub fn frame(&self) -> Frame
        ensures { result ≡ self.now.frame }
    {
        self.frame
    }

    /// The uploads that it holds, in the order in which they came.
    pub fn uploads(&self) -> &[Accepted]
        ensures uploads { result.now ≡ self.now.uploads }
        ensures few { length self.now.uploads ≤ MAX_ARENA_UPLOADS }
        ensures covering { AllByRecursion IsCovering self.now.uploads }
        ensures accepted { AllByRecursion IsAccepted self.now.uploads }
        ensures ordinals { AllByRecursion (λ u. u.ordinal < 2 ^ 64) self.now.uploads }
        ensures inside { AllByRecursion (λ u. InFrame self.now.frame u.cell) self.now.uploads }
    {
        &self.uploads
    }

    /// The number of its nodes.
    pub fn len(&self) -> u64
        ensures len { result ≡ length self.now.rules }
        ensures bounded { length self.now.rules + self.now.spare ≤ MAX_NODES }
        ensures valid { AreValid self.now.uploads self.now.rules }
    {
        self.nodes.len() as u64
    }

    /// Each node is a derivation in the frame and from the uploads. It does nothing.
    pub fn nodes_derive(&self)
        ensures { (i : ℕ) → i < length self.now.rules
            → IsDerivedIn self.now.frame self.now.uploads (node_tree self.now i) }
    {
        costs_are_positive();
        let _ = &self.nodes;
    }

    /// How many nodes can be added without taking memory.
    pub fn spare(&self) -> u64
        ensures { result ≡ self.now.spare }
    {
        self.spare
    }

    /// Appends an upload, and returns its place from 0.
    pub fn push_upload(&mut self, up: Accepted) -> Result<u32, Memory>
        requires inside { InFrame self.old.frame up.cell }
        requires few { length self.old.uploads < MAX_ARENA_UPLOADS }
        ensures place { IfOk result (λ u. u ≡ length self.old.uploads) }
        ensures ok { OnOk result (self.new ≡ record self.old { uploads = self.old.uploads ++ up ∷ [] }) }
        ensures err { OnErr result (self.new ≡ self.old) }
        ensures trees { (i : ℕ) → i < length self.old.rules → node_tree self.new i ≡ node_tree self.old i }
    {
        let _ = up.design();
        let place = self.uploads.len() as u32;
        self.uploads.push(up)?;
        Ok(place)
    }

    /// Makes room for `n` nodes. For more than `MAX_NODES` nodes there is no memory.
    pub fn reserve(&mut self, n: u64) -> Result<(), Memory>
        ensures ok { OnOk result (self.new ≡ record self.old { spare = max self.old.spare n }) }
        ensures err { OnErr result (self.new ≡ self.old) }
    {
        if n <= self.spare {
            return Ok(());
        }
        if n > MAX_NODES - self.nodes.len() as u64 {
            return Err(Memory);
        }
        self.nodes.reserve(n as usize)?;
        self.spare = n;
        Ok(())
    }

    /// The cell of a node's derivation.
    pub fn cell(&self, node: u64) -> Cell
        requires { node < length self.now.rules }
        ensures { result ≡ root_cell (node_tree self.now node) }
    {
        self.nodes[node as usize].cell
    }

    /// The cost of a node's derivation, in blocks.
    pub fn cost(&self, node: u64) -> u64
        requires { node < length self.now.rules }
        ensures cost { result ≡ tree_cost (node_tree self.now node) }
        ensures some { 1 ≤ result }
        ensures small { result < COST_LIMIT }
        ensures derived { IsDerivedIn self.now.frame self.now.uploads (node_tree self.now node) }
    {
        self.nodes_derive();
        self.nodes[node as usize].cost
    }

    /// A node's rule.
    pub fn rule(&self, node: u64) -> &Rule
        requires { node < length self.now.rules }
        ensures node { IsNode self.now.uploads self.now.rules node result.now }
        ensures inside { IsIn self.now.frame (node_tree self.now node) }
    {
        &self.nodes[node as usize].rule
    }

    /// Appends a node, and returns its number. It takes no memory.
    pub fn add(&mut self, rule: Rule) -> u64
        requires valid { IsValid self.old.uploads self.old.rules rule }
        requires inside { InFrame self.old.frame (root_cell (rule_tree self.old rule)) }
        requires room { 1 ≤ self.old.spare }
        ensures number { result ≡ length self.old.rules }
        ensures rules { self.new.rules ≡ self.old.rules ++ rule ∷ [] }
        ensures same { self.new ≡ record self.old { rules = self.new.rules; spare = self.new.spare } }
        ensures spare { self.new.spare + 1 ≡ self.old.spare }
        ensures tree { node_tree self.new result ≡ rule_tree self.old rule }
        ensures trees { (i : ℕ) → i < length self.old.rules → node_tree self.new i ≡ node_tree self.old i }
    {
        let number = self.len();
        let cell = self.cell_of_rule(&rule);
        let cost = self.cost_of_rule(&rule);
        self.nodes.push_reserved(Node { rule, cell, cost });
        self.spare -= 1;
        number
    }

    /// The derivation of a node, which stands alone: the nodes that it reaches, in order, and the uploads that they
    /// name, in order. Besides these it takes memory for one mark for each node up to this one, and for two marks and a
    /// number for each upload. An upload is copied without its table of counts where no induced node names it.
    pub fn plan(&self, alloc: Global, root: u64) -> Result<Plan, Memory>
        requires { root < length self.now.rules }
        ensures plan { IfOk result (IsPlanOf self.now root) }
        ensures tree { IfOk result (λ p. plan_tree p ≡ node_tree self.now root) }
    {
        let nodes = self.len();
        prove!(root < nodes);
        Plan::of(alloc, copy_reached(self, alloc, root)?)
    }

    /// The derivations of some nodes, which stand alone: the nodes that these reach, each once, in order, and the
    /// uploads that they name, in order. Besides these it takes memory for one mark for each node, and for two marks
    /// and a number for each upload. An upload is copied without its table of counts where no induced node names it.
    pub fn forest(&self, alloc: Global, roots: &[u64]) -> Result<Forest, Memory>
        requires { AllByRecursion (λ i. i < length self.now.rules) roots.now }
        ensures { IfOk result (IsForestOf self.now roots.now) }
    {
        let nodes = self.len();
        prove!(nodes <= MAX_NODES);
        copy_roots(self, alloc, roots)
    }

    /// An upload, by its number.
    pub fn upload(&self, u: u32) -> &Accepted
        requires { u < length self.now.uploads }
        ensures { result.now ≡ upload_at self.now.uploads u }
    {
        &self.uploads[u as usize]
    }

    /// The blocks of the upload that the node's rule goes through; none for other rules.
    pub(crate) fn source(&self, node: u64) -> &[Block]
        requires { node < length self.now.rules }
        ensures { result.now ≡ tree_source (node_tree self.now node) }
    {
        match *self.rule(node) {
            Rule::Derived { upload, .. } => self.upload(upload).design().blocks(),
            Rule::Derived2 { upload, .. } => self.upload(upload).design().blocks(),
            Rule::Induced { upload, .. } => self.upload(upload).design().blocks(),
            _ => &[],
        }
    }

    /// How many blocks the block at a place of the node's source gives.
    pub(crate) fn share(&self, node: u64, place: u64) -> u64
        requires there { node < length self.now.rules }
        requires inside { place < length (tree_source (node_tree self.now node)) }
        ensures { result ≡ tree_share (node_tree self.now node) (source_at (node_tree self.now node) place) }
    {
        sizes_of_cuts();
        larger_cuts_have_children();
        match self.rule(node) {
            Rule::Derived { upload, point } => {
                let block = self.upload(*upload).design().blocks()[place as usize];
                point_share(&block, *point)
            }
            Rule::Derived2 {
                upload,
                first,
                second,
            } => {
                let block = self.upload(*upload).design().blocks()[place as usize];
                u64::from(has_both(&block, *first, *second))
            }
            Rule::Induced {
                cell,
                upload,
                children,
            } => {
                let block = self.upload(*upload).design().blocks()[place as usize];
                self.induced_share(*cell, block, children)
            }
            _ => 0,
        }
    }

    // How many blocks one block gives that is cut.
    fn induced_share(&self, cell: Cell, block: Block, children: &[u64; 26]) -> u64
        requires { cell.k < length (cut cell.v block)
            → slice_index children.now (length (cut cell.v block)) < length self.now.rules }
        ensures { result ≡ cut_cost cell.t cell.k
            (tree_cost (node_tree self.now (slice_index children.now (length (cut cell.v block)))))
            (length (cut cell.v block)) }
    {
        let size = cut_first(block, u64::from(cell.v)).len();
        let child = children[size as usize];
        self.cut_cost(cell, size, child)
    }

    // The cell of the derivation that a rule gives over these nodes.
    fn cell_of_rule(&self, rule: &Rule) -> Cell
        requires { IsValid self.now.uploads self.now.rules rule.now }
        ensures { result ≡ root_cell (rule_tree self.now rule.now) }
    {
        match *rule {
            Rule::One { cell } => cell,
            Rule::Runs { cell } => cell,
            Rule::All { cell } => cell,
            Rule::Leaf { upload } => self.upload(upload).design().cell(),
            Rule::Derived { upload, .. } => self.upload(upload).design().cell().derived(1),
            Rule::Derived2 { upload, .. } => self.upload(upload).design().cell().derived(2),
            Rule::Drop { child } => self.cell(child).dropped(),
            Rule::Add { child } => self.cell(child).added(),
            Rule::Grow { child } => self.cell(child).grown(),
            Rule::Lower { child } => self.cell(child).lowered(),
            Rule::Product { cell, .. } => cell,
            Rule::Induced { cell, .. } => cell,
        }
    }

    // What a rule costs over these nodes.
    fn cost_of_rule(&self, rule: &Rule) -> u64
        requires { IsValid self.now.uploads self.now.rules rule.now }
        ensures { result ≡ tree_cost (rule_tree self.now rule.now) }
    {
        price_by_row();
        match rule {
            Rule::One { .. } => 1,
            Rule::Runs { cell } => runs_count(*cell),
            Rule::All { cell } => binom(u64::from(cell.v), u64::from(cell.k)),
            Rule::Leaf { upload } => self.upload(*upload).design().blocks().len() as u64,
            Rule::Derived { upload, point } => degree(self.upload(*upload).design(), *point),
            Rule::Derived2 {
                upload,
                first,
                second,
            } => pair_degree(self.upload(*upload).design(), *first, *second),
            Rule::Drop { child } => self.cost(*child),
            Rule::Add { child } => self.cost(*child),
            Rule::Grow { child } => self.cost(*child),
            Rule::Lower { child } => self.cost(*child),
            Rule::Product { parts, count, .. } => self.product_cost(&parts[..*count as usize]),
            Rule::Induced {
                cell,
                upload,
                children,
            } => self.induced_cost(*cell, self.upload(*upload), children),
        }
    }

    // Each part costs the product of the costs of its factors.
    fn product_cost(&self, parts: &[Part]) -> u64
        requires there { AllByRecursion (λ i. i < length self.now.rules)
            (flat_map (λ p. p.first ∷ p.second ∷ []) parts.now) }
        requires small { sum_of_products (tree_costs (trees_at (trees_of self.now.uploads self.now.rules)
            (flat_map (λ p. p.first ∷ p.second ∷ []) parts.now))) < COST_LIMIT }
        ensures { result ≡ sum_of_products (tree_costs (trees_at (trees_of self.now.uploads self.now.rules)
            (flat_map (λ p. p.first ∷ p.second ∷ []) parts.now))) }
    {
        let mut cost = 0;
        for part in parts {
            cost += self.cost(part.first) * self.cost(part.second);
        }
        cost
    }

    // Each size of cut costs as much as one cut, times the number of blocks that are cut to it.
    fn induced_cost(&self, cell: Cell, up: &Accepted, children: &[u64; 26]) -> u64
        requires narrow { cell.v ≤ up.now.cell.v }
        requires covering { IsCovering up.now }
        requires there { AllByRecursion (λ i. i < length self.now.rules)
            (map (λ l. slice_index children.now l) (sizes_of up.now cell.k cell.v)) }
        requires small { row_price (λ c. tree_cost (node_tree self.now (slice_index children.now c.v))) cell
            (cut_counts cell.v up.now.blocks) < COST_LIMIT }
        ensures { result ≡ row_price (λ c. tree_cost (node_tree self.now (slice_index children.now c.v))) cell
            (cut_counts cell.v up.now.blocks) }
    {
        sizes_of_cuts();
        let counts = up.counts(u64::from(cell.v));
        let mut cost = 0;
        for l in 0..26u64 {
            let count = counts[l as usize];
            if count > 0 {
                cost += u64::from(count) * self.cut_cost(cell, l, children[l as usize]);
            }
        }
        cost
    }

    // What one cut of `l` points costs.
    pub(crate) fn cut_cost(&self, cell: Cell, l: u64, child: u64) -> u64
        requires { cell.k < l → child < length self.now.rules }
        ensures { result ≡ cut_cost cell.t cell.k (tree_cost (node_tree self.now child)) l }
    {
        if l < u64::from(cell.t) {
            0
        } else if l <= u64::from(cell.k) {
            1
        } else {
            self.cost(child)
        }
    }
}

// How many blocks a block gives where those through a point are taken.
fn point_share(block: &Block, x: u8) -> u64
    ensures { result ≡ (if has_point block.now x then 1 else 0) }
{
    points_are_tested();
    u64::from(block.has(x))
}
