ghost use Rattle.std.specs.Prelude.{◌≡◌, ℕ, ◌*◌, ◌^◌, ◌<◌, ◌≤◌, ◌++◌, length, map, IfOk, OnErr, OnOk};
ghost use Rattle.std.specs.List.{AllByRecursion};
ghost use Rattle.lj_base.specs.Blocks.{Covers};
ghost use Rattle.lj_text.specs.Lines.{text_lines};
ghost use Rattle.lj_text.specs.Tokens.{words};
ghost use Rattle.lj_cover.specs.Derivations.{IsDerivation, IsFrom, expand, root_cell, tree_cost};
ghost use Rattle.lj_cover.specs.Rules.{IsCovering};
ghost use Rattle.lj_deriv.specs.Nodes.{plan_tree, step_tree, steps_of};
ghost use Rattle.lj_deriv.specs.Plans.{IsNamed, IsWhole};
ghost use Rattle.lj_deriv.specs.Positions.{before, source_at, tree_share, tree_source};
ghost use Rattle.lj_deriv.specs.Texts.{Spelled, plan_text, plan_words};
ghost use Rattle.lj_deriv.specs.Trees.{children_of, rule_at, upload_at};
ghost use Rattle.lj_deriv.specs.Validity.{AreValid, IsNode};
ghost use Rattle.lj_upload.specs.Uploads.{IsAccepted};

use crate::arena::Arena;
use crate::bounded_lists::Numbers;
use crate::counts::{Counts, counts_of};
use crate::rules::Rule;
use lj_base::{Block, COST_LIMIT, Cell, Memory};
use lj_cover::laws::expansion_covers;
use lj_upload::Accepted;
use std::alloc::Global;
use std::marker::Model;

/// The derivation of one node, which stands alone. Its nodes are numbered from 0; the last is the root, and each other
/// is a child of a later one. The uploads are those that its rules name.
#[derive(Drop)]
pub struct Plan {
    arena: Arena,
    starts: Vec<u64>,
    counts: Vec<u64>,
}

impl Model for Plan {
    ghost use Rattle.std.specs.Prelude.{length};
    ghost use Rattle.lj_deriv.specs.Nodes.{Steps, steps_of};
    ghost use Rattle.lj_deriv.specs.Plans.{IsWhole};
    ghost use Rattle.lj_deriv.specs.Positions.{AreCounted};

    ghost Value = { Steps };

    ghost view = { λ p. steps_of p.arena };

    ghost invariant = { λ p. IsWhole (steps_of p.arena)
        × AreCounted (steps_of p.arena) (length p.arena.rules) p.starts.items p.counts.items };
}

impl Plan {
    /// Takes nodes that stand alone, and makes their running counts.
    pub(crate) fn of(alloc: Global, arena: Arena) -> Result<Plan, Memory>
        requires { IsWhole (steps_of arena) }
        ensures { IfOk result (λ p. p ≡ steps_of arena) }
    {
        let Counts { starts, counts } = counts_of(alloc, &arena)?;
        Ok(Plan {
            arena,
            starts,
            counts,
        })
    }

    /// The blocks of the upload that a node's rule goes through, each of which gives blocks of its own; none where the
    /// rule goes through no upload.
    pub fn source(&self, i: u64) -> &[Block]
        requires { i < length self.now.rules }
        ensures { result.now ≡ tree_source (step_tree self.now i) }
    {
        self.arena.source(i)
    }

    /// How many blocks the block at a place of a node's source gives.
    pub fn share(&self, i: u64, place: u64) -> u64
        requires there { i < length self.now.rules }
        requires inside { place < length (tree_source (step_tree self.now i)) }
        ensures { result ≡ tree_share (step_tree self.now i) (source_at (step_tree self.now i) place) }
    {
        self.arena.share(i, place)
    }

    /// How many blocks the first 64 times `j` blocks of a node's source give. It is looked up.
    pub fn before(&self, i: u64, j: u64) -> u64
        requires there { i < length self.now.rules }
        requires inside { 64 * j ≤ length (tree_source (step_tree self.now i)) }
        ensures { result ≡ before (step_tree self.now i) (64 * j) }
    {
        let start = self.starts[i as usize];
        self.counts[(start + j) as usize]
    }

    /// The cell of the derivation.
    pub fn cell(&self) -> Cell
        ensures { result ≡ root_cell (plan_tree self.now) }
    {
        self.arena.cell(self.arena.len() - 1)
    }

    /// The number of blocks that the derivation gives. They cover its cell.
    pub fn cost(&self) -> u64
        ensures cost { result ≡ tree_cost (plan_tree self.now) }
        ensures derivation { IsDerivation (plan_tree self.now) }
        ensures covers { Covers (expand (plan_tree self.now)) (root_cell (plan_tree self.now)) }
        ensures counts { length (expand (plan_tree self.now)) ≡ result }
        ensures some { 1 ≤ result }
        ensures small { result < COST_LIMIT }
        ensures from { IsFrom self.now.uploads (plan_tree self.now) }
    {
        expansion_covers();
        self.arena.cost(self.arena.len() - 1)
    }

    /// The number of its nodes. Each is reached from the root, each upload is named by one of them, and the lines of
    /// the text spell the derivation.
    pub fn len(&self) -> u64
        ensures len { result ≡ length self.now.rules }
        ensures some { 0 < result }
        ensures valid { AreValid self.now.uploads self.now.rules }
        ensures whole { IsWhole self.now }
        ensures spelled { Spelled (plan_tree self.now) (plan_text self.now) }
    {
        self.arena.len()
    }

    /// A node's rule. The children and the upload that it names are numbers of this plan.
    pub fn rule(&self, i: u64) -> &Rule
        requires { i < length self.now.rules }
        ensures { IsNode self.now.uploads self.now.rules i result.now }
    {
        self.arena.rule(i)
    }

    /// The numbers of a node's children, in the order of its rule.
    pub fn children(&self, i: u64) -> Numbers
        requires { i < length self.now.rules }
        ensures children { result ≡ children_of self.now.uploads (rule_at self.now.rules i) }
        ensures earlier { AllByRecursion (λ j. j < i) result }
    {
        self.arena.rule(i).children(self.arena.uploads())
    }

    /// The cell of a node's derivation.
    pub fn cell_of(&self, i: u64) -> Cell
        requires { i < length self.now.rules }
        ensures { result ≡ root_cell (step_tree self.now i) }
    {
        self.arena.cell(i)
    }

    /// The cost of a node's derivation, in blocks.
    pub fn cost_of(&self, i: u64) -> u64
        requires { i < length self.now.rules }
        ensures cost { result ≡ tree_cost (step_tree self.now i) }
        ensures derivation { IsDerivation (step_tree self.now i) }
        ensures some { 1 ≤ result }
        ensures small { result < COST_LIMIT }
        ensures from { IsFrom self.now.uploads (step_tree self.now i) }
    {
        self.arena.cost(i)
    }

    /// The uploads that its rules name. Each is named by a rule of a node.
    pub fn uploads(&self) -> &[Accepted]
        ensures uploads { result.now ≡ self.now.uploads }
        ensures covering { AllByRecursion IsCovering self.now.uploads }
        ensures accepted { AllByRecursion IsAccepted self.now.uploads }
        ensures ordinals { AllByRecursion (λ u. u.ordinal < 2 ^ 64) self.now.uploads }
        ensures named { (u : ℕ) → u < length self.now.uploads → IsNamed self.now u }
    {
        self.arena.uploads()
    }

    /// An upload that a rule of this plan names.
    pub fn upload(&self, u: u32) -> &Accepted
        requires { u < length self.now.uploads }
        ensures { result.now ≡ upload_at self.now.uploads u }
    {
        self.arena.upload(u)
    }
    /// Appends a line for each node: its number from 1, its rule, the cell and the cost of its derivation, and what the
    /// rule names. Children stand before parents, and the root last. The words of each line read back. It takes time
    /// for each byte.
    pub fn text(&self, out: &mut Vec<u8>) -> Result<(), Memory>
        ensures ok { OnOk result (out.new.items ≡ out.old.items ++ plan_text self.now) }
        ensures err { OnErr result (out.new.items ≡ out.old.items) }
        ensures spelled { Spelled (plan_tree self.now) (plan_text self.now) }
        ensures reads_back { map (words (plan_text self.now)) (text_lines (plan_text self.now)) ≡ plan_words self.now }
    {
        let _ = self.len();
        self.arena.text(out)
    }
}
