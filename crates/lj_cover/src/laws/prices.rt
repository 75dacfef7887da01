ghost use Rattle.std.specs.Prelude.{◌≡◌, ℕ, ◌≤◌, ◌↔◌, List, ◌++◌, map, length};
ghost use Rattle.std.specs.List.{AllByRecursion, AllZip, Contains, filter};
ghost use Rattle.lj_base.specs.Blocks.{AreBlocks, Ascends};
ghost use Rattle.lj_base.specs.Cells.{IsCell, Triple};
ghost use Rattle.lj_base.specs.Frames.{InFrame, Top};
ghost use Rattle.lj_base.specs.declared.Row.{Row};
ghost use Rattle.lj_cover.specs.Derivations.{DerivableIn};
ghost use Rattle.lj_cover.specs.Instances.{AreUploads, IsInstance, IsRowOf, ReadSomewhere, Reads, counts_at};
ghost use Rattle.lj_cover.specs.Instances.{cut_counts, has_row, price, row_price, rows_at, rows_from};
ghost use Rattle.lj_cover.specs.Rules.{Condition, Induced, Rule, Upload, cut_cells, rule_children, rule_cost, triple};

/// The price of an induced instance depends on its upload by the row alone.
pub fn price_by_row()
    ensures by_row { (bounds : Triple → ℕ) (u : Upload) (w k : ℕ) → u.cell.k ≤ 25
        → AreBlocks u.cell.v u.cell.k u.blocks
        → price bounds (Induced u w k) ≡ row_price bounds (triple w k u.cell.t) (cut_counts w u.blocks) }
    ensures same { (bounds : Triple → ℕ) (u a : Upload) (w k : ℕ) → u.cell.k ≤ 25 → a.cell.k ≤ 25
        → AreBlocks u.cell.v u.cell.k u.blocks → AreBlocks a.cell.v a.cell.k a.blocks
        → u.cell.t ≡ a.cell.t → cut_counts w u.blocks ≡ cut_counts w a.blocks
        → price bounds (Induced u w k) ≡ price bounds (Induced a w k) }
{}

/// A price is at least each child's number, where those are at least 1, and grows with the children's costs.
pub fn price_grows()
    ensures at_least { (bounds : Triple → ℕ) (r : Rule) → Condition r
        → AllByRecursion (λ c. 1 ≤ bounds c) (rule_children r)
        → AllByRecursion (λ c. bounds c ≤ price bounds r) (rule_children r) }
    ensures grows { (r : Rule) (ms ns : List ℕ) → AllZip (λ m n. m ≤ n) ms ns → rule_cost r ms ≤ rule_cost r ns }
{}

/// The price of an instance by numbers that are derivable is derivable: the children's derivations are joined under its
/// rule.
pub fn prices_are_derivable()
    ensures { (frame : Top) (uploads : List Upload) (bounds : Triple → ℕ) (c : Triple) (r : Rule)
        → AreUploads frame uploads
        → ((d : Triple) → InFrame frame d → DerivableIn frame uploads d (bounds d))
        → InFrame frame c → IsInstance frame uploads c r → DerivableIn frame uploads c (price bounds r) }
{}

/// At a cell of the frame each upload with a row there has an induced instance, whose children are in the frame.
pub fn induced_has_instances()
    ensures instance { (frame : Top) (uploads : List Upload) (c : Triple) (u : Upload) → InFrame frame c
        → Contains uploads u → u.cell.t ≡ c.t → c.v ≤ u.cell.v → IsInstance frame uploads c (Induced u c.v c.k) }
    ensures children { (frame : Top) (c : Triple) (bs : List (List ℕ)) → InFrame frame c
        → AllByRecursion (InFrame frame) (cut_cells c.t c.k c.v bs) }
{}

/// The rows at a cell are those of the uploads that have one there: each has its upload's place, and the places ascend.
/// No other list is so.
pub fn rows_are_of_uploads()
    ensures rows { (uploads : List Upload) (c : Triple) (r : Row)
        → Contains (rows_at uploads c) r ↔ IsRowOf uploads c r }
    ensures places { (uploads : List Upload) (c : Triple)
        → Ascends 0 (length uploads) (map (λ (r : Row). r.upload) (rows_at uploads c)) }
    ensures one { (uploads : List Upload) (c : Triple) (rows : List Row)
        → ((r : Row) → Contains rows r ↔ IsRowOf uploads c r)
        → Ascends 0 (length uploads) (map (λ (r : Row). r.upload) rows) → rows ≡ rows_at uploads c }
    ensures counts { (uploads : List Upload) (c : Triple)
        → counts_at uploads c ≡ map (λ (u : Upload). cut_counts c.v u.blocks) (filter (has_row c) uploads) }
    ensures more { (uploads others : List Upload) (c : Triple)
        → rows_at (uploads ++ others) c ≡ rows_at uploads c ++ rows_from (length uploads) others c }
{}

/// A cell reads just the children of its instances.
pub fn reads_are_children()
    ensures each { (frame : Top) (c : Triple) (uploads : List Upload) (r : Rule) → AreUploads frame uploads
        → IsInstance frame uploads c r → AllByRecursion (Reads frame c) (rule_children r) }
    ensures all { (frame : Top) (c child : Triple) → IsCell frame.top → InFrame frame c → InFrame frame child
        → Reads frame c child → ReadSomewhere frame c child }
{}
