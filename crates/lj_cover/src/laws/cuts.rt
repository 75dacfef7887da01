ghost use Rattle.std.specs.Prelude.{◌≡◌, ℕ, ◌+◌, ◌<◌, ◌≤◌, ◌==◌, ◌↔◌, ◌⊎◌, IsTrue, List, [], map, length, slice_index};
ghost use Rattle.std.specs.Prelude.{sum};
ghost use Rattle.std.specs.List.{count_by};
ghost use Rattle.lj_base.specs.Blocks.{AreBlocks, Ascends, Has};
ghost use Rattle.lj_cover.specs.BlockLists.{at_size, blocks_of_cut, cut_sizes};
ghost use Rattle.lj_cover.specs.Cuts.{IsCutSize, sizes_in};
ghost use Rattle.lj_cover.specs.Instances.{cut_counts};
ghost use Rattle.lj_cover.specs.Operations.{cut, has_both, has_point};
ghost use Rattle.lj_cover.specs.Rules.{cut_cost};

/// A block has a point, or both of two, exactly where the test says so.
pub fn points_are_tested()
    ensures point { (b : List ℕ) (x : ℕ) → IsTrue (has_point b x) ↔ Has b x }
    ensures both { (b : List ℕ) (x y : ℕ) → IsTrue (has_both x y b) ↔ (Has b x × Has b y) }
{}

/// A cut has just the block's points below `w`, in their order.
pub fn points_of_cuts()
    ensures points { (w : ℕ) (b : List ℕ) (p : ℕ) → Has (cut w b) p ↔ (Has b p × (p < w)) }
    ensures ascends { (lo v w : ℕ) (b : List ℕ) → Ascends lo v b → Ascends lo w (cut w b) }
    ensures shorter { (w : ℕ) (b : List ℕ) → length (cut w b) ≤ length b }
    ensures narrow { (lo v w : ℕ) (b : List ℕ) → Ascends lo v b → length (cut w b) ≤ w }
{}

/// The sizes of cuts are, in order, the numbers above `k` of points that some cut has, so those that a row counts; what
/// is made for each size is found at it.
pub fn sizes_of_cuts()
    ensures sizes { (v m k w l : ℕ) (bs : List (List ℕ)) → AreBlocks v m bs
        → Has (cut_sizes k w bs) l ↔ IsCutSize k w bs l }
    ensures ascend { (k w : ℕ) (bs : List (List ℕ)) → k ≤ w → Ascends (k + 1) (w + 1) (cut_sizes k w bs) }
    ensures small { (v m k w : ℕ) (bs : List (List ℕ)) → AreBlocks v m bs → m ≤ 25 → k ≤ 25
        → Ascends (k + 1) 26 (cut_sizes k w bs) }
    ensures by_row { (v m k w : ℕ) (bs : List (List ℕ)) → AreBlocks v m bs → m ≤ 25
        → cut_sizes k w bs ≡ sizes_in k (cut_counts w bs) }
    ensures costs { (f : ℕ → ℕ) (sizes : List ℕ) (l : ℕ) → Has sizes l → at_size sizes (map f sizes) 0 l ≡ f l }
    ensures lists { (f : ℕ → List (List ℕ)) (sizes : List ℕ) (l : ℕ) → Has sizes l
        → at_size sizes (map f sizes) [] l ≡ f l }
{}

/// A cut's child counts only where the cut has more than `k` points.
pub fn larger_cuts_have_children()
    ensures cost { (t k m n l : ℕ) → (k < l → m ≡ n) → cut_cost t k m l ≡ cut_cost t k n l }
    ensures blocks { (t k : ℕ) (child other : List (List ℕ)) (c : List ℕ) → (k < length c → child ≡ other)
        → blocks_of_cut t k child c ≡ blocks_of_cut t k other c }
{}

/// A row counts each block once, by the number of its points below `w`: no block has more points than `m` or than `w`.
pub fn rows_count_blocks()
    ensures sizes { (w : ℕ) (bs : List (List ℕ)) → length (cut_counts w bs) ≡ 26 }
    ensures count { (w : ℕ) (bs : List (List ℕ)) (l : ℕ) → l < 26
        → slice_index (cut_counts w bs) l ≡ count_by (λ b. length (cut w b) == l) bs }
    ensures sum { (v m w : ℕ) (bs : List (List ℕ)) → AreBlocks v m bs → m ≤ 25 → sum (cut_counts w bs) ≡ length bs }
    ensures end { (v m w l : ℕ) (bs : List (List ℕ)) → AreBlocks v m bs → (m < l) ⊎ (w < l)
        → slice_index (cut_counts w bs) l ≡ 0 }
{}
