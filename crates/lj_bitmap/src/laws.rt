//! Laws of marks. Each function does nothing: its contract is the law.

ghost use Rattle.std.specs.Prelude.{◌≡◌, ℕ, Bool, ◌<◌, length, slice_index_or};
ghost use Rattle.lj_bitmap.specs.Marks.{is_marked, marks_of};

/// The marks of words are as many as asked for, and each is the bit of its rank.
pub fn marks_law()
    ensures count { (words : _) (n : ℕ) → length (marks_of words n) ≡ n }
    ensures bits { (words : _) (n r : ℕ) (other : Bool) → r < n
        → slice_index_or (marks_of words n) r other ≡ is_marked words r }
{}
