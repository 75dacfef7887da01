ghost use Rattle.std.specs.Prelude.{◌≡◌, ◌↔◌, ◌+◌, ◌<◌, ◌≤◌, IfSome, IsTrue, None, length};
ghost use Rattle.lj_table.specs.Differences.{AreSame, IsNextDifference};

// As many numbers are compared at once.
const PART: usize = 128;

/// The first place, from a place on, at which two lists of the same length differ. Cost: a comparison of whole slices
/// for what is equal.
pub fn next_difference(a: &[u64], b: &[u64], from: usize) -> Option<usize>
    requires from { from ≤ length a.now }
    requires same { length b.now ≡ length a.now }
    ensures some { IfSome result (IsNextDifference a.now b.now from) }
    ensures none { result ≡ None → AreSame a.now b.now from (length a.now) }
{
    let first = first_unequal_part(a, b, from);
    for j in first..a.len() {
        if a[j] != b[j] {
            return Some(j);
        }
    }
    None
}

/// Whether two lists of the same length are equal.
pub fn are_equal(a: &[u64], b: &[u64]) -> bool
    requires same { length b.now ≡ length a.now }
    ensures { IsTrue result ↔ (b.now ≡ a.now) }
{
    match next_difference(a, b, 0) {
        Some(_) => false,
        None => true,
    }
}

// A place from which on no whole part is equal; all before it is.
fn first_unequal_part(a: &[u64], b: &[u64], from: usize) -> usize
    requires from { from ≤ length a.now }
    requires same { length b.now ≡ length a.now }
    ensures from { from ≤ result }
    ensures inside { result ≤ length a.now }
    ensures before { AreSame a.now b.now from result }
{
    let mut i = from;
    while i + PART <= a.len() && is_same_part(a, b, i) {
        i += PART;
    }
    i
}

// Whether the parts at a place are equal. It goes through the whole parts, with no branch, several numbers at a time.
fn is_same_part(a: &[u64], b: &[u64], i: usize) -> bool
    requires inside { i + PART ≤ length a.now }
    requires same { length b.now ≡ length a.now }
    ensures { IsTrue result → AreSame a.now b.now i (i + PART) }
{
    let mut same = true;
    for j in i..i + PART {
        same &= a[j] == b[j];
    }
    same
}
