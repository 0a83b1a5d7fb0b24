// One row more, and one row less, among rows of words at the start of a lent slice, by a gap that is opened or closed. The rows may be any, such as those of
// attributes beside the keys; the width k and the capacity are the caller's.
#![tactic(auto)]

ghost use Rattle.std.specs.Prelude.{◌≡◌, ◌+◌, ◌*◌, ◌≤◌, ◌<◌, length};
ghost use Rattle.rows.specs.Rows.{inserted, removed};

// One row more among the first n, before place `at`: a key, or what stands beside one. The rows from there on move one row right.
#[tactic(auto, using(crate::proofs::Moved::row_inserted))]
pub fn insert(s: &mut [u32], n: usize, at: usize, row: &[u32])
    requires { (at ≤ n) × (n * length row.now + length row.now ≤ length s.old) }
    ensures { s.new ≡ inserted n at row.now s.old }
{
    let k = row.len();
    let from = at * k;
    let behind = from + k;
    s.copy_within(from..n * k, behind);
    s[from..behind].copy_from_slice(row);
}

// One row less among the first n, the one at place `at`: the rows after it move one row left. The words of the last row are zero.
#[tactic(auto, using(crate::proofs::Moved::row_removed))]
pub fn remove(s: &mut [u32], n: usize, k: usize, at: usize)
    requires { (at < n) × (n * k ≤ length s.old) }
    ensures { s.new ≡ removed k n at s.old }
{
    let from = at * k;
    let end = n * k;
    s.copy_within(from + k..end, from);
    s[end - k..end].fill(0);
}
