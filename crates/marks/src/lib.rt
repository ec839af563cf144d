// Rows of marks, one bit a mark, in words that the caller lends: a square of w words a row.

#![tactic(auto)]

ghost use Rattle.std.specs.Prelude.{◌≡◌, true, false, ◌&&◌, ℕ, ◌+◌, ◌*◌, ◌≤◌, length, take, ◌/◌, ◌<◌, eqb, ltb, MatchOption};
ghost use Rattle.order.specs.LabelLists.{one, count};
ghost use Rattle.marks.specs.Marks.{mark, InSquare, Added, Dropped, Common, Rising, First};
ghost use Rattle.marks.specs.Walk.{word_left, marks_left};

mod walk;

pub use walk::{CommonMarks, WordMarks};

// Whether row p has mark q.
pub fn has_mark(s: &[u64], w: usize, p: usize, q: usize) -> bool
    requires { InSquare s.now w p q }
    ensures { result ≡ mark s.now w p q }
{
    (s[p * w + q / 64] >> (q % 64)) % 2 == 1
}

// Row p gains mark q.
pub fn put_mark(s: &mut [u64], w: usize, p: usize, q: usize)
    requires { InSquare s.old w p q }
    ensures { Added (λ (b : ℕ). b ≡ q) s.old s.new w p }
{
    let i = p * w + q / 64;
    s[i] |= 1 << (q % 64);
}

// Row p loses mark q, which it has.
pub fn drop_mark(s: &mut [u64], w: usize, p: usize, q: usize)
    requires in_square { InSquare s.old w p q }
    requires q_value { mark s.old w p q ≡ true }
    ensures { Dropped s.old s.new w p q }
{
    let i = p * w + q / 64;
    s[i] ^= 1 << (q % 64);
}

// Row `into` gains the marks of row `from`.
pub fn merge_row(s: &mut [u64], w: usize, from: usize, into: usize)
    requires { (from * w + w ≤ length s.old) × (into * w + w ≤ length s.old) }
    ensures { Added (λ (q : ℕ). mark s.old w from q ≡ true) s.old s.new w into }
{
    let a = from * w;
    let b = into * w;
    for j in 0..w {
        s[b + j] |= s[a + j];
    }
}

// The marks that word j of row p and of the mask have in common, upward.
pub fn common_marks_in(s: &[u64], w: usize, p: usize, mask: &[u64], j: usize) -> WordMarks
    requires { (p * w + w ≤ length s.now) × (w ≤ length mask.now) × (w ≤ 1000) × (j < w) }
    ensures { (q : ℕ) → count q (word_left result) ≡ one (eqb (q / 64) j && mark s.now w p q && mark mask.now w 0 q) }
{
    WordMarks::new(j, s[p * w + j] & mask[j])
}

// The marks that the first k words of row p and of the mask have in common, upward.
pub fn common_marks_within<'a>(
    s: &'a [u64],
    w: usize,
    p: usize,
    mask: &'a [u64],
    k: usize,
) -> CommonMarks<'a>
    requires { (p * w + w ≤ length s.now) × (w ≤ length mask.now) × (w ≤ 1000) × (k ≤ w) }
    ensures counted { (q : ℕ) → count q (marks_left result) ≡ one (ltb q (64 * k) && mark s.entry.now w p q && mark mask.entry.now w 0 q) }
    ensures rising { Rising (marks_left result) }
    ensures few { length (marks_left result) ≤ 64 * k }
{
    let a = p * w;
    CommonMarks::new(&s[a..a + k], &mask[..k])
}

// The marks that row p and the mask have in common, upward.
pub fn common_marks<'a>(s: &'a [u64], w: usize, p: usize, mask: &'a [u64]) -> CommonMarks<'a>
    requires { (p * w + w ≤ length s.now) × (w ≤ length mask.now) × (w ≤ 1000) }
    ensures counted { (q : ℕ) → count q (marks_left result) ≡ one (mark s.entry.now w p q && mark mask.entry.now w 0 q) }
    ensures rising { Rising (marks_left result) }
    ensures few { length (marks_left result) ≤ 64 * w }
{
    common_marks_within(s, w, p, mask, w)
}

// Those marks, as a list. Answers how many.
pub fn list_marks(s: &[u64], w: usize, p: usize, mask: &[u64], list: &mut [u16]) -> usize
    requires { (p * w + w ≤ length s.now) × (w ≤ length mask.now) × (64 * w ≤ length list.old) × (w ≤ 1000) }
    ensures { Common s.now mask.now w p list.new result × (result ≤ 64 * w) × Rising (take result list.new) }
{
    let mut m = 0;
    for q in common_marks(s, w, p, mask) {
        list[m] = q as u16;
        m += 1;
    }
    m
}

// The first mark of the first row.
pub fn first_mark(s: &[u64], w: usize) -> Option<usize>
    requires { (w ≤ length s.now) × (w ≤ 1000) }
    ensures { MatchOption result ((q : ℕ) → mark s.now w 0 q ≡ false) (First s.now w) }
{
    for j in 0..w {
        if s[j] != 0 {
            return Some(64 * j + s[j].trailing_zeros() as usize);
        }
    }
    None
}

// No mark is left in the first row.
pub fn clear_marks(s: &mut [u64], w: usize)
    requires { w ≤ length s.old }
    ensures { (p : ℕ) → mark s.new w 0 p ≡ false }
{
    s[..w].fill(0);
}
