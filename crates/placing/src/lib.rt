// The rule of placing: of some items, repeatedly the smallest not yet placed whose needed items are all placed. How many needs of each item
// are unmet is counted once; each placing lowers the counts of those that need what is placed. Items that need only earlier ones are
// placed as they stand.

#![tactic(auto)]

ghost use Rattle.std.specs.Prelude.{◌≡◌, true, false, [], ◌↔◌, ℕ, ◌+◌, ◌*◌, ◌≤◌, ◌<◌, length, get_or, take, MatchOption};
ghost use Rattle.order.specs.LabelLists.{one, count, ◌∈◌, filter};
ghost use Rattle.marks.specs.Marks.{mark};
ghost use Rattle.marks.specs.Walk.{word_left};
ghost use Rattle.placing.specs.UnmetCounts.{needed, AllBelow, MaskedRow, Raisable, RaisedBy, LoweredBy, InRows, Fits, Ordered, State, Placed};

use marks::WordMarks;

// One unmet need more for each mark of a word.
fn raise_word(word: WordMarks, unmet: &mut [u16])
    requires { AllBelow (word_left word) (length unmet.old) × Raisable (λ (p : ℕ). count p (word_left word)) unmet.old }
    ensures { RaisedBy (λ (p : ℕ). count p (word_left word)) unmet.old unmet.new }
{
    for p in word {
        unmet[p] += 1;
    }
}

// One unmet need more for each item that needs q.
fn raise(square: &[u64], w: usize, mask: &[u64], q: usize, unmet: &mut [u16])
    requires row { MaskedRow square.now mask.now unmet.old w q }
    requires raisable { Raisable (λ (p : ℕ). one (needed square.now mask.now w p q)) unmet.old }
    ensures { RaisedBy (λ (p : ℕ). one (needed square.now mask.now w p q)) unmet.old unmet.new }
{
    if !marks::has_mark(mask, w, 0, q) {
        return;
    }
    for j in 0..w {
        raise_word(marks::common_marks_in(square, w, q, mask, j), unmet);
    }
}

// One unmet need less for each mark of a word. What so comes to 0 is ready.
fn lower_word(word: WordMarks, w: usize, unmet: &mut [u16], ready: &mut [u64])
    requires below { AllBelow (word_left word) (length unmet.old) × AllBelow (word_left word) (64 * w) × (w ≤ length ready.old) }
    requires by_index { (p : ℕ) → count p (word_left word) ≤ get_or unmet.old p 0 }
    ensures { LoweredBy (λ (p : ℕ). count p (word_left word)) unmet.old ready.old unmet.new ready.new w }
{
    for p in word {
        unmet[p] -= 1;
        if unmet[p] == 0 {
            marks::put_mark(ready, w, 0, p);
        }
    }
}

// One unmet need less for each item that needs q.
fn lower(square: &[u64], w: usize, mask: &[u64], q: usize, unmet: &mut [u16], ready: &mut [u64])
    requires row { MaskedRow square.now mask.now unmet.old w q }
    requires by_index { ((p : ℕ) → one (needed square.now mask.now w p q) ≤ get_or unmet.old p 0) × (w ≤ length ready.old) }
    ensures { LoweredBy (λ (p : ℕ). one (needed square.now mask.now w p q))
        unmet.old ready.old unmet.new ready.new w }
{
    if !marks::has_mark(mask, w, 0, q) {
        return;
    }
    for j in 0..w {
        let needing = marks::common_marks_in(square, w, q, mask, j);
        lower_word(needing, w, unmet, ready);
    }
}

// The cells of the items become 0.
pub fn clear_cells(items: &[u16], cells: &mut [u16])
    requires { AllBelow items.now (length cells.old) }
    ensures { (p : ℕ) → p ∈ items.now → get_or cells.new p 0 ≡ 0 }
{
    for &x in items {
        cells[usize::from(x)] = 0;
    }
}

// How many of the items each of them needs.
fn count_needs(items: &[u16], square: &[u64], w: usize, mask: &[u64], unmet: &mut [u16])
    requires fits { Fits items.now square.now mask.now unmet.old w }
    requires by_index { (p : ℕ) → p ∈ items.now → get_or unmet.old p 0 ≡ 0 }
    ensures { (p : ℕ) → p ∈ items.now → get_or unmet.new p 0 ≡ length (filter (needed square.now mask.now w p) items.now) }
{
    for &x in items {
        raise(square, w, mask, usize::from(x), unmet);
    }
}

// The items that need nothing.
fn mark_ready(items: &[u16], w: usize, unmet: &[u16], ready: &mut [u64])
    requires all_below { AllBelow items.now (length unmet.now) × AllBelow items.now (64 * w) × (w ≤ length ready.old) }
    requires by_index { (p : ℕ) → mark ready.old w 0 p ≡ false }
    ensures { (p : ℕ) → (mark ready.new w 0 p ≡ true) ↔ ((p ∈ items.now) × (get_or unmet.now p 0 ≡ 0)) }
{
    for &x in items {
        let p = usize::from(x);
        if unmet[p] == 0 {
            marks::put_mark(ready, w, 0, p);
        }
    }
}

// Nothing is placed yet.
fn start(
    items: &[u16],
    square: &[u64],
    w: usize,
    mask: &[u64],
    unmet: &mut [u16],
    ready: &mut [u64],
)
    requires fits { Fits items.now square.now mask.now unmet.old w }
    requires w_in_bounds { w ≤ length ready.old }
    ensures { State (needed square.now mask.now w) items.now [] unmet.new ready.new w }
{
    clear_cells(items, unmet);
    count_needs(items, square, w, mask, unmet);
    marks::clear_marks(ready, w);
    mark_ready(items, w, unmet, ready);
}

// Places the items by their counts. Answers how many; fewer than there are if it gets stuck.
fn place_counted(
    items: &[u16],
    square: &[u64],
    w: usize,
    mask: &[u64],
    unmet: &mut [u16],
    ready: &mut [u64],
    order: &mut [u16],
) -> usize
    requires fits { Fits items.now square.now mask.now unmet.old w }
    requires w_in_bounds { (w ≤ length ready.old) × (length items.now ≤ length order.old) }
    ensures { Placed (needed square.now mask.now w) items.now order.new result }
{
    start(items, square, w, mask, unmet, ready);
    for k in 0..items.len() {
        let Some(q) = marks::first_mark(ready, w) else {
            return k;
        };
        marks::drop_mark(ready, w, 0, q);
        order[k] = q as u16;
        lower(square, w, mask, q, unmet, ready);
    }
    items.len()
}

// ---- items that are in order as they stand

// The first item that needs q, if one up to q does; else none, or one past q.
fn first_needing(square: &[u64], w: usize, mask: &[u64], q: usize) -> Option<usize>
    requires { (w ≤ 1000) × (q < 64 * w) × (q * w + w ≤ length square.now) × (w ≤ length mask.now) }
    ensures { MatchOption result ((p : ℕ) → p ≤ q → needed square.now mask.now w p q ≡ false) (λ r. (p : ℕ) → p < r → needed square.now mask.now w p q ≡ false) }
{
    if !marks::has_mark(mask, w, 0, q) {
        return None;
    }
    marks::common_marks_within(square, w, q, mask, q / 64 + 1).next()
}

// Whether every item is known to need only such as stand before it.
fn are_in_order(items: &[u16], square: &[u64], w: usize, mask: &[u64]) -> bool
    requires { InRows items.now square.now mask.now w }
    ensures { result ≡ true → Ordered (needed square.now mask.now w) items.now }
{
    for &x in items {
        let q = usize::from(x);
        if let Some(p) = first_needing(square, w, mask, q)
            && p <= q
        {
            return false;
        }
    }
    true
}

// The items as they stand, by a loop: the library's `copy_from_slice` would have the archive for C call `memmove`.
fn copy_items(items: &[u16], order: &mut [u16])
    requires { length items.now ≤ length order.old }
    ensures { take (length items.now) order.new ≡ items.now }
{
    for (k, &item) in items.iter().enumerate() {
        order[k] = item;
    }
}

// Places the items in the order. Answers how many; fewer than there are if it gets stuck. In most sheets items need only earlier ones:
// then nothing is counted.
pub fn place(
    items: &[u16],
    square: &[u64],
    w: usize,
    mask: &[u64],
    unmet: &mut [u16],
    ready: &mut [u64],
    order: &mut [u16],
) -> usize
    requires fits { Fits items.now square.now mask.now unmet.old w }
    requires w_in_bounds { (w ≤ length ready.old) × (length items.now ≤ length order.old) }
    ensures { Placed (needed square.now mask.now w) items.now order.new result }
{
    if are_in_order(items, square, w, mask) {
        copy_items(items, order);
        return items.len();
    }
    place_counted(items, square, w, mask, unmet, ready, order)
}
