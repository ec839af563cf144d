// Rows 16 to 18 for an order list. One row of marks has the values that the list has still to name: a position that is not in it is bad
// by row 17, what is in it at the end is missing, and a value whose reach row meets it comes early.

#![tactic(auto)]

ghost use Rattle.std.specs.Prelude.{◌≡◌, true, None, [], ◌↔◌, ℕ, ◌+◌, ◌*◌, ◌≤◌, length};
ghost use Rattle.refusals.specs.Refusal.{or_else};
ghost use Rattle.order.specs.Following.{labels_of, first_position, place17, place18};
ghost use Rattle.order.specs.Rows16to18.{cycle_bad, order_bad};
ghost use Rattle.marks.specs.Marks.{mark};
ghost use Rattle.reach.specs.MarkRows.{width, Blank, AllMarkRows, RowsRoom};
ghost use Rattle.following.specs.Left.{Values, Left, lacks, awaits, Meets};
ghost use Rattle.reach.specs.FoundPlace.{found_place};
ghost use Rattle.following.specs.Told.{told_at};

use cells::ReadTable;
use kinds::Kind;
use refusals::{Row, Verdict};

// ---- marks

// Whether the first row has mark q, which may be any number.
fn holds(left: &[u64], w: usize, q: usize) -> bool
    requires { (w ≤ length left.now) × (w ≤ 1000) }
    ensures { result ≡ mark left.now w 0 q }
{
    q < 64 * w && marks::has_mark(left, w, 0, q)
}

// Whether row v of the square has a mark that is left.
fn meets(square: &[u64], left: &[u64], w: usize, v: usize) -> bool
    requires { (v * w + w ≤ length square.now) × (w ≤ length left.now) }
    ensures { (result ≡ true) ↔ Meets square.now left.now w v }
{
    let a = v * w;
    for j in 0..w {
        if square[a + j] & left[j] != 0 {
            return true;
        }
    }
    false
}

// Marks every value.
fn mark_values(sheet: ReadTable, left: &mut [u64])
    requires { width sheet.n ≤ length left.old }
    ensures { Values sheet.entry.cells.now sheet.entry.n left.new }
{
    let w = sheet.n / 64 + 1;
    marks::clear_marks(left, w);
    for v in 1..sheet.n + 1 {
        if sheet.kind(v) == Kind::Value {
            marks::put_mark(left, w, 0, v);
        }
    }
}

// ---- row 17

// The first position whose label has no mark left. Each label before it loses its mark.
fn first_wrong(order: &[i64], left: &mut [u64], w: usize) -> Option<usize>
    requires { (w ≤ length left.old) × (w ≤ 1000) }
    ensures value { result ≡ found_place (first_position (lacks left.old w) [] 1 (labels_of order.now)) }
    ensures left { result ≡ None → Left left.old w (labels_of order.now) left.new }
{
    for (i, cell) in order.iter().enumerate() {
        let label = cells::nat_of(*cell);
        if !holds(left, w, label) {
            return Some(i + 1);
        }
        marks::drop_mark(left, w, 0, label);
    }
    None
}

// The row's place: such a position, or one past the end if a value is left.
fn listed_place(sheet: ReadTable, order: &[i64], left: &mut [u64]) -> Option<usize>
    requires { width sheet.n ≤ length left.old }
    ensures { result ≡ found_place (place17 sheet.entry.cells.now sheet.entry.n order.now) }
{
    let w = sheet.n / 64 + 1;
    mark_values(sheet, left);
    if let Some(place) = first_wrong(order, left, w) {
        return Some(place);
    }
    marks::first_mark(left, w)?;
    Some(order.len() + 1)
}

// ---- row 18

// The first position whose label's row meets what is left, the label itself included.
fn first_early(order: &[i64], square: &[u64], left: &mut [u64], w: usize) -> Option<usize>
    requires w_in_bounds { w ≤ length left.old }
    requires by_index { (q : ℕ) → mark left.old w 0 q ≡ true → q * w + w ≤ length square.now }
    requires order_value { first_position (lacks left.old w) [] 1 (labels_of order.now) ≡ 0 }
    ensures { result ≡ found_place (first_position (awaits square.now left.old w) [] 1 (labels_of order.now)) }
{
    for (k, cell) in order.iter().enumerate() {
        let v = cells::nat_of(*cell);
        if meets(square, left, w, v) {
            return Some(k + 1);
        }
        marks::drop_mark(left, w, 0, v);
    }
    None
}

// The row's place, where row 17 finds nothing.
fn early_place(sheet: ReadTable, order: &[i64], square: &[u64], left: &mut [u64]) -> Option<usize>
    requires rows { RowsRoom sheet.n square.now × AllMarkRows sheet.cells.now sheet.n 7 square.now }
    requires room { width sheet.n ≤ length left.old }
    requires listed { place17 sheet.cells.now sheet.n order.now ≡ 0 }
    ensures { result ≡ found_place (place18 sheet.entry.cells.now sheet.entry.n order.now) }
{
    mark_values(sheet, left);
    first_early(order, square, left, sheet.n / 64 + 1)
}

// ---- the rows in turn

// A row's verdict by the place where it finds something.
fn told_at(row: Row, place: Option<usize>) -> Verdict
    ensures { result ≡ told_at row place }
{
    match place {
        Some(p) => Err(row.at(p as u64)),
        None => Ok(()),
    }
}

// Rows 17 and 18.
fn check_list(sheet: ReadTable, order: &[i64], square: &[u64], left: &mut [u64]) -> Verdict
    requires rows { RowsRoom sheet.n square.now × AllMarkRows sheet.cells.now sheet.n 7 square.now }
    requires room { width sheet.n ≤ length left.old }
    ensures { result ≡ order_bad sheet.entry.cells.now sheet.entry.n order.now }
{
    told_at(Row::Listed, listed_place(sheet, order, left))?;
    told_at(Row::Early, early_place(sheet, order, square, left))
}

// Rows 16 to 18, in a blank square.
fn check_in(sheet: ReadTable, order: &[i64], square: &mut [u64]) -> Verdict
    requires { RowsRoom sheet.n square.old × ((d : ℕ) → Blank sheet.n square.old d) }
    ensures { result ≡ or_else (cycle_bad sheet.entry.cells.now sheet.entry.n) (order_bad sheet.entry.cells.now sheet.entry.n order.now) }
{
    told_at(Row::Cycle, reach::find_cycle(sheet, cells::TARGET, square))?;
    let mut left = [0u64; 17];
    check_list(sheet, order, square, &mut left)
}

// The same, in a square of that many words.
fn check_sized<const WORDS: usize>(sheet: ReadTable, order: &[i64]) -> Verdict
    requires { ((sheet.n + 1) * width sheet.n ≤ WORDS) × (WORDS ≤ 17425) }
    ensures { result ≡ or_else (cycle_bad sheet.entry.cells.now sheet.entry.n) (order_bad sheet.entry.cells.now sheet.entry.n order.now) }
{
    let mut square = [0u64; WORDS];
    check_in(sheet, order, &mut square)
}

// Rows 16 to 18. The square goes by the size of the sheet, since it is zeroed at each call.
pub fn check_order(sheet: ReadTable, order: &[i64]) -> Verdict
    ensures { result ≡ or_else (cycle_bad sheet.entry.cells.now sheet.entry.n) (order_bad sheet.entry.cells.now sheet.entry.n order.now) }
{
    match sheet.n {
        0..=127 => check_sized::<256>(sheet, order),
        128..=255 => check_sized::<1024>(sheet, order),
        256..=511 => check_sized::<4096>(sheet, order),
        _ => check_sized::<17425>(sheet, order),
    }
}
