// What the members of Groups need, made in place from the rows of what reaches each value: rows are added to those of their Groups, and
// nothing needs itself.

#![tactic(auto)]

ghost use Rattle.std.specs.Prelude.{◌+◌, ◌≤◌};
ghost use Rattle.cells.specs.Limits.{label_limit};
ghost use Rattle.reach.specs.MarkRows.{AllMarkRows, RowsRoom};
ghost use Rattle.needs.specs.Needs.{Lifting, Cut, NeedRows};

use cells::ReadTable;

// Members lie above their Group: going down, a Group's row is complete when it is met.
fn lift(sheet: ReadTable, square: &mut [u64])
    requires room { RowsRoom sheet.n square.old }
    requires all_mark_rows { AllMarkRows sheet.cells.now sheet.n 6 square.old }
    ensures { Lifting sheet.entry.cells.now sheet.entry.n 1 square.new }
{
    for k in (2..sheet.n + 1).rev() {
        if sheet.gives_values(k) {
            let o = sheet.cell(k, cells::OWNER);
            marks::merge_row(square, sheet.n / 64 + 1, k, o);
        }
    }
}

// No row keeps the mark of its own label: a member needs another one.
fn cut_diagonal(n: usize, square: &mut [u64])
    requires { (n ≤ label_limit) × RowsRoom n square.old }
    ensures { Cut n (n + 1) square.old square.new }
{
    let w = n / 64 + 1;
    for p in 1..n + 1 {
        if marks::has_mark(square, w, p, p) {
            marks::drop_mark(square, w, p, p);
        }
    }
}

// The square of needs: row q gets the marks of those that need q.
pub fn needs_of(sheet: ReadTable, square: &mut [u64])
    requires room { RowsRoom sheet.n square.old }
    requires all_mark_rows { AllMarkRows sheet.cells.now sheet.n 6 square.old }
    ensures { NeedRows sheet.entry.cells.now sheet.entry.n square.new }
{
    lift(sheet, square);
    cut_diagonal(sheet.n, square);
}
