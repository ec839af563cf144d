// Working down an order list: each label's results, which are the same whichever proper order the list is.

#![tactic(auto)]

ghost use Rattle.std.specs.Prelude.{◌≡◌, ◌*◌, ◌≤◌, length};
ghost use Rattle.order.specs.Following.{ProperList, labels_of};
ghost use Rattle.order.specs.Evaluating.{down};
ghost use Rattle.figures.specs.Figures.{evaluate_into, result_cells};
ghost use Rattle.figures.specs.Down.{Listed};

use cells::{ReadTable, clear, nat_at};
use evaluation::evaluate_into;
use numbers::Arithmetic;

// Evaluates the values that an order list names, in turn, each after every value that it reaches.
fn evaluate_down(arithmetic: Arithmetic, table: &[i64], order: &[i64], results: &mut [i64])
    requires { Listed table.now results.old order.now }
    ensures { results.new ≡ down (evaluate_into arithmetic table.now) (labels_of order.now) results.old }
{
    for i in 0..order.len() {
        let label = nat_at(order, i);
        evaluate_into(arithmetic, table, results, label);
    }
}

// The results of a sheet, by way of a list that is a proper order.
pub fn run_down(arithmetic: Arithmetic, sheet: ReadTable, order: &[i64], results: &mut [i64])
    requires { (3 * sheet.n ≤ length results.old) × ProperList sheet.cells.now order.now }
    ensures { results.new ≡ result_cells arithmetic sheet.entry.cells.now sheet.entry.n (length results.old) }
{
    clear(results);
    evaluate_down(arithmetic, sheet.cells, order, results);
}
