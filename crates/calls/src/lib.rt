// Plan, Run and Follow: document 01's rows of refusals in their order, and what each call writes. A refused call leaves nothing but zeros.

#![tactic(auto)]

ghost use Rattle.std.specs.Prelude.{◌≡◌, ◌*◌, ◌≤◌, length};
ghost use Rattle.cells.specs.Cells.{zeros};
ghost use Rattle.cells.specs.Accepted.{Accepted};
ghost use Rattle.refusals.specs.Refusal.{reply_of};
ghost use Rattle.reading.specs.Read.{table_short};
ghost use Rattle.reading.specs.ReadStages.{Passed};
ghost use Rattle.calls.specs.Buffers.{plan_buffers, run_buffers, follow_buffers};
ghost use Rattle.calls.specs.Leaves.{PlanLeaves, RunLeaves, FollowLeaves};
ghost use Rattle.calls.specs.CallStages.{short_by, head_reply, cells_to, TablePlans, SheetPlans, SheetRuns, RowsFollow, SheetFollows};

use cells::ReadTable;
use planning::Plan;
use refusals::{Refusal, Reply, Row, Verdict};

// What Plan and Run answer: the length of a whole or a mixed plan, or a refusal.
pub type PlanReply = Result<Plan, Refusal>;

// ---- rows 1 to 4: the number of labels where they find nothing. A call looks at the buffers that it is lent, lowest place first.

// Row 4 of one buffer, which is to have at least so many cells.
pub fn with_room(n: u64, cells: usize, least: usize, place: u64) -> Reply
    ensures { result ≡ reply_of (short_by least cells place) n }
{
    if cells < least {
        return Err(Row::Buffers.at(place));
    }
    Ok(n)
}

// Rows 1 to 4 of a call that is lent a table of so many cells.
fn head_table(text: &[u8], table: usize) -> Reply
    ensures { result ≡ head_reply text.now (table_short text.now table) }
{
    let n = lines::check_head(text)?;
    with_room(n, table, 8 * n as usize, 1)
}

// Rows 1 to 4 of Plan: a table and a plan.
fn head_plan(text: &[u8], table: usize, plan: usize) -> Reply
    ensures { result ≡ head_reply text.now (plan_buffers text.now table plan) }
{
    let n = head_table(text, table)?;
    with_room(n, plan, n as usize, 2)
}

// Rows 1 to 4 of Run: a table, a plan and results.
pub fn head_run(text: &[u8], table: usize, plan: usize, results: usize) -> Reply
    ensures { result ≡ head_reply text.now (run_buffers text.now table plan results) }
{
    let n = head_plan(text, table, plan)?;
    with_room(n, results, 3 * n as usize, 3)
}

// Rows 1 to 4 of Follow: a table and results, and no plan.
fn head_follow(text: &[u8], table: usize, results: usize) -> Reply
    ensures { result ≡ head_reply text.now (follow_buffers text.now table results) }
{
    let n = head_table(text, table)?;
    with_room(n, results, 3 * n as usize, 3)
}

// ---- a refusal leaves zeros

// Every cell of both buffers becomes 0.
pub fn clear_both(first: &mut [i64], second: &mut [i64])
    ensures first_after { first.new ≡ zeros (length first.old) }
    ensures second_after { second.new ≡ zeros (length second.old) }
{
    cells::clear(first);
    cells::clear(second);
}

// ---- Plan

// Row 16, and the plan of a table whose cells of n labels are accepted. Planning leaves the cells behind the order as they were, so they
// are cleared here.
fn plan_table(n: usize, table: &mut [i64], plan: &mut [i64]) -> PlanReply
    requires { Accepted (cells_to n table.old) n × (8 * n ≤ length table.old) × (n ≤ length plan.old) }
    ensures { TablePlans n table.old (length plan.old) result table.new plan.new }
{
    let sheet = ReadTable {
        cells: &table[..8 * n],
        n,
    };
    match planning::plan_of(sheet, plan) {
        Ok(made) => {
            cells::clear_from(plan, made.count() as usize);
            Ok(made)
        }
        Err(cycle) => {
            clear_both(table, plan);
            Err(Row::Cycle.at(cycle.label))
        }
    }
}

// Rows 5 to 16 of a text that rows 1 to 4 let pass, with its table and plan: Run plans by it too.
fn plan_sheet(text: &[u8], n: usize, table: &mut [i64], plan: &mut [i64]) -> PlanReply
    requires { Passed text.now n × (8 * n ≤ length table.old) × (n ≤ length plan.old) }
    ensures { SheetPlans text.now (length table.old) (length plan.old) result table.new plan.new }
{
    match reading::read_sheet(text, n, table) {
        Ok(()) => plan_table(n, table, plan),
        Err(refusal) => {
            clear_both(table, plan);
            Err(refusal)
        }
    }
}

// Plan: writes the sheet's table and its plan, and answers the plan's length and whether it is whole or mixed; or gives the first
// refusal that applies.
pub fn plan(text: &[u8], table: &mut [i64], plan: &mut [i64]) -> PlanReply
    ensures { PlanLeaves text.now (length table.old) (length plan.old) result table.new plan.new }
{
    match head_plan(text, table.len(), plan.len()) {
        Ok(n) => plan_sheet(text, n as usize, table, plan),
        Err(refusal) => {
            clear_both(table, plan);
            Err(refusal)
        }
    }
}

// ---- Run

// The plan of a text that rows 1 to 4 let pass, and the results down it, by the sheet's own arithmetic.
pub fn run_sheet(
    text: &[u8],
    n: usize,
    table: &mut [i64],
    plan: &mut [i64],
    results: &mut [i64],
) -> PlanReply
    requires { Passed text.now n × (8 * n ≤ length table.old) × (n ≤ length plan.old) × (3 * n ≤ length results.old) }
    ensures { SheetRuns text.now (length table.old) (length plan.old) (length results.old)
        result table.new plan.new results.new }
{
    let own = lines::arithmetic_of(text);
    match plan_sheet(text, n, table, plan) {
        Ok(made) => {
            let sheet = ReadTable {
                cells: &table[..8 * n],
                n,
            };
            figures::run_down(own, sheet, &plan[..made.count() as usize], results);
            Ok(made)
        }
        Err(refusal) => {
            cells::clear(results);
            Err(refusal)
        }
    }
}

// Run: works down the plan as well, and writes each value's state, number and steps. It answers as Plan does.
pub fn run(text: &[u8], table: &mut [i64], plan: &mut [i64], results: &mut [i64]) -> PlanReply
    ensures { RunLeaves text.now (length table.old) (length plan.old) (length results.old)
        result table.new plan.new results.new }
{
    match head_run(text, table.len(), plan.len(), results.len()) {
        Ok(n) => run_sheet(text, n as usize, table, plan, results),
        Err(refusal) => {
            clear_both(table, plan);
            cells::clear(results);
            Err(refusal)
        }
    }
}

// ---- Follow

// Rows 5 to 18 of a text that rows 1 to 4 let pass, and its table. Where they refuse, the table is for the caller to clear.
fn follow_rows(text: &[u8], n: usize, order: &[i64], table: &mut [i64]) -> Verdict
    requires { Passed text.now n × (8 * n ≤ length table.old) }
    ensures { RowsFollow text.now order.now (length table.old) result table.new }
{
    reading::read_sheet(text, n, table)?;
    let sheet = ReadTable {
        cells: &table[..8 * n],
        n,
    };
    following::check_order(sheet, order)
}

// The results down an order list that those rows let pass, by the sheet's own arithmetic.
fn follow_sheet(
    text: &[u8],
    n: usize,
    order: &[i64],
    table: &mut [i64],
    results: &mut [i64],
) -> Reply
    requires { Passed text.now n × (8 * n ≤ length table.old) × (3 * n ≤ length results.old) }
    ensures { SheetFollows text.now order.now (length table.old) (length results.old) result table.new results.new }
{
    let own = lines::arithmetic_of(text);
    match follow_rows(text, n, order, table) {
        Ok(()) => {
            let sheet = ReadTable {
                cells: &table[..8 * n],
                n,
            };
            figures::run_down(own, sheet, order, results);
            Ok(order.len() as u64)
        }
        Err(refusal) => {
            clear_both(table, results);
            Err(refusal)
        }
    }
}

// Follow: works down an order list that it is lent, if that is a proper order of the sheet, and answers its length.
pub fn follow(text: &[u8], order: &[i64], table: &mut [i64], results: &mut [i64]) -> Reply
    ensures { FollowLeaves text.now order.now (length table.old) (length results.old) result table.new results.new }
{
    match head_follow(text, table.len(), results.len()) {
        Ok(n) => follow_sheet(text, n as usize, order, table, results),
        Err(refusal) => {
            clear_both(table, results);
            Err(refusal)
        }
    }
}
