// Order 4's Retouch: Run, then a list of new numbers applied in turn. A refused call leaves nothing but zeros.

#![tactic(auto)]

ghost use Rattle.std.specs.Prelude.{◌≡◌, ◌==◌, ◌*◌, ◌≤◌, length};
ghost use Rattle.kinds.specs.Kinds.{number_code};
ghost use Rattle.cells.specs.Cells.{zeros};
ghost use Rattle.cells.specs.Table.{kind};
ghost use Rattle.reading.specs.ReadStages.{Passed};
ghost use Rattle.refusals.specs.Refusal.{first_bad};
ghost use Rattle.calls.specs.CallStages.{head_reply, cells_to};
ghost use Rattle.redoing.specs.Pairs.{pair_count};
ghost use Rattle.redoing.specs.RedoStages.{Standing};
ghost use Rattle.retouching.specs.Retouch.{retouch_buffers, list_bad, pair_bad, pairs_bad, RetouchLeaves};
ghost use Rattle.retouching.specs.RetouchStages.{RunRetouches, SheetRetouches};

use calls::PlanReply;
use kinds::Kind;
use redoing::Completed;
use refusals::{Reply, Row, Verdict};

// ---- rows 1 to 4

// Of Run's buffers, and of changes for a list of so many cells.
fn head_retouch(
    text: &[u8],
    pairs: &[i64],
    table: usize,
    plan: usize,
    results: usize,
    changes: usize,
) -> Reply
    ensures { result ≡ head_reply text.now (retouch_buffers text.now pairs.now table plan results changes) }
{
    let n = calls::head_run(text, table, plan, results)?;
    calls::with_room(n, changes, 3 * (pairs.len() / 2), 4)
}

// ---- rows 19 to 21

// Row 19.
fn check_list(pairs: &[i64]) -> Verdict
    ensures { result ≡ list_bad pairs.now }
{
    if pairs.len() % 2 != 0 || cells::PAIR_LIMIT < pairs.len() / 2 {
        return Err(Row::Pairs.at(0));
    }
    Ok(())
}

// Whether the label is an N line's.
fn is_number(table: &[i64], label: usize) -> bool
    ensures { result ≡ (kind table.now label == number_code) }
{
    match cells::kind_at(table, label) {
        Some(kind) => kind == Kind::Number,
        None => false,
    }
}

// Rows 20 and 21 of pair k, from 1: the row that refuses it.
fn check_pair(table: &[i64], pairs: &[i64], k: usize) -> Option<Row>
    requires { (1 ≤ k) × (k ≤ pair_count pairs.now) }
    ensures { result ≡ pair_bad table.now pairs.now k }
{
    let pair = redoing::pair_at(pairs, k - 1);
    if !is_number(table, pair.label) {
        return Some(Row::PairLabel);
    }
    if numbers::in_range(pair.number) {
        return None;
    }
    Some(Row::PairNumber)
}

// Rows 19 to 21, all pairs before any is applied.
fn check_pairs(table: &[i64], pairs: &[i64]) -> Verdict
    ensures { result ≡ pairs_bad table.now pairs.now }
{
    check_list(pairs)?;
    check_each(table, pairs)
}

// Rows 20 and 21 of all pairs, the first bad one's.
fn check_each(table: &[i64], pairs: &[i64]) -> Verdict
    ensures { result ≡ first_bad (pair_bad table.now pairs.now) 1 (pair_count pairs.now) }
{
    for k in 1..pairs.len() / 2 + 1 {
        if let Some(row) = check_pair(table, pairs, k) {
            return Err(row.at(k as u64));
        }
    }
    Ok(())
}

// ---- the call

// Every cell of all four buffers becomes 0.
fn clear_all(table: &mut [i64], plan: &mut [i64], results: &mut [i64], changes: &mut [i64])
    ensures table_after { table.new ≡ zeros (length table.old) }
    ensures plan_after { plan.new ≡ zeros (length plan.old) }
    ensures results_after { results.new ≡ zeros (length results.old) }
    ensures changes_after { changes.new ≡ zeros (length changes.old) }
{
    calls::clear_both(table, plan);
    calls::clear_both(results, changes);
}

// Rows 19 to 21 of a sheet that has been run, and the pairs applied to it, by the arithmetic that it was run by. Not inlined: a sheet that
// is refused before does not pay for the scratch of the pairs.
#[inline(never)]
fn retouch_run(
    completed: Completed,
    pairs: &[i64],
    table: &mut [i64],
    plan: &mut [i64],
    results: &mut [i64],
    changes: &mut [i64],
) -> Verdict
    requires { Standing completed.arithmetic (cells_to completed.n table.old) completed.n plan.old completed.count results.old
        × (8 * completed.n ≤ length table.old) × (3 * pair_count pairs.now ≤ length changes.old) }
    ensures { RunRetouches completed.arithmetic completed.n pairs.now table.old plan.old (length results.old) (length changes.old)
        result table.new plan.new results.new changes.new }
{
    match check_pairs(&table[..8 * completed.n], pairs) {
        Ok(()) => {
            cells::clear_from(changes, 3 * (pairs.len() / 2));
            redoing::apply_pairs(
                completed,
                &mut table[..8 * completed.n],
                plan,
                pairs,
                results,
                changes,
            );
            Ok(())
        }
        Err(refusal) => {
            clear_all(table, plan, results, changes);
            Err(refusal)
        }
    }
}

// Rows 5 to 21 of a text that rows 1 to 4 let pass, and what the call then leaves.
fn retouch_sheet(
    text: &[u8],
    n: usize,
    pairs: &[i64],
    table: &mut [i64],
    plan: &mut [i64],
    results: &mut [i64],
    changes: &mut [i64],
) -> PlanReply
    requires { Passed text.now n × (8 * n ≤ length table.old) × (n ≤ length plan.old) × (3 * n ≤ length results.old) × (3 * pair_count pairs.now ≤ length changes.old) }
    ensures { SheetRetouches text.now pairs.now (length table.old) (length plan.old) (length results.old)
        (length changes.old) result table.new plan.new results.new changes.new }
{
    let own = lines::arithmetic_of(text);
    match calls::run_sheet(text, n, table, plan, results) {
        Ok(made) => {
            let completed = Completed {
                n,
                count: made.count() as usize,
                arithmetic: own,
            };
            retouch_run(completed, pairs, table, plan, results, changes)?;
            Ok(made)
        }
        Err(refusal) => {
            cells::clear(changes);
            Err(refusal)
        }
    }
}

// Retouch: Run, then each pair's number put into its N line and the values that depend on it evaluated again. It writes the final results
// and what each pair brought about, and answers as Run does.
pub fn retouch(
    text: &[u8],
    pairs: &[i64],
    table: &mut [i64],
    plan: &mut [i64],
    results: &mut [i64],
    changes: &mut [i64],
) -> PlanReply
    ensures { RetouchLeaves text.now pairs.now (length table.old) (length plan.old) (length results.old)
        (length changes.old) result table.new plan.new results.new changes.new }
{
    match head_retouch(
        text,
        pairs,
        table.len(),
        plan.len(),
        results.len(),
        changes.len(),
    ) {
        Ok(n) => retouch_sheet(text, n as usize, pairs, table, plan, results, changes),
        Err(refusal) => {
            clear_all(table, plan, results, changes);
            Err(refusal)
        }
    }
}
