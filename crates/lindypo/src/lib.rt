// The calls as C has them, but for their export, which the crate `lindypo_c` makes: include/lindypo.h declares them.

#![tactic(auto)]

ghost use Rattle.std.specs.Prelude.{◌≡◌, length};
ghost use Rattle.refusals.specs.Rows.{row_number};
ghost use Rattle.reading.specs.Name.{PartLeaves};
ghost use Rattle.printing.specs.Print.{PrintLeaves};
ghost use Rattle.lindypo.specs.Exports.{Answers, PlanAnswers, ReadExport, PlanExport, RunExport, FollowExport, RetouchExport};

use calls::PlanReply;
use planning::Plan;
use printing::Printed;
use reading::TextPart;
use refusals::{Refusal, Reply};

// What a call answers, as C sees it. A refused reply has count 0 and order 0.
#[repr(C)]
#[derive(Clone, Copy)]
pub struct CReply {
    pub refusal: u64,
    pub place: u64,
    pub count: u64,
    pub order: u64,
}

// An answer: no refusal.
fn answered(count: u64, order: u64) -> CReply
    ensures { (result.refusal ≡ 0) × (result.place ≡ 0) × (result.count ≡ count) × (result.order ≡ order) }
{
    CReply {
        refusal: 0,
        place: 0,
        count,
        order,
    }
}

// A refusal: no count and no order.
fn refused(refusal: Refusal) -> CReply
    ensures { (result.refusal ≡ row_number refusal.row) × (result.place ≡ refusal.place) × (result.count ≡ 0) × (result.order ≡ 0) }
{
    CReply {
        refusal: refusal.row.number(),
        place: refusal.place,
        count: 0,
        order: 0,
    }
}

// What Read and Follow answer.
fn answer_of(reply: Reply) -> CReply
    ensures { Answers reply result }
{
    match reply {
        Ok(count) => answered(count, 0),
        Err(refusal) => refused(refusal),
    }
}

// What Plan and Run answer: order 1 is whole, 2 mixed.
fn plan_answer(reply: PlanReply) -> CReply
    ensures { PlanAnswers reply result }
{
    match reply {
        Ok(Plan::Whole(count)) => answered(count, 1),
        Ok(Plan::Mixed(count)) => answered(count, 2),
        Err(refusal) => refused(refusal),
    }
}

// Read.
pub fn lindypo_read(text: &[u8], table: &mut [i64]) -> CReply
    ensures { ReadExport text.now (length table.old) result table.new }
{
    answer_of(reading::read(text, table))
}

// Name: where the part is that `reading::name` hands back.
pub fn lindypo_name(text: &[u8], table: &mut [i64], label: i64) -> TextPart
    ensures { PartLeaves text.now (length table.old) label result table.new }
{
    reading::name_part(text, table, label)
}

// Plan.
pub fn lindypo_plan(text: &[u8], table: &mut [i64], plan: &mut [i64]) -> CReply
    ensures { PlanExport text.now (length table.old) (length plan.old) result table.new plan.new }
{
    plan_answer(calls::plan(text, table, plan))
}

// Run.
pub fn lindypo_run(text: &[u8], table: &mut [i64], plan: &mut [i64], results: &mut [i64]) -> CReply
    ensures { RunExport text.now (length table.old) (length plan.old) (length results.old)
        result table.new plan.new results.new }
{
    plan_answer(calls::run(text, table, plan, results))
}

// Follow.
pub fn lindypo_follow(text: &[u8], order: &[i64], table: &mut [i64], results: &mut [i64]) -> CReply
    ensures { FollowExport text.now order.now (length table.old) (length results.old) result table.new results.new }
{
    answer_of(calls::follow(text, order, table, results))
}

// Retouch, document 02's order 4.
pub fn lindypo_retouch(
    text: &[u8],
    pairs: &[i64],
    table: &mut [i64],
    plan: &mut [i64],
    results: &mut [i64],
    changes: &mut [i64],
) -> CReply
    ensures { RetouchExport text.now pairs.now (length table.old) (length plan.old) (length results.old)
        (length changes.old) result table.new plan.new results.new changes.new }
{
    plan_answer(retouching::retouch(text, pairs, table, plan, results, changes))
}

// The program's print: no call of document 01, so a refusal is printed too.
pub fn lindypo_print(text: &[u8], out: &mut [u8]) -> Printed
    ensures { PrintLeaves text.now (length out.old) result out.new }
{
    printing::print(text, out)
}
