// The C interface: include/lindypo.h declares what is exported here. Each export is the call of its name in the library `lindypo`, with the
// same promise.

#![tactic(auto)]

ghost use Rattle.std.specs.Prelude.{length};
ghost use Rattle.reading.specs.Name.{PartLeaves};
ghost use Rattle.printing.specs.Print.{PrintLeaves};
ghost use Rattle.lindypo.specs.Exports.{ReadExport, PlanExport, RunExport, FollowExport, RetouchExport};

use lindypo::CReply;
use printing::Printed;
use reading::TextPart;

// Read.
#[unsafe(no_mangle)]
pub extern "C" fn lindypo_read(text: &[u8], table: &mut [i64]) -> CReply
    ensures { ReadExport text.now (length table.old) result table.new }
{
    lindypo::lindypo_read(text, table)
}

// Name: where the part is that `reading::name` hands back.
#[unsafe(no_mangle)]
pub extern "C" fn lindypo_name(text: &[u8], table: &mut [i64], label: i64) -> TextPart
    ensures { PartLeaves text.now (length table.old) label result table.new }
{
    lindypo::lindypo_name(text, table, label)
}

// Plan.
#[unsafe(no_mangle)]
pub extern "C" fn lindypo_plan(text: &[u8], table: &mut [i64], plan: &mut [i64]) -> CReply
    ensures { PlanExport text.now (length table.old) (length plan.old) result table.new plan.new }
{
    lindypo::lindypo_plan(text, table, plan)
}

// Run.
#[unsafe(no_mangle)]
pub extern "C" fn lindypo_run(
    text: &[u8],
    table: &mut [i64],
    plan: &mut [i64],
    results: &mut [i64],
) -> CReply
    ensures { RunExport text.now (length table.old) (length plan.old) (length results.old)
        result table.new plan.new results.new }
{
    lindypo::lindypo_run(text, table, plan, results)
}

// Follow.
#[unsafe(no_mangle)]
pub extern "C" fn lindypo_follow(
    text: &[u8],
    order: &[i64],
    table: &mut [i64],
    results: &mut [i64],
) -> CReply
    ensures { FollowExport text.now order.now (length table.old) (length results.old) result table.new results.new }
{
    lindypo::lindypo_follow(text, order, table, results)
}

// Retouch, document 02's order 4.
#[unsafe(no_mangle)]
pub extern "C" fn lindypo_retouch(
    text: &[u8],
    pairs: &[i64],
    table: &mut [i64],
    plan: &mut [i64],
    results: &mut [i64],
    changes: &mut [i64],
) -> CReply
    ensures { RetouchExport text.now pairs.now (length table.old) (length plan.old) (length results.old)
        (length changes.old) result table.new plan.new results.new changes.new }
{
    lindypo::lindypo_retouch(text, pairs, table, plan, results, changes)
}

// The program's print: no call of document 01, so a refusal is printed too.
#[unsafe(no_mangle)]
pub extern "C" fn lindypo_print(text: &[u8], out: &mut [u8]) -> Printed
    ensures { PrintLeaves text.now (length out.old) result out.new }
{
    lindypo::lindypo_print(text, out)
}
