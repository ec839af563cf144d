// The plan of an accepted table: the blocks of every Group in order, listed Group by Group. It is mixed where a Group had to be opened.

#![tactic(auto)]

ghost use Rattle.std.specs.Prelude.{◌≡◌, ◌+◌, ◌*◌, ◌^◌, ◌≤◌, ◌<◌, length};
ghost use Rattle.kinds.specs.Kinds.{group_code};
ghost use Rattle.cells.specs.Table.{kind};
ghost use Rattle.order.specs.Order.{place16};
ghost use Rattle.order.specs.Order as Order;
ghost use Rattle.reach.specs.MarkRows.{width};
ghost use Rattle.needs.specs.Needs.{NeedRows};
ghost use Rattle.groups.specs.Opened.{Opened, Progress, Stopped};
ghost use Rattle.splitting.specs.Leaders.{ScratchRoom};
ghost use Rattle.planning.specs.Listing.{list_of, PutAt};
ghost use Rattle.planning.specs.PlanLength.{plan_length};
ghost use Rattle.planning.specs.Plans.{PlanIs};

use cells::ReadTable;
use kinds::Kind;
use splitting::{PlacingScratch, SearchScratch};

// What planning finds: the length of a whole or a mixed plan.
#[derive(Clone, Copy)]
pub enum Plan {
    Whole(u64),
    Mixed(u64),
}

impl Plan {
    // Its length.
    pub fn count(self) -> u64
        ensures { result ≡ plan_length self }
    {
        match self {
            Plan::Whole(count) | Plan::Mixed(count) => count,
        }
    }
}

// Why there is no plan: the smallest value that reaches itself.
#[derive(Clone, Copy)]
pub struct Cycle {
    pub label: u64,
}

// Lists a Group: its chain in order, each Group in it by this same rule in its place. A Group that is opened stands in no chain.
fn list_group(sheet: ReadTable, next: &[u16], plan: &mut [i64], at: usize, group: usize) -> usize
    requires n_in_bounds { (2 * sheet.n < length next.now) × Progress sheet.cells.now sheet.n (sheet.n + 1) next.now }
    requires le_group { (1 ≤ group) × (group ≤ sheet.n) × (kind sheet.cells.now group ≡ group_code) × (Opened sheet.cells.now sheet.n (sheet.n + 1) group → ⊥) }
    requires group_in_bounds { at + length (list_of sheet.cells.now sheet.n group) ≤ length plan.old }
    ensures { PutAt (list_of sheet.entry.cells.now sheet.entry.n group) at plan.old plan.new result }
{
    let mut to = at;
    let mut x = next[group];
    while x != 0 {
        let p = usize::from(x);
        x = next[sheet.n + p];
        let k = sheet.kind(p);
        if k == Kind::Value {
            plan[to] = p as i64;
            to += 1;
        } else if k == Kind::Group {
            to = list_group(sheet, next, plan, to, p);
        }
    }
    to
}

// ---- Groups that are stuck

// The scratch is made here, since it is zeroed: a sheet without a Group that is stuck has none of it.
fn open_stuck<const N: usize, const W: usize, const L: usize>(
    sheet: ReadTable,
    square: &mut [u64],
    next: &mut [u16],
    stuck: Option<usize>,
    items: &mut [u16],
    scratch: &mut PlacingScratch<N, W>,
)
    requires no_cycle { place16 sheet.cells.now sheet.n ≡ 0 }
    requires n_in_bounds { (2 * sheet.n < length next.old) × (sheet.n < length items.old) }
    requires room { ScratchRoom sheet.n N W × (2 * sheet.n < L) }
    requires small { (N < 2 ^ 32) × (W < 2 ^ 32) × (L < 2 ^ 32) }
    requires n_in_bounds_2 { ((sheet.n + 1) * width sheet.n ≤ length square.old) × Stopped sheet.cells.now sheet.n stuck next.old square.old }
    ensures { Progress sheet.entry.cells.now sheet.entry.n (sheet.entry.n + 1) next.new }
{
    let mut search = SearchScratch {
        list: [0; N],
        stacked: [0; W],
        stack: [0; N],
        path: [0; N],
        lead: [0; N],
        links: [0; L],
    };
    opening::open_groups(sheet, square, next, stuck, items, scratch, &mut search);
}

// ---- the plan

// The plan where there is no cycle: whole, or mixed if some Group is stuck.
fn list_plan<const N: usize, const W: usize, const L: usize>(
    sheet: ReadTable,
    plan: &mut [i64],
    square: &mut [u64],
) -> Plan
    requires n_in_bounds { (sheet.n ≤ length plan.old) × (place16 sheet.cells.now sheet.n ≡ 0) }
    requires room { ScratchRoom sheet.n N W × (2 * sheet.n < L) }
    requires small { (N < 2 ^ 32) × (W < 2 ^ 32) × (L < 2 ^ 32) }
    requires n_in_bounds_2 { ((sheet.n + 1) * width sheet.n ≤ length square.old) × NeedRows sheet.cells.now sheet.n square.old }
    ensures { PlanIs (Order.plan sheet.entry.cells.now sheet.entry.n) plan.old plan.new (Ok result) }
{
    let mut next = [0u16; L];
    let mut items = [0u16; N];
    let mut scratch = PlacingScratch {
        mask: [0; W],
        unmet: [0; N],
        ready: [0; W],
        order: [0; N],
    };
    groups::link_members(sheet, &mut next);
    let stuck = scratch.order_groups(sheet, square, &mut next, 1, &mut items);
    if stuck.is_none() {
        return Plan::Whole(list_group(sheet, &next, plan, 0, 1) as u64);
    }
    open_stuck::<N, W, L>(sheet, square, &mut next, stuck, &mut items, &mut scratch);
    Plan::Mixed(list_group(sheet, &next, plan, 0, 1) as u64)
}

// Row 16, and the plan, in a square of S words.
fn plan_in<const S: usize, const N: usize, const W: usize, const L: usize>(
    sheet: ReadTable,
    plan: &mut [i64],
) -> Result<Plan, Cycle>
    requires n_in_bounds { sheet.n ≤ length plan.old }
    requires room { ((sheet.n + 1) * width sheet.n ≤ S) × ScratchRoom sheet.n N W × (2 * sheet.n < L) }
    requires small { (S < 2 ^ 32) × (N < 2 ^ 32) × (W < 2 ^ 32) × (L < 2 ^ 32) }
    ensures { PlanIs (Order.plan sheet.entry.cells.now sheet.entry.n) plan.old plan.new result }
{
    let mut square = [0u64; S];
    if let Some(label) = reach::find_cycle(sheet, cells::OWNER, &mut square) {
        return Err(Cycle {
            label: label as u64,
        });
    }
    needs::needs_of(sheet, &mut square);
    Ok(list_plan::<N, W, L>(sheet, plan, &mut square))
}

// Row 16, and the plan. Square and scratch go by the size of the sheet, since they are zeroed at each call: a square of n + 1 rows of marks,
// 64 times as many cells as a row has words, and chains of two cells a label.
pub fn plan_of(sheet: ReadTable, plan: &mut [i64]) -> Result<Plan, Cycle>
    requires n_in_bounds { sheet.n ≤ length plan.old }
    ensures { PlanIs (Order.plan sheet.entry.cells.now sheet.entry.n) plan.old plan.new result }
{
    if sheet.n < 128 {
        return plan_in::<256, 128, 2, 256>(sheet, plan);
    }
    if sheet.n < 256 {
        return plan_in::<1024, 1088, 17, 2176>(sheet, plan);
    }
    if sheet.n < 512 {
        return plan_in::<4096, 1088, 17, 2176>(sheet, plan);
    }
    plan_in::<17425, 1088, 17, 2176>(sheet, plan)
}
