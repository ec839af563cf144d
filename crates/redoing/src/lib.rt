// Order 4's pairs, applied in turn to a sheet whose values have been evaluated: after each number, the values that depend on it are
// evaluated again in plan order, and no others.

#![tactic(auto)]

ghost use Rattle.std.specs.Prelude.{◌≡◌, [], ◌∷◌, ℕ, ◌+◌, ◌*◌, ◌^◌, ◌≤◌, ◌<◌, length, get_or, pos};
ghost use Rattle.std.proofs.lemmas.List.Edits.{sets};
ghost use Rattle.cells.specs.Cells.{nat_at};
ghost use Rattle.cells.specs.Limits.{size_limit, label_limit, pair_limit};
ghost use Rattle.cells.specs.Table.{owner, with_number};
ghost use Rattle.order.specs.LabelLists.{one};
ghost use Rattle.order.specs.Following.{labels_of};
ghost use Rattle.reach.specs.declared.RowState.TheVariants.{New};
ghost use Rattle.reach.specs.MarkRows.{width, Blank, MarkRow, RowsRoom, MarksRoom};
ghost use Rattle.evaluation.specs.Results.{steps_at, stored};
ghost use Rattle.evaluation.specs.Evaluation.{step_limit};
ghost use Rattle.evaluation.specs.Ready.{ResultsRoom, Evaluable};
ghost use Rattle.figures.specs.Figures.{evaluate_into};
ghost use Rattle.redoing.specs.Pairs.{pair_count, pair_label, pair_number, PairRight, PairsRight};
ghost use Rattle.redoing.specs.Redone.{is_failure};
ghost use Rattle.redoing.specs.RedoStages.{Tallied, Turned, turns, Redoable, Redid, NoneDepends, KnownWindow, Windows, FoundWindow, WindowPart};
ghost use Rattle.redoing.specs.RedoStages.{OwnersMarked, OwnersWindows, Standing, PairApplied, PairsApplied, Appliable, AllApplied};

use cells::ReadTable;
use numbers::Arithmetic;
use reach::{LinkChains, RowState};

// "For each pair, how many values were redone, how many now fail, and the sum of all step counts."
#[derive(Clone, Copy)]
pub struct Change {
    pub redone: u64,
    pub failing: u64,
    pub steps: u64,
}

// ---- sums over the results

// 1 where the label's state is a failure's, else 0.
fn failed(results: &[i64], label: usize) -> u64
    requires { ResultsRoom results.now label }
    ensures { (result ≡ one (is_failure (stored results.now label))) × (result ≤ 1) }
{
    u64::from(i64::from(evaluation::NUMBER) < results[3 * (label - 1)])
}

// The steps of the label.
fn steps_of(results: &[i64], label: usize) -> u64
    requires { ResultsRoom results.now label }
    ensures { result ≡ steps_at results.now label }
{
    cells::nat_of(results[3 * (label - 1) + 2]) as u64
}

// The sums over the results of n labels, before the first pair.
fn tally(results: &[i64], n: usize) -> Change
    requires n_in_bounds { (3 * n ≤ length results.now) × (n ≤ label_limit) }
    requires by_index { (l : ℕ) → steps_at results.now l ≤ step_limit }
    ensures { Tallied n results.now result }
{
    let mut failing = 0;
    let mut steps = 0;
    for l in 0..n {
        failing += failed(results, l + 1);
        steps += steps_of(results, l + 1);
    }
    Change {
        redone: 0,
        failing,
        steps,
    }
}

// ---- a pair

// The label of the pair at index k, from 0.
fn label_of(pairs: &[i64], k: usize) -> usize
    requires { k < pair_count pairs.now }
    ensures { result ≡ pair_label pairs.now (k + 1) }
{
    cells::nat_at(pairs, 2 * k)
}

// A pair: the label of an N line, and its new number.
#[derive(Clone, Copy)]
pub struct Pair {
    pub label: usize,
    pub number: i64,
}

// The pair at index k, from 0.
pub fn pair_at(pairs: &[i64], k: usize) -> Pair
    requires { k < pair_count pairs.now }
    ensures { (result.label ≡ pair_label pairs.now (k + 1)) × (result.number ≡ pair_number pairs.now (k + 1)) }
{
    Pair {
        label: label_of(pairs, k),
        number: cells::int_at(pairs, 2 * k + 1),
    }
}

// Its number into cell a of its label.
fn put_number(table: &mut [i64], pair: Pair)
    requires { (1 ≤ pair.label) × (8 * pair.label ≤ length table.old) }
    ensures { table.new ≡ with_number pair.label pair.number table.old }
{
    table[8 * (pair.label - 1) + cells::A] = pair.number;
}

// The three cells of the pair at index k.
fn put_change(changes: &mut [i64], k: usize, change: Change)
    requires { (3 * k + 3 ≤ length changes.old) × (change.redone < 2 ^ 63) × (change.failing < 2 ^ 63) × (change.steps < 2 ^ 63) }
    ensures { changes.new ≡ sets changes.old (3 * k) (pos change.redone ∷ pos change.failing ∷ pos change.steps ∷ []) }
{
    let redone = change.redone as i64;
    let failing = change.failing as i64;
    let steps = change.steps as i64;
    cells::put_three(changes, 3 * k, redone, failing, steps);
}

// ---- where those that depend on an owner stand in the plan

// From the first position of one that does to before the position behind the last.
#[derive(Clone, Copy)]
struct Window {
    from: u16,
    to: u16,
}

// The plan of n labels, and what its values depend on: row d of the square has what reaches d.
#[derive(Clone, Copy)]
struct MarkedPlan<'a> {
    n: usize,
    plan: &'a [i64],
    square: &'a [u64],
    ghost few: { n ≤ label_limit },
    ghost rows: { RowsRoom n square.now },
    ghost short: { length plan.now ≤ n },
    ghost labels: { (i : ℕ) → i < length plan.now → nat_at plan.now i ≤ n },
}

impl MarkedPlan<'_> {
    // Whether value v is d, or reaches it.
    fn depends(&self, d: usize, v: usize) -> bool
        requires { (v ≤ self.now.n) × (d ≤ self.now.n) }
        ensures { result ≡ turns self.now.square.now self.now.n d v }
    {
        if v == d {
            return true;
        }
        marks::has_mark(self.square, self.n / 64 + 1, d, v)
    }

    // The first position whose value depends on d, or the plan's length.
    fn window_start(&self, d: usize) -> usize
        requires { d ≤ self.now.n }
        ensures { (result ≤ length self.now.plan.now) × NoneDepends self.now.square.now self.now.n d self.now.plan.now 0 result }
    {
        for i in 0..self.plan.len() {
            if self.depends(d, cells::nat_at(self.plan, i)) {
                return i;
            }
        }
        self.plan.len()
    }

    // One past the last such position, none of which stands before `from`; `from` where there is none.
    fn window_end(&self, d: usize, from: usize) -> usize
        requires { (d ≤ self.now.n) × (from ≤ length self.now.plan.now) }
        ensures { (from ≤ result) × (result ≤ length self.now.plan.now)
            × NoneDepends self.now.square.now self.now.n d self.now.plan.now result (length self.now.plan.now) }
    {
        for i in (from..self.plan.len()).rev() {
            if self.depends(d, cells::nat_at(self.plan, i)) {
                return i + 1;
            }
        }
        from
    }

    // The window of d, unless it is known.
    fn find_window(&self, d: usize, windows: &mut [Option<Window>])
        requires owner { (d ≤ self.now.n) × (self.now.n < length windows.old) }
        requires windows { Windows self.now.square.now self.now.n self.now.plan.now windows.old }
        ensures { FoundWindow self.now.square.now self.now.n self.now.plan.now d windows.old windows.new }
    {
        if windows[d].is_some() {
            return;
        }
        let from = self.window_start(d);
        let to = self.window_end(d, from);
        windows[d] = Some(Window {
            from: from as u16,
            to: to as u16,
        });
    }

    // The windows of the owners of the pairs' lines.
    fn find_windows(&self, sheet: ReadTable, pairs: &[i64], windows: &mut [Option<Window>])
        requires own { sheet.n ≡ self.now.n }
        requires right { PairsRight sheet.cells.now pairs.now }
        requires blank { (sheet.n < length windows.old) × ((d : ℕ) → get_or windows.old d None ≡ None) }
        ensures { OwnersWindows sheet.entry.cells.now self.now.n self.now.plan.now self.now.square.now pairs.now (pair_count pairs.now) windows.new }
    {
        for k in 0..pairs.len() / 2 {
            let label = label_of(pairs, k);
            let d = sheet.cell(label, cells::OWNER);
            self.find_window(d, windows);
        }
    }
}

// ---- the values of a pair

// What all pairs go by: the arithmetic, what depends on each owner, and the owners' windows.
#[derive(Clone, Copy)]
struct Retoucher<'a> {
    arithmetic: Arithmetic,
    marked: MarkedPlan<'a>,
    windows: &'a [Option<Window>],
    ghost room: { marked.n < length windows.now },
}

impl<'a> Retoucher<'a> {
    // Evaluates a value again. What it gave to the sums goes, and what it gives now comes.
    fn redo(&self, table: &[i64], results: &mut [i64], label: usize, before: Change) -> Change
        requires evaluable { Evaluable table.now results.old label × (label ≤ self.now.marked.n) }
        requires tallied { Tallied self.now.marked.n results.old before × (before.redone ≤ label_limit) }
        ensures results_after { results.new ≡ evaluate_into self.now.arithmetic table.now results.old label }
        ensures redone_value { (result.redone ≡ before.redone + 1) × Tallied self.now.marked.n results.new result }
    {
        let failing = before.failing - failed(results, label);
        let steps = before.steps - steps_of(results, label);
        evaluation::evaluate_into(self.arithmetic, table, results, label);
        Change {
            redone: before.redone + 1,
            failing: failing + failed(results, label),
            steps: steps + steps_of(results, label),
        }
    }

    // Evaluates value v again if it depends on d.
    fn redo_dependent(
        &self,
        table: &[i64],
        d: usize,
        results: &mut [i64],
        v: usize,
        before: Change,
    ) -> Change
        requires evaluable { Evaluable table.now results.old v × (v ≤ self.now.marked.n) × (d ≤ self.now.marked.n) }
        requires tallied { Tallied self.now.marked.n results.old before × (before.redone ≤ label_limit) }
        ensures { Turned self.now.arithmetic (turns self.now.marked.square.now self.now.marked.n d v) table.now self.now.marked.n v
            results.old before results.new result }
    {
        if self.marked.depends(d, v) {
            return self.redo(table, results, v, before);
        }
        before
    }

    // Goes down a part of the plan and evaluates again what depends on d.
    fn redo_down(
        &self,
        table: &[i64],
        part: &[i64],
        d: usize,
        results: &mut [i64],
        before: Change,
    ) -> Change
        requires redoable { Redoable table.now self.now.marked.n results.old part.now self.now.marked.square.now d }
        requires tallied { Tallied self.now.marked.n results.old before × (before.redone ≡ 0) }
        ensures { Redid self.now.arithmetic table.now self.now.marked.n results.old (labels_of part.now) d before results.new result }
    {
        let mut change = before;
        for i in 0..part.len() {
            let v = cells::nat_at(part, i);
            change = self.redo_dependent(table, d, results, v, change);
        }
        change
    }

    // The part of the plan in d's window.
    fn part(&self, d: usize) -> &'a [i64]
        requires known { KnownWindow self.now.marked.square.now self.now.marked.n self.now.marked.plan.now self.now.windows.now d }
        requires few { d ≤ self.now.marked.n }
        ensures { WindowPart self.now.marked.square.now self.now.marked.n self.now.marked.plan.now d result.now }
    {
        let window = self.windows[d].unwrap();
        &self.marked.plan[usize::from(window.from)..usize::from(window.to)]
    }

    // Applies the pair at index k.
    fn retouch_pair(
        &self,
        table: &mut [i64],
        pairs: &[i64],
        k: usize,
        results: &mut [i64],
        changes: &mut [i64],
        before: Change,
    ) -> Change
        requires standing { Standing self.now.arithmetic table.old self.now.marked.n self.now.marked.plan.now (length self.now.marked.plan.now) results.old }
        requires k_bound { (k < pair_count pairs.now) × PairRight table.old pairs.now (k + 1) × (3 * pair_count pairs.now ≤ length changes.old) }
        requires row { MarkRow table.old self.now.marked.n 6 self.now.marked.square.now (owner table.old (pair_label pairs.now (k + 1))) }
        requires window { KnownWindow self.now.marked.square.now self.now.marked.n self.now.marked.plan.now self.now.windows.now
            (owner table.old (pair_label pairs.now (k + 1))) }
        requires tallied { Tallied self.now.marked.n results.old before }
        ensures { PairApplied self.now.arithmetic table.old self.now.marked.n pairs.now (k + 1) results.old changes.old
            table.new results.new changes.new result }
    {
        let pair = pair_at(pairs, k);
        put_number(table, pair);
        let d = cells::label_cell(table, pair.label, cells::OWNER);
        let part = self.part(d);
        let start = Change {
            redone: 0,
            ..before
        };
        let change = self.redo_down(table, part, d, results, start);
        put_change(changes, k, change);
        change
    }

    // Applies the pairs in turn.
    fn apply(&self, table: &mut [i64], pairs: &[i64], results: &mut [i64], changes: &mut [i64])
        requires standing { Standing self.now.arithmetic table.old self.now.marked.n self.now.marked.plan.now (length self.now.marked.plan.now) results.old
            × PairsRight table.old pairs.now × (pair_count pairs.now ≤ pair_limit) × (3 * pair_count pairs.now ≤ length changes.old) }
        requires marked { OwnersMarked table.old self.now.marked.n pairs.now (pair_count pairs.now) self.now.marked.square.now }
        requires found { OwnersWindows table.old self.now.marked.n self.now.marked.plan.now self.now.marked.square.now pairs.now
            (pair_count pairs.now) self.now.windows.now }
        ensures { PairsApplied self.now.arithmetic table.old self.now.marked.n pairs.now (pair_count pairs.now) results.old changes.old
            table.new results.new changes.new }
    {
        let mut change = tally(results, self.marked.n);
        for k in 0..pairs.len() / 2 {
            change = self.retouch_pair(table, pairs, k, results, changes, change);
        }
    }
}

// ---- the pairs in turn

// The rows of the owners of the pairs' lines: what reaches each.
fn mark_owners(
    chains: &LinkChains,
    pairs: &[i64],
    state: &mut [RowState],
    square: &mut [u64],
    stack: &mut [u16],
)
    requires column { chains.now.column ≡ 6 }
    requires right { PairsRight chains.now.sheet.cells.now pairs.now }
    requires room { MarksRoom chains.now.sheet.n state.old square.old stack.old }
    requires new { (d : ℕ) → get_or state.old d New ≡ New }
    requires blank { (d : ℕ) → Blank chains.now.sheet.n square.old d }
    ensures { OwnersMarked chains.now.sheet.cells.now chains.now.sheet.n pairs.now (pair_count pairs.now) square.new }
{
    for k in 0..pairs.len() / 2 {
        let label = label_of(pairs, k);
        let d = chains.sheet.cell(label, cells::OWNER);
        chains.visit(state, square, stack, d);
    }
}

// The same, with chains of C cells and scratch for fewer than N labels.
fn mark_in<const C: usize, const N: usize>(sheet: ReadTable, pairs: &[i64], square: &mut [u64])
    requires few { (2 * sheet.n < C) × (C ≤ 2 * label_limit + 1) × (sheet.n < N) × (N ≤ label_limit + 1) }
    requires right { PairsRight sheet.cells.now pairs.now }
    requires room { RowsRoom sheet.n square.old }
    requires blank { (d : ℕ) → Blank sheet.n square.old d }
    ensures { OwnersMarked sheet.entry.cells.now sheet.entry.n pairs.now (pair_count pairs.now) square.new }
{
    let mut links = [0; C];
    reach::link(sheet, cells::OWNER, &mut links);
    let chains = LinkChains {
        sheet,
        column: cells::OWNER,
        links: &links,
    };
    let mut state = [RowState::New; N];
    let mut stack = [0; N];
    mark_owners(&chains, pairs, &mut state, square, &mut stack);
}

// The same, with scratch of two sizes, since it is zeroed at each call.
fn mark_pairs(sheet: ReadTable, pairs: &[i64], square: &mut [u64])
    requires right { PairsRight sheet.cells.now pairs.now }
    requires room { RowsRoom sheet.n square.old }
    requires blank { (d : ℕ) → Blank sheet.n square.old d }
    ensures { OwnersMarked sheet.entry.cells.now sheet.entry.n pairs.now (pair_count pairs.now) square.new }
{
    if sheet.n < reach::FEW_LINES {
        mark_in::<{ reach::FEW_LINKS }, { reach::FEW_LINES }>(sheet, pairs, square);
        return;
    }
    mark_in::<{ reach::LINKS }, { cells::LINE_LIMIT }>(sheet, pairs, square);
}

// What a Run has completed of a sheet: how many labels it has, how many values its plan lists, and the arithmetic that it was evaluated by.
#[derive(Clone, Copy)]
pub struct Completed {
    pub n: usize,
    pub count: usize,
    pub arithmetic: Arithmetic,
}

// Applies the pairs in turn, in a square of N words.
fn apply_in<const N: usize>(
    completed: Completed,
    table: &mut [i64],
    plan: &[i64],
    pairs: &[i64],
    results: &mut [i64],
    changes: &mut [i64],
)
    requires appliable { Appliable completed table.old plan.now pairs.now results.old changes.old }
    requires room { (completed.n + 1) * width completed.n ≤ N }
    requires few { N ≤ size_limit }
    ensures { AllApplied completed table.old pairs.now results.old changes.old
        table.new results.new changes.new }
{
    let n = completed.n;
    let mut square = [0u64; N];
    let sheet = ReadTable { cells: &*table, n };
    mark_pairs(sheet, pairs, &mut square);
    let marked = MarkedPlan {
        n,
        plan: &plan[..completed.count],
        square: &square,
    };
    let mut windows: [Option<Window>; cells::LINE_LIMIT] = [None; cells::LINE_LIMIT];
    marked.find_windows(sheet, pairs, &mut windows);
    let retoucher = Retoucher {
        arithmetic: completed.arithmetic,
        marked,
        windows: &windows,
    };
    retoucher.apply(table, pairs, results, changes);
}

// Applies the pairs in turn to a table whose plan and results stand, and writes what each brought about. The square goes by the size of
// the sheet, since it is zeroed at each call; a list without a pair has none.
pub fn apply_pairs(
    completed: Completed,
    table: &mut [i64],
    plan: &[i64],
    pairs: &[i64],
    results: &mut [i64],
    changes: &mut [i64],
)
    requires { Appliable completed table.old plan.now pairs.now results.old changes.old }
    ensures { AllApplied completed table.old pairs.now results.old changes.old
        table.new results.new changes.new }
{
    if pairs.len() < 2 {
        return;
    }
    match completed.n {
        0..=127 => apply_in::<256>(completed, table, plan, pairs, results, changes),
        128..=255 => apply_in::<1024>(completed, table, plan, pairs, results, changes),
        256..=511 => apply_in::<4096>(completed, table, plan, pairs, results, changes),
        _ => apply_in::<17425>(completed, table, plan, pairs, results, changes),
    }
}
