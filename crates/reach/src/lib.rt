// What each value reaches, or is reached from: a row of marks for each, made from the rows of those that it links to, so that no definition is
// looked at twice for one value. With a V its row has the Groups around it, since Groups need what their values do.

#![tactic(auto)]

ghost use Rattle.std.specs.Prelude.{◌≡◌, ◌⊎◌, ℕ, ◌+◌, ◌*◌, ◌≤◌, ◌<◌, length, get_or, take};
ghost use Rattle.kinds.specs.Kinds.{value_code};
ghost use Rattle.cells.specs.Limits.{label_limit};
ghost use Rattle.cells.specs.Table.{cell, kind, owner};
ghost use Rattle.cells.specs.Reaches.{HasPath};
ghost use Rattle.cells.specs.Accepted.{HasBody};
ghost use Rattle.order.specs.Order.{Within, place16};
ghost use Rattle.marks.specs.Marks.{mark, Added};
ghost use Rattle.reach.specs.declared.RowState.TheVariants.{New, Made};
ghost use Rattle.reach.specs.Links.{Column, Links, Around};
ghost use Rattle.reach.specs.MarkRows.{width, MarkRow, Blank, AllMarkRows, MarkRows, RowsRoom, MarksRoom};
ghost use Rattle.reach.specs.Chains.{ChainedTo, Empty};
ghost use Rattle.reach.specs.Turns.{Raised, Met, Spread, Grown, Filled, Shared, Visited};
ghost use Rattle.reach.specs.FoundPlace.{found_place};

use cells::ReadTable;
use kinds::Kind;

// ---- chains of lines

// How far the row of a definition is.
#[derive(Clone, Copy, PartialEq, Eq)]
pub enum RowState {
    New,
    Begun,
    Made,
}

// The lines of a table whose links by a column are followed, each in the chain of the definition from which its link leads, as `link` makes them.
#[derive(Clone, Copy)]
pub struct LinkChains<'a> {
    pub sheet: ReadTable<'a>,
    pub column: usize,
    pub links: &'a [u16],
    // `Column`, as a bound: a ghost field is a fact with one proof
    pub ghost column_is: { (6 ≤ column) × (column ≤ 7) },
    pub ghost room: { 2 * sheet.n < length links.now },
    pub ghost chained: { ChainedTo sheet.cells.now sheet.n column sheet.n links.now },
}

// The chains by which links by a column are followed.
pub fn link(sheet: ReadTable, column: usize, chains: &mut [u16])
    requires column { Column column }
    requires room { 2 * sheet.n < length chains.old }
    requires empty { Empty sheet.n chains.old }
    ensures { ChainedTo sheet.entry.cells.now sheet.entry.n column sheet.entry.n chains.new }
{
    for l in 1..sheet.n + 1 {
        if sheet.has_path(l) {
            // the other column
            let d = sheet.cell(l, cells::OWNER + cells::TARGET - column);
            chains[sheet.n + l] = chains[d];
            chains[d] = l as u16;
        }
    }
}

// ---- a row

// Marks the Groups around v in row d. Above one that is marked, all are.
fn mark_groups(sheet: ReadTable, square: &mut [u64], d: usize, v: usize)
    requires d_le_n { (d ≤ sheet.n) × (1 ≤ v) × (v ≤ sheet.n) }
    requires room { RowsRoom sheet.n square.old }
    requires v_value { kind sheet.cells.now v ≡ value_code }
    requires raised { Raised sheet.cells.now (mark square.old (width sheet.n) d) }
    ensures { Added (λ (q : ℕ). (1 ≤ q) × Within sheet.entry.cells.now q (owner sheet.entry.cells.now v)) square.old square.new (width sheet.entry.n) d }
{
    let w = sheet.n / 64 + 1;
    let mut g = sheet.cell(v, cells::OWNER);
    while g != 0 {
        if marks::has_mark(square, w, d, g) {
            return;
        }
        marks::put_mark(square, w, d, g);
        g = sheet.cell(g, cells::OWNER);
    }
}

// Marks e in row d and, if it is a V, the Groups around it.
fn mark_around(sheet: ReadTable, square: &mut [u64], d: usize, e: usize)
    requires d_le_n { d ≤ sheet.n }
    requires room { RowsRoom sheet.n square.old }
    requires has_body { HasBody sheet.cells.now e }
    requires raised { Raised sheet.cells.now (mark square.old (width sheet.n) d) }
    ensures { Added (λ (q : ℕ). Around sheet.entry.cells.now e q) square.old square.new (width sheet.entry.n) d }
{
    marks::put_mark(square, sheet.n / 64 + 1, d, e);
    if sheet.kind(e) == Kind::Value {
        mark_groups(sheet, square, d, e);
    }
}

// If row e is made and has d, which links to e, both reach the same: d has the same row. Answers whether it is so.
fn share_row(n: usize, state: RowState, square: &mut [u64], d: usize, e: usize) -> bool
    requires { (n ≤ label_limit) × (d ≤ n) × (e ≤ n) × RowsRoom n square.old }
    ensures { Shared n state d e square.old square.new result }
{
    let w = n / 64 + 1;
    if state == RowState::Made && marks::has_mark(square, w, e, d) {
        marks::merge_row(square, w, e, d);
        return true;
    }
    false
}

// States and stack are lent apart, since what makes a row reads the states and writes none.
impl LinkChains<'_> {
    // Where the link of a line leads.
    fn end(&self, line: usize) -> usize
        requires { HasPath self.now.sheet.cells.now line }
        ensures end { result ≡ cell self.now.sheet.cells.now line self.now.column }
        ensures has_body { HasBody self.now.sheet.cells.now result }
    {
        self.sheet.cell(line, self.column)
    }

    // The line before one in its chain; 0 where there is none.
    fn before(&self, line: usize) -> usize
        requires { (1 ≤ line) × (line ≤ self.now.sheet.n) }
        ensures { result ≡ get_or self.now.links.now (self.now.sheet.n + line) 0 }
    {
        usize::from(self.links[self.sheet.n + line])
    }

    // A link leads to f: if f is not in row d yet, it is marked, and its row is added if that is made, or else it waits on the stack.
    fn meet(
        &self,
        state: &[RowState],
        square: &mut [u64],
        stack: &mut [u16],
        d: usize,
        f: usize,
        top: usize,
    ) -> usize
        requires room { MarksRoom self.now.sheet.n state.now square.old stack.old }
        requires d_le_n { (d ≤ self.now.sheet.n) × (top ≤ self.now.sheet.n) }
        requires has_body { HasBody self.now.sheet.cells.now f }
        requires raised { Raised self.now.sheet.cells.now (mark square.old (width self.now.sheet.n) d) }
        requires raised_2 { get_or state.now f New ≡ Made → Raised self.now.sheet.cells.now (mark square.old (width self.now.sheet.n) f) }
        ensures { Met self.now.sheet.cells.now self.now.sheet.n state.now d f square.old stack.old top square.new stack.new result }
    {
        let w = self.sheet.n / 64 + 1;
        if marks::has_mark(square, w, d, f) {
            return top;
        }
        if state[f] == RowState::Made {
            // its row first: above a Group that it has, all are marked
            marks::merge_row(square, w, f, d);
            mark_around(self.sheet, square, d, f);
            return top;
        }
        mark_around(self.sheet, square, d, f);
        stack[top] = f as u16;
        top + 1
    }

    // Row d of the marks meets all that e links to. Answers the stack's height.
    fn grow(
        &self,
        state: &[RowState],
        square: &mut [u64],
        stack: &mut [u16],
        d: usize,
        e: usize,
        top: usize,
    ) -> usize
        requires room { MarksRoom self.now.sheet.n state.now square.old stack.old }
        requires d_le_n { (d ≤ self.now.sheet.n) × (get_or state.now d New ≡ Made → ⊥) }
        requires linked { HasBody self.now.sheet.cells.now e × ((e ≡ d) ⊎ Links self.now.sheet.cells.now self.now.column d e) }
        requires by_index { (f : ℕ) → get_or state.now f New ≡ Made → MarkRow self.now.sheet.cells.now self.now.sheet.n self.now.column square.old f }
        requires spread { Spread self.now.sheet.cells.now self.now.column d e (mark square.old (width self.now.sheet.n) d) (take top stack.old)
            × (top ≤ self.now.sheet.n) }
        ensures { Grown self.now.sheet.cells.now self.now.sheet.n self.now.column d e square.old top square.new stack.new result
            × (result ≤ self.now.sheet.n) }
    {
        // read once, and not again after each write to a row
        let chains = *self;
        let mut height = top;
        let mut x = usize::from(chains.links[e]);
        while x != 0 {
            let f = chains.end(x);
            height = chains.meet(state, square, stack, d, f, height);
            x = chains.before(x);
        }
        height
    }

    // Makes row d, which is blank. Only those whose own rows are not made are visited, each once.
    fn fill(&self, state: &[RowState], square: &mut [u64], stack: &mut [u16], d: usize)
        requires room { MarksRoom self.now.sheet.n state.now square.old stack.old }
        requires fact { (get_or state.now d New ≡ Made → ⊥) × HasBody self.now.sheet.cells.now d }
        requires by_index { (f : ℕ) → get_or state.now f New ≡ Made → MarkRow self.now.sheet.cells.now self.now.sheet.n self.now.column square.old f }
        requires blank { Blank self.now.sheet.n square.old d }
        ensures { Filled self.now.sheet.cells.now self.now.sheet.n self.now.column d square.old square.new }
    {
        let mut top = self.grow(state, square, stack, d, d, 0);
        while 0 < top {
            let e = usize::from(stack[top - 1]);
            top = self.grow(state, square, stack, d, e, top - 1);
        }
    }

    // Makes row d after the rows of what d links to, unless d is begun.
    pub fn visit(&self, state: &mut [RowState], square: &mut [u64], stack: &mut [u16], d: usize)
        requires room { MarksRoom self.now.sheet.n state.old square.old stack.old }
        requires mark_rows { MarkRows self.now.sheet.cells.now self.now.sheet.n self.now.column state.old square.old × HasBody self.now.sheet.cells.now d }
        ensures { Visited self.now.sheet.cells.now self.now.sheet.n self.now.column d state.old state.new square.new }
    {
        let RowState::New = state[d] else {
            return;
        };
        state[d] = RowState::Begun;
        let mut x = usize::from(self.links[d]);
        while x != 0 {
            let e = self.end(x);
            if let RowState::New = state[e] {
                self.visit(state, square, stack, e);
            }
            if share_row(self.sheet.n, state[e], square, d, e) {
                state[d] = RowState::Made;
                return;
            }
            x = self.before(x);
        }
        self.fill(state, square, stack, d);
        state[d] = RowState::Made;
    }

    // The row of every V, in a blank square.
    fn reach_rows(&self, state: &mut [RowState], square: &mut [u64], stack: &mut [u16])
        requires room { MarksRoom self.now.sheet.n state.old square.old stack.old }
        requires new { (d : ℕ) → get_or state.old d New ≡ New }
        requires blank { (d : ℕ) → Blank self.now.sheet.n square.old d }
        ensures { AllMarkRows self.now.sheet.cells.now self.now.sheet.n self.now.column square.new }
    {
        for v in 1..self.sheet.n + 1 {
            if self.sheet.kind(v) == Kind::Value {
                self.visit(state, square, stack, v);
            }
        }
    }
}

// ---- all rows

// Row 16: the smallest V that reaches itself.
fn first_cycle(sheet: ReadTable, column: usize, square: &[u64]) -> Option<usize>
    requires column { Column column }
    requires room { RowsRoom sheet.n square.now }
    requires all_mark_rows { AllMarkRows sheet.cells.now sheet.n column square.now }
    ensures { result ≡ found_place (place16 sheet.entry.cells.now sheet.entry.n) }
{
    for v in 1..sheet.n + 1 {
        if sheet.kind(v) == Kind::Value { // functions may reach themselves
            if marks::has_mark(square, sheet.n / 64 + 1, v, v) {
                return Some(v);
            }
        }
    }
    None
}

// Row 16, and the row of marks of every V, in a blank square, with chains of C cells and scratch for fewer than N labels.
fn cycle_in<const C: usize, const N: usize>(
    sheet: ReadTable,
    column: usize,
    square: &mut [u64],
) -> Option<usize>
    requires column { Column column }
    requires few { (2 * sheet.n < C) × (C ≤ 2 * label_limit + 1) × (sheet.n < N) × (N ≤ label_limit + 1) }
    requires room { RowsRoom sheet.n square.old }
    requires blank { (d : ℕ) → Blank sheet.n square.old d }
    ensures { (result ≡ found_place (place16 sheet.entry.cells.now sheet.entry.n)) × AllMarkRows sheet.entry.cells.now sheet.entry.n column square.new }
{
    let mut links = [0; C];
    link(sheet, column, &mut links);
    let chains = LinkChains {
        sheet,
        column,
        links: &links,
    };
    let mut state = [RowState::New; N];
    let mut stack = [0; N];
    chains.reach_rows(&mut state, square, &mut stack);
    first_cycle(sheet, column, square)
}

// The lines of a small table.
pub const FEW_LINES: usize = 128;

// The cells of the chains of a small table, and of any.
pub const FEW_LINKS: usize = 2 * FEW_LINES - 1;

pub const LINKS: usize = 2 * cells::LINE_LIMIT - 1;

// The same, with scratch of two sizes, since it is zeroed at each call.
pub fn find_cycle(sheet: ReadTable, column: usize, square: &mut [u64]) -> Option<usize>
    requires column { Column column }
    requires room { RowsRoom sheet.n square.old }
    requires blank { (d : ℕ) → Blank sheet.n square.old d }
    ensures { (result ≡ found_place (place16 sheet.entry.cells.now sheet.entry.n)) × AllMarkRows sheet.entry.cells.now sheet.entry.n column square.new }
{
    if sheet.n < FEW_LINES {
        return cycle_in::<FEW_LINKS, FEW_LINES>(sheet, column, square);
    }
    cycle_in::<LINKS, { cells::LINE_LIMIT }>(sheet, column, square)
}
