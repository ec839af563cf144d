// Evaluation of a sheet's values, document 01's "Working out". Cells are read where they stand, by labels that `Entry`
// knows to be the table's, so that no read needs a test.

#![tactic(auto)]

ghost use Rattle.std.specs.Prelude.{◌≡◌, true, ◌+◌, ◌-◌, ◌*◌, ◌≤◌, ◌<◌, length, pos, nat_abs};
ghost use Rattle.kinds.specs.Kinds.{is_kind, clause_of};
ghost use Rattle.cells.specs.Table.{cell, kind, line_number, target};
ghost use Rattle.cells.specs.Limits.{number_limit};
ghost use Rattle.evaluation.specs.Results.{store, Recorded};
ghost use Rattle.evaluation.specs.Evaluation.{gives, fails, answer_at, outcome_of, step_limit, depth_limit, branch_of, call_by, operation_by, choice_by, outcome, evaluated};
ghost use Rattle.evaluation.specs.Shown.{state_of, failure_state, IsFailureState, shown};
ghost use Rattle.numbers.specs.Arithmetic.{calculated};
ghost use Rattle.evaluation.specs.Ready.{Entry, Entered, EnteredCall, Cell, ResultsRoom, Evaluable};

use kinds::{Clause, Kind, Operation};
use numbers::{Arithmetic, Failure};

// ---- what evaluation carries

// Document 01's states of a result.
pub const NUMBER: u32 = 1;

pub const OUT_OF_RANGE: u32 = 2;

pub const ZERO_DIVISOR: u32 = 3;

pub const OUT_OF_STEPS: u32 = 4;

pub const TOO_DEEP: u32 = 5;

// Whether an expression has a number, or why it has none.
#[derive(Clone, Copy)]
pub enum ResultState {
    Number,
    OutOfRange,
    ZeroDivisor,
    OutOfSteps,
    TooDeep,
}

impl ResultState {
    // Its number.
    fn number(self) -> u32
        ensures { result ≡ state_of self }
    {
        match self {
            ResultState::Number => NUMBER,
            ResultState::OutOfRange => OUT_OF_RANGE,
            ResultState::ZeroDivisor => ZERO_DIVISOR,
            ResultState::OutOfSteps => OUT_OF_STEPS,
            ResultState::TooDeep => TOO_DEEP,
        }
    }

    // The failure that a cell has.
    fn of_cell(cell: i64) -> Self
        requires { IsFailureState cell }
        ensures { pos (state_of result) ≡ cell }
    {
        match cell as u32 {
            OUT_OF_RANGE => ResultState::OutOfRange,
            ZERO_DIVISOR => ResultState::ZeroDivisor,
            OUT_OF_STEPS => ResultState::OutOfSteps,
            _ => ResultState::TooDeep,
        }
    }
}

impl From<Failure> for ResultState {
    ghost from_gives = { λ f s. s ≡ failure_state f };

    fn from(failure: Failure) -> ResultState {
        match failure {
            Failure::OutOfRange => ResultState::OutOfRange,
            Failure::ZeroDivisor => ResultState::ZeroDivisor,
        }
    }
}

// What an expression comes to, and the steps left; on a failure the number is 0. It comes back in memory at each entry, so its size counts: a
// Result whose error is an enum makes it 24 bytes in place of 16, and the deepest calls took 1.14 times as long.
#[derive(Clone, Copy)]
pub struct Computed {
    pub number: i64,
    pub state: ResultState,
    pub left: u32,
}

impl Computed {
    // A number.
    fn gives(number: i64, left: u32) -> Self
        ensures { shown result ≡ gives number left }
    {
        Computed {
            number,
            state: ResultState::Number,
            left,
        }
    }

    // The same, field by field. Copied whole, bytes that no field has are stored in parts and loaded at once, which waits for the stores at
    // each entry that a failure comes back through: values that fail deep in their calls took up to twice the time.
    fn by_field(self) -> Self
        ensures { shown result ≡ shown self }
    {
        Computed {
            number: self.number,
            state: self.state,
            left: self.left,
        }
    }

    // No number.
    fn fails(state: ResultState, left: u32) -> Self
        ensures { shown result ≡ fails (state_of state) left }
    {
        Computed {
            number: 0,
            state,
            left,
        }
    }
}

// What a call hands to the body of its target.
#[derive(Clone, Copy)]
pub struct Arguments {
    pub first: i64,
}

// What a value may still use: steps left, and how deep its calls have gone; and the arithmetic by which it is evaluated, which rides here since
// one parameter more would not fit into registers.
#[derive(Clone, Copy)]
pub struct Allowance {
    pub left: u32,
    pub depth: u16,
    pub arithmetic: Arithmetic,
}

impl Allowance {
    // "A fresh allowance of 20,000 steps."
    pub const STEPS: u32 = 20000;

    // How many calls may be around an expression.
    pub const DEPTH: u16 = 64;

    // What each value starts with, at call depth 0.
    pub fn fresh(arithmetic: Arithmetic) -> Self
        ensures { (result.left ≡ step_limit) × (result.depth ≡ 0) × (result.arithmetic ≡ arithmetic) }
    {
        Allowance {
            left: Allowance::STEPS,
            depth: 0,
            arithmetic,
        }
    }

    // Takes one step.
    pub fn step(self) -> Self
        requires { 0 < self.left }
        ensures { (result.left ≡ self.left - 1) × (result.depth ≡ self.depth) × (result.arithmetic ≡ self.arithmetic) }
    {
        self.with_left(self.left - 1)
    }

    // The same, with these steps left.
    fn with_left(self, left: u32) -> Self
        ensures { (result.left ≡ left) × (result.depth ≡ self.depth) × (result.arithmetic ≡ self.arithmetic) }
    {
        Allowance { left, ..self }
    }

    // One call deeper, with these steps left.
    fn deeper(self, left: u32) -> Self
        requires { self.depth < depth_limit }
        ensures { (result.left ≡ left) × (result.depth ≡ self.depth + 1) × (result.arithmetic ≡ self.arithmetic) }
    {
        Allowance {
            left,
            depth: self.depth + 1,
            ..self
        }
    }
}

// ---- cells

// Cell j of the label.
fn field(table: &[i64], label: usize, j: usize) -> usize
    requires { Cell table.now label j }
    ensures { result ≡ cell table.now label j }
{
    table[8 * (label - 1) + j] as usize
}

// The clause that evaluates a line of any kind.
fn clause(table: &[i64], label: usize) -> Clause
    requires { Cell table.now label 0 × (is_kind (kind table.now label) ≡ true) }
    ensures { result ≡ clause_of (kind table.now label) }
{
    Kind::of_code(field(table, label, cells::KIND))
        .unwrap()
        .clause()
}

// The number of an N line.
fn number_of(table: &[i64], label: usize) -> i64
    requires { (1 ≤ label) × (8 * label ≤ length table.now) }
    ensures { result ≡ line_number table.now label }
{
    table[8 * (label - 1) + cells::A]
}

// The branch that a test of this number takes.
fn branch_of(table: &[i64], label: usize, test: i64) -> usize
    requires { Cell table.now label 4 × Cell table.now label 5 }
    ensures { result ≡ branch_of table.now label test }
{
    if test == 0 {
        return field(table, label, cells::C);
    }
    field(table, label, cells::B)
}

// The stored answer of a label that has been evaluated.
fn answer_at(results: &[i64], label: usize, left: u32) -> Computed
    requires { ResultsRoom results.now label × Recorded 1 results.now label }
    ensures { shown result ≡ answer_at results.now label left }
{
    let at = 3 * (label - 1);
    let state = results[at];
    // a comparison by order keeps the tests of the failures off the way of a number
    if i64::from(NUMBER) < state {
        return Computed::fails(ResultState::of_cell(state), left);
    }
    Computed::gives(results[at + 1], left)
}

// "R the target's stored answer, failures too." The target has been evaluated.
fn read(table: &[i64], results: &[i64], label: usize, left: u32) -> Computed
    requires { Cell table.now label 7 × ResultsRoom results.now (target table.now label)
        × Recorded 1 results.now (target table.now label) }
    ensures { shown result ≡ answer_at results.now (target table.now label) left }
{
    answer_at(results, field(table, label, cells::TARGET), left)
}

// Two operands under A, S, M or D.
fn combine(arithmetic: Arithmetic, op: Operation, a: i64, b: i64, left: u32) -> Computed
    requires { (nat_abs a ≤ number_limit) × (nat_abs b ≤ number_limit) }
    ensures { shown result ≡ outcome_of (calculated arithmetic op a b) left }
{
    match numbers::calculate(arithmetic, op, a, b) {
        Ok(number) => Computed::gives(number, left),
        Err(failure) => Computed::fails(ResultState::from(failure), left),
    }
}

// An expression: takes a step and goes by the clause of its kind.
#[cycle(call_choice_expression_operation)]
fn expression(
    table: &[i64],
    results: &[i64],
    label: usize,
    given: Arguments,
    allowance: Allowance,
) -> Computed
    requires { Entry table.now results.now label given allowance.depth }
    ensures { shown result ≡ outcome allowance.arithmetic table.now results.now
        label given allowance.left allowance.depth }
{
    if allowance.left == 0 {
        return Computed::fails(ResultState::OutOfSteps, 0);
    }
    let rest = allowance.step();
    let left = rest.left;
    match clause(table, label) {
        Clause::Number => Computed::gives(number_of(table, label), left),
        Clause::Argument(_) => Computed::gives(given.first, left),
        Clause::Read => read(table, results, label, left),
        Clause::Call(_) => call(table, results, label, given, rest),
        Clause::Operation(op) => operation(table, results, op, label, given, rest),
        Clause::Choice => choice(table, results, label, given, rest),
        Clause::None => unreachable!(),
    }
}

// A call: its argument, then the body of its target one deeper.
#[cycle(call_choice_expression_operation)]
fn call(table: &[i64], results: &[i64], label: usize, given: Arguments, rest: Allowance) -> Computed
    requires { EnteredCall table.now results.now label given rest.depth }
    ensures { shown result ≡ call_by (outcome rest.arithmetic table.now results.now)
        table.now label given rest.left rest.depth }
{
    let argument = field(table, label, cells::A);
    let evaluated = expression(table, results, argument, given, rest);
    let ResultState::Number = evaluated.state else {
        return Computed::fails(evaluated.state, evaluated.left);
    };
    if rest.depth == Allowance::DEPTH {
        return Computed::fails(ResultState::TooDeep, evaluated.left);
    }
    let target = field(table, label, cells::TARGET);
    let body = field(table, target, cells::B);
    let passed = Arguments {
        first: evaluated.number,
    };
    expression(table, results, body, passed, rest.deeper(evaluated.left)).by_field()
}

// A sum, difference, product or quotient: a, then b.
#[cycle(call_choice_expression_operation)]
fn operation(
    table: &[i64],
    results: &[i64],
    op: Operation,
    label: usize,
    given: Arguments,
    rest: Allowance,
) -> Computed
    requires { Entered (Clause.Operation op) table.now results.now label given rest.depth }
    ensures { shown result ≡ operation_by rest.arithmetic (outcome rest.arithmetic table.now results.now)
        table.now op label given rest.left rest.depth }
{
    let a = field(table, label, cells::A);
    let first = expression(table, results, a, given, rest);
    let ResultState::Number = first.state else {
        return Computed::fails(first.state, first.left);
    };
    let b = field(table, label, cells::B);
    let second = expression(table, results, b, given, rest.with_left(first.left));
    let ResultState::Number = second.state else {
        return Computed::fails(second.state, second.left);
    };
    combine(
        rest.arithmetic,
        op,
        first.number,
        second.number,
        second.left,
    )
}

// A choice: its test, then one branch only.
#[cycle(call_choice_expression_operation)]
fn choice(
    table: &[i64],
    results: &[i64],
    label: usize,
    given: Arguments,
    rest: Allowance,
) -> Computed
    requires { Entered Clause.Choice table.now results.now label given rest.depth }
    ensures { shown result ≡ choice_by (outcome rest.arithmetic table.now results.now)
        table.now label given rest.left rest.depth }
{
    let tested = field(table, label, cells::A);
    let evaluated = expression(table, results, tested, given, rest);
    let ResultState::Number = evaluated.state else {
        return Computed::fails(evaluated.state, evaluated.left);
    };
    let branch = branch_of(table, label, evaluated.number);
    expression(
        table,
        results,
        branch,
        given,
        rest.with_left(evaluated.left),
    )
    .by_field()
}

// ---- a value

// What stands in the three cells of a value's results.
#[derive(Clone, Copy)]
pub struct Value {
    pub number: i64,
    pub state: u32,
    pub steps: u32,
}

// A value, from the results stored so far. Every value that it reaches has been evaluated.
pub fn evaluate(arithmetic: Arithmetic, table: &[i64], results: &[i64], label: usize) -> Value
    requires { Evaluable table.now results.now label }
    ensures { result ≡ evaluated arithmetic table.now results.now label }
{
    let body = field(table, label, cells::B);
    let outcome = expression(
        table,
        results,
        body,
        Arguments { first: 0 },
        Allowance::fresh(arithmetic),
    );
    Value {
        number: outcome.number,
        state: outcome.state.number(),
        steps: Allowance::STEPS - outcome.left,
    }
}

// Stores a value's results and leaves every other cell.
pub fn put_value(results: &mut [i64], label: usize, v: Value)
    requires { ResultsRoom results.old label }
    ensures { results.new ≡ store results.old label v }
{
    let state = i64::from(v.state);
    cells::put_three(
        results,
        3 * (label - 1),
        state,
        v.number,
        i64::from(v.steps),
    );
}

// Evaluates a value and stores its results.
pub fn evaluate_into(arithmetic: Arithmetic, table: &[i64], results: &mut [i64], label: usize)
    requires { Evaluable table.now results.old label }
    ensures { results.new ≡ store results.old label (evaluated arithmetic table.now results.old label) }
{
    let value = evaluate(arithmetic, table, results, label);
    put_value(results, label, value);
}
