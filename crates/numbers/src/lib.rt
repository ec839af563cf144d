// Numbers of a sheet: exact arithmetic with a rounded quotient, and decimal numbers from bytes.

#![tactic(auto)]

ghost use Rattle.std.specs.Prelude.{◌≡◌, ◌^◌, ◌≤◌, ◌<◌, Some, nat_abs};
ghost use Rattle.cells.specs.Limits.{number_limit};
ghost use Rattle.numbers.specs.Range.{in_range};
ghost use Rattle.numbers.specs.Rounding.{on_tie, round_up, quotient};
ghost use Rattle.numbers.specs.Arithmetic.{tie_rule, rounding_by, ranged_of, calculated};
ghost use Rattle.numbers.specs.Decimal.{digits_of, decimal_of, signed_of, number_of};

use kinds::Operation;

// ---- the range of a sheet's numbers

const SMALLEST: i64 = -1000000000;

const LARGEST: i64 = 1000000000;

// The size of both.
pub const LARGEST_SIZE: u64 = 1000000000;

// Whether x is a number of a sheet.
pub fn in_range(x: i64) -> bool
    ensures { result ≡ in_range x }
{
    SMALLEST <= x && x <= LARGEST
}

// ---- rounding

// What becomes of a half: the neighbour of larger size, or the even one.
#[derive(Clone, Copy)]
pub enum Tie {
    Away,
    Even,
}

// What a half that falls between q and q + 1 adds to q: 0 or 1.
fn on_tie(tie: Tie, q: u64) -> u64
    ensures { result ≡ on_tie tie q }
{
    match tie {
        Tie::Away => 1,
        Tie::Even => q % 2,
    }
}

// What rounding adds to the size q of a quotient with a remainder of size r, by a divisor of size d: 0 or 1. One comparison settles
// halves too: what a half adds counts only where twice the remainder is just d.
fn round_up(tie: Tie, q: u64, r: u64, d: u64) -> u64
    requires { r < 2 ^ 62 }
    ensures { result ≡ round_up tie q r d }
{
    u64::from(d < 2 * r + on_tie(tie, q))
}

// a / b to the nearest whole number. Signed division rounds toward zero; its remainder tells the rest.
pub fn nearest(tie: Tie, a: i64, b: i64) -> i64
    requires { (nat_abs a ≤ number_limit) × (nat_abs b ≤ number_limit) × (0 < nat_abs b) }
    ensures { result ≡ quotient tie a b }
{
    let q = a / b;
    let r = a % b;
    let m = q.unsigned_abs();
    let up = round_up(tie, m, r.unsigned_abs(), b.unsigned_abs());
    cells::with_sign((a < 0) != (b < 0), m + up)
}

// ---- arithmetics

// The arithmetic by which a sheet is evaluated: whole numbers, with a tie rule for quotients.
#[derive(Clone, Copy)]
pub enum Arithmetic {
    HalvesAway,
    HalvesToEven,
}

// The tie rule of an arithmetic.
fn tie_rule(arithmetic: Arithmetic) -> Tie
    ensures { result ≡ tie_rule arithmetic }
{
    match arithmetic {
        Arithmetic::HalvesAway => Tie::Away,
        Arithmetic::HalvesToEven => Tie::Even,
    }
}

// The arithmetic that rounds by a tie rule.
pub fn rounding_by(tie: Tie) -> Arithmetic
    ensures { result ≡ rounding_by tie }
{
    match tie {
        Tie::Away => Arithmetic::HalvesAway,
        Tie::Even => Arithmetic::HalvesToEven,
    }
}

// ---- the four operations

// Why an operation gives no number of a sheet.
#[derive(Clone, Copy)]
pub enum Failure {
    OutOfRange,
    ZeroDivisor,
}

// x where it is a number of a sheet.
fn ranged(x: i64) -> Result<i64, Failure>
    ensures { result ≡ ranged_of x }
{
    if in_range(x) {
        Ok(x)
    } else {
        Err(Failure::OutOfRange)
    }
}

// a and b under an operation. A zero divisor comes before the range.
pub fn calculate(arithmetic: Arithmetic, op: Operation, a: i64, b: i64) -> Result<i64, Failure>
    requires { (nat_abs a ≤ number_limit) × (nat_abs b ≤ number_limit) }
    ensures { result ≡ calculated arithmetic op a b }
{
    match op {
        Operation::Sum => ranged(a + b),
        Operation::Difference => ranged(a - b),
        Operation::Product => ranged(a * b),
        Operation::Quotient => {
            if b == 0 {
                Err(Failure::ZeroDivisor)
            } else {
                ranged(nearest(tie_rule(arithmetic), a, b))
            }
        }
    }
}

// ---- decimal numbers

// The value of digits, where it is at most max. The loop stops at the first byte that rules it out.
fn digits(field: &[u8], max: u64) -> Option<u64>
    requires { max ≤ number_limit }
    ensures { result ≡ digits_of max 0 field.now }
{
    let mut v: u64 = 0;
    for &b in field {
        if !b.is_ascii_digit() {
            return None;
        }
        v = 10 * v + u64::from(b - b'0');
        if max < v {
            return None;
        }
    }
    Some(v)
}

// The decimal number that a field is, with no leading zero, where it is at most max.
pub fn read_decimal(field: &[u8], max: u64) -> Option<u64>
    requires { max ≤ number_limit }
    ensures { result ≡ decimal_of max field.now }
{
    let first = *field.first()?;
    if first == b'0' && 1 < field.len() {
        return None;
    }
    digits(field, max)
}

// A decimal after its sign.
fn signed(negative: bool, v: u64) -> Option<i64>
    requires { v ≤ number_limit }
    ensures { result ≡ signed_of negative (Some v) }
{
    if negative && v == 0 {
        return None; // there is no `-0`
    }
    Some(cells::with_sign(negative, v))
}

// The number that a field is.
pub fn read_number(field: &[u8]) -> Option<i64>
    ensures { result ≡ number_of field.now }
{
    match field.strip_prefix(b"-") {
        Some(size) => signed(true, read_decimal(size, LARGEST_SIZE)?),
        None => signed(false, read_decimal(field, LARGEST_SIZE)?),
    }
}
