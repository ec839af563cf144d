// What the program prints of a sheet, as bytes in a lent buffer.

#![tactic(auto)]

ghost use Rattle.std.specs.Prelude.{◌≡◌, [], ◌∷◌, ◌++◌, ◌-◌, ◌<◌, length, take};
ghost use Rattle.cells.specs.Characters.{space};
ghost use Rattle.cells.specs.Cells.{nat_of};
ghost use Rattle.refusals.specs.Rows.{row_number};
ghost use Rattle.numbers.specs.Numerals.{digits, decimal, integer};
ghost use Rattle.order.specs.Following.{labels_of};
ghost use Rattle.printing.specs.Print.{line_of, word_of, columns_line, name_field, result_fields, value_line, value_lines, refusal_print, zero_bytes, PrintLeaves};
ghost use Rattle.printing.specs.Writing.{Puts, NamesIn, result_at, PrintWritten};

use planning::Plan;
use refusals::Refusal;

// ---- bytes, written one behind the other

// A lent buffer, and the index at which its next byte goes. A byte for which the buffer has no room counts as well.
#[derive(Drop)]
struct Writer<'a> {
    out: &'a mut [u8],
    at: usize,
}

impl Writer<'_> {
    // One byte.
    fn put(&mut self, byte: u8)
        ensures { Puts self.old (byte ∷ []) self.new }
    {
        if self.at < self.out.len() {
            self.out[self.at] = byte;
        }
        self.at = self.at.saturating_add(1);
    }

    // Several bytes.
    fn put_all(&mut self, bytes: &[u8])
        ensures { Puts self.old bytes.now self.new }
    {
        for &byte in bytes {
            self.put(byte);
        }
    }

    // ---- numbers

    // The digits of n, none of 0.
    fn put_digits(&mut self, n: u64)
        ensures { Puts self.old (digits n n) self.new }
    {
        if n == 0 {
            return;
        }
        self.put_digits(n / 10);
        self.put(b'0' + (n % 10) as u8);
    }

    // n in decimal, with no leading zeros.
    fn put_decimal(&mut self, n: u64)
        ensures { Puts self.old (decimal n) self.new }
    {
        if n == 0 {
            return self.put(b'0');
        }
        self.put_digits(n)
    }

    // x in decimal, with `-` before a negative number.
    fn put_integer(&mut self, x: i64)
        ensures { Puts self.old (integer x) self.new }
    {
        if x < 0 {
            self.put(b'-');
            return self.put_decimal(x.unsigned_abs());
        }
        self.put_decimal(x.unsigned_abs())
    }

    // ---- fields, each with the byte that ends it

    // A field of bytes as they stand.
    fn put_text(&mut self, bytes: &[u8], after: u8)
        ensures { Puts self.old (bytes.now ++ (after ∷ [])) self.new }
    {
        self.put_all(bytes);
        self.put(after);
    }

    // A field with a natural number.
    fn put_count(&mut self, n: u64, after: u8)
        ensures { Puts self.old (decimal n ++ (after ∷ [])) self.new }
    {
        self.put_decimal(n);
        self.put(after);
    }

    // A field with an integer.
    fn put_number(&mut self, x: i64, after: u8)
        ensures { Puts self.old (integer x ++ (after ∷ [])) self.new }
    {
        self.put_integer(x);
        self.put(after);
    }

    // The print of a refused sheet: `refusal place`, then the two numbers.
    fn put_refusal(&mut self, refusal: Refusal)
        ensures { Puts self.old (refusal_print (row_number refusal.row) refusal.place) self.new }
    {
        self.put_all(b"refusal place\n");
        self.put_count(refusal.row.number(), b' ');
        self.put_count(refusal.place, b'\n');
    }
}

// ---- a sheet that runs

// Result j of a label.
fn result_at(results: &[i64], label: usize, j: usize) -> i64
    requires { j < 3 }
    ensures { result ≡ result_at results.now label j }
{
    if label == 0 {
        return 0;
    }
    // such results are past the end, and their index may not fit
    if results.len() < label {
        return 0;
    }
    cells::int_at(results, 3 * (label - 1) + j)
}

// Result j as a natural number: the state, or the steps.
fn count_at(results: &[i64], label: usize, j: usize) -> u64
    requires { j < 3 }
    ensures { result ≡ nat_of (result_at results.now label j) }
{
    cells::nat_of(result_at(results, label, j)) as u64
}

// What the lines show of a run, and the word for its plan. Each name stands in the text.
#[derive(Clone, Copy)]
struct Run<'a> {
    text: &'a [u8],
    table: &'a [i64],
    results: &'a [i64],
    word: &'a [u8],
    ghost names: { NamesIn text.now table.now },
}

impl Run<'_> {
    // The end of a label's line: state, number, steps.
    fn put_results(&self, label: usize, writer: &mut Writer)
        ensures { Puts writer.old (line_of (result_fields self.now.results.now label)) writer.new }
    {
        writer.put_count(count_at(self.results, label, 0), b' ');
        writer.put_number(result_at(self.results, label, 1), b' ');
        writer.put_count(count_at(self.results, label, 2), b'\n');
    }

    // The label's name, from the text.
    fn put_name(&self, label: usize, writer: &mut Writer)
        ensures { Puts writer.old (name_field self.now.text.now self.now.table.now label ++ (space ∷ [])) writer.new }
    {
        let start = cells::cell_at(self.table, label, cells::NAME_START);
        let end = start + cells::cell_at(self.table, label, cells::NAME_LENGTH);
        writer.put_text(&self.text[start..end], b' ');
    }

    // The label's whole line: label, name, whole or mixed, state, number, steps.
    fn put_line(&self, label: usize, writer: &mut Writer)
        ensures { Puts writer.old (value_line self.now.text.now self.now.table.now self.now.results.now self.now.word.now label) writer.new }
    {
        writer.put_count(label as u64, b' ');
        self.put_name(label, writer);
        writer.put_text(self.word, b' ');
        self.put_results(label, writer);
    }

    // The lines of the values that the plan names.
    fn put_lines(&self, plan: &[i64], writer: &mut Writer)
        ensures { Puts writer.old (value_lines self.now.text.now self.now.table.now self.now.results.now self.now.word.now (labels_of plan.now)) writer.new }
    {
        for &cell in plan {
            self.put_line(cells::nat_of(cell), writer);
        }
    }

    // The whole print: the column names, then one line per value.
    fn put_answer(&self, plan: &[i64], writer: &mut Writer)
        ensures { Puts writer.old (columns_line ++ value_lines self.now.text.now self.now.table.now self.now.results.now self.now.word.now (labels_of plan.now)) writer.new }
    {
        writer.put_all(b"label name order state number steps\n");
        self.put_lines(plan, writer);
    }
}

// ---- the print

// Zeros from index `at` to the end of the buffer.
fn put_zeros(out: &mut [u8], at: usize)
    ensures { out.new ≡ take at out.old ++ zero_bytes (length out.old - at) }
{
    if at < out.len() {
        out[at..].fill(0);
    }
}

// What the print answers: Run's refusal and its place, 0 and 0 on an answer; and the length of the whole print.
#[repr(C)]
#[derive(Clone, Copy)]
pub struct Printed {
    pub refusal: u64,
    pub place: u64,
    pub length: u64,
}

// The word for a plan, whole or mixed.
#[tactic(auto, unfolding(crate::specs::Print::whole_word, crate::specs::Print::mixed_word))]
fn word_of(made: Plan) -> &'static [u8]
    ensures { result.now ≡ word_of made }
{
    match made {
        Plan::Whole(_) => b"whole",
        Plan::Mixed(_) => b"mixed",
    }
}

// The print of a sheet that is run with these buffers.
fn print_with(
    text: &[u8],
    table: &mut [i64],
    plan: &mut [i64],
    results: &mut [i64],
    out: &mut [u8],
) -> Printed
    ensures { PrintWritten text.now (length table.old) (length plan.old) (length results.old) out.old result out.new }
{
    let mut writer = Writer { out, at: 0 };
    match calls::run(text, table, plan, results) {
        Ok(made) => {
            let run = Run {
                text,
                table,
                results,
                word: word_of(made),
            };
            run.put_answer(&plan[..made.count() as usize], &mut writer);
            Printed {
                refusal: 0,
                place: 0,
                length: writer.at as u64,
            }
        }
        Err(refusal) => {
            writer.put_refusal(refusal);
            Printed {
                refusal: refusal.row.number(),
                place: refusal.place,
                length: writer.at as u64,
            }
        }
    }
}

// The program's print of a sheet, in `out` as far as that goes, and zeros behind it. The length is that of the whole print, at most
// 49,188, so that an `out` that is too short shows by it.
pub fn print(text: &[u8], out: &mut [u8]) -> Printed
    ensures { PrintLeaves text.now (length out.old) result out.new }
{
    let mut table = [0i64; 8192];
    let mut plan = [0i64; 1024];
    let mut results = [0i64; 3072];
    let printed = print_with(text, &mut table, &mut plan, &mut results, out);
    put_zeros(out, printed.length as usize);
    printed
}
