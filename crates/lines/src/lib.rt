// The lines of a sheet: rows 1 to 3 and 5 to 7 of document 01's table of refusals, and the cells of each line that passes.

#![tactic(auto)]

ghost use Rattle.std.specs.Prelude.{◌≡◌, true, cond, ℕ, ◌+◌, ◌-◌, ◌*◌, ◌≤◌, ◌<◌, pos, length, Some, None, IfSome};
ghost use Rattle.std.proofs.Math.Seq.{slice};
ghost use Rattle.cells.specs.Limits.{label_limit, size_limit};
ghost use Rattle.kinds.specs.Coded.{own_code, kind_with};
ghost use Rattle.text.specs.Bytes.{all, count_by, is_allowed, is_newline, ends_lines, same};
ghost use Rattle.text.specs.Forms.{label_of};
ghost use Rattle.text.specs.Scans.{EndsAt};
ghost use Rattle.cells.specs.Characters.{space};
ghost use Rattle.numbers.specs.Decimal.{number_of};
ghost use Rattle.refusals.specs.Refusal.{Fine, reply_of};
ghost use Rattle.lines.specs.Fields.{dash, from_label, field_of, kind_code};
ghost use Rattle.lines.specs.Lines.{is_text, line, first_line, tie_of, arithmetic_of, is_first_line, labels, head_bad, lines_bad};
ghost use Rattle.lines.specs.Scanned.{Scanned, ScannedAll, QuickOf};
ghost use Rattle.lines.specs.LineSteps.{FiveAt, SplitOf, operands_at, eight_cells, cells_by_ends, other_read, root_read, line_read, step_of, line_written, passed, lines_written};

use kinds::{Fields, Form, Kind};
use numbers::{Arithmetic, Tie};
use refusals::{Reply, Row, Verdict};

// ---- one field

// What a field holds for its cell is an option: none where it is of wrong form.

// Whether a field is `-` alone.
fn is_dash(field: &[u8]) -> bool
    ensures { result ≡ same field.now dash }
{
    match field {
        [byte] => *byte == b'-',
        _ => false,
    }
}

// A field that holds a label, 1 to n.
fn label_field(field: &[u8], n: usize) -> Option<i64>
    requires { n ≤ label_limit }
    ensures { result ≡ from_label (label_of n field.now) }
{
    let v = text::read_label(field, n as u64)?;
    Some(v as i64)
}

// A field, read in the form that the table of kinds wants.
fn read_field(field: &[u8], form: Form, n: usize) -> Option<i64>
    requires { n ≤ label_limit }
    ensures { result ≡ field_of form n field.now }
{
    match form {
        Form::Missing => is_dash(field).then_some(0),
        Form::Name => text::is_name(field).then_some(0),
        Form::Path => text::is_path(field).then_some(0),
        Form::Group | Form::Operand => label_field(field, n),
        Form::Number => numbers::read_number(field),
    }
}

// The kind that a line's first field names.
fn kind_of(field: &[u8]) -> Option<Kind>
    ensures { result ≡ kind_with (kind_code field.now) }
{
    match field {
        [letter] => Kind::of_letter(*letter),
        _ => None,
    }
}

// ---- one line

// Where the five fields of a line end; the last one ends where the line does.
#[derive(Clone, Copy)]
pub struct Ends {
    pub kind: usize,
    pub name: usize,
    pub a: usize,
    pub b: usize,
    pub c: usize,
}

// The cells of a line, and where the line ends.
#[derive(Clone, Copy)]
pub struct LineCells {
    pub code: i64,
    pub start: i64,
    pub length: i64,
    pub a: i64,
    pub b: i64,
    pub c: i64,
    pub end: usize,
}

impl LineCells {
    // The eight cells of a line; owner and target are left 0 for later passes.
    fn write(self, row: &mut [i64])
        requires { length row.old ≡ 8 }
        ensures { row.new ≡ eight_cells self }
    {
        row[cells::KIND] = self.code;
        row[cells::NAME_START] = self.start;
        row[cells::NAME_LENGTH] = self.length;
        row[cells::A] = self.a;
        row[cells::B] = self.b;
        row[cells::C] = self.c;
        row[cells::OWNER] = 0;
        row[cells::TARGET] = 0;
    }
}

// A position, a length or a code as a cell.
fn cell_of(x: usize) -> i64
    requires { x ≤ size_limit }
    ensures { result ≡ pos x }
{
    x as i64
}

// What the fields a, b and c hold.
#[derive(Clone, Copy)]
pub struct Operands {
    pub a: i64,
    pub b: i64,
    pub c: i64,
}

// ---- the lines of a sheet

// The text of a sheet that rows 1 to 3 let pass, and how many labels it has.
#[derive(Clone, Copy)]
pub struct Lines<'a> {
    pub text: &'a [u8],
    pub n: usize,
    ghost size: { length text.now ≤ size_limit },
    ghost ends: { ends_lines text.now },
    ghost allowed: { all is_allowed text.now ≡ true },
    ghost few: { n ≤ label_limit },
}

// ---- a line by its five fields

impl Lines<'_> {
    // The five fields of the line that begins at `from`, if it has five and none is empty; row 5 refuses any other.
    fn split_line(self, from: usize) -> Option<Ends>
        requires { from < length self.text.now }
        ensures { SplitOf self.entry.text.now from result }
    {
        let kind = text::field_end(self.text, from, b' ')?;
        let name = text::field_end(self.text, kind + 1, b' ')?;
        let a = text::field_end(self.text, name + 1, b' ')?;
        let b = text::field_end(self.text, a + 1, b' ')?;
        let c = text::field_end(self.text, b + 1, b'\n')?;
        Some(Ends {
            kind,
            name,
            a,
            b,
            c,
        })
    }

    // The fields a, b and c, each in the form that the kind wants.
    fn read_operands(self, e: Ends, kind: Fields) -> Option<Operands>
        requires { (e.name + 1 < e.a) × (e.a + 1 < e.b) × (e.b + 1 < e.c) × (e.c ≤ length self.text.now) }
        ensures { result ≡ operands_at self.entry.text.now e kind self.entry.n }
    {
        let a = read_field(&self.text[e.name + 1..e.a], kind.a, self.n)?;
        let b = read_field(&self.text[e.a + 1..e.b], kind.b, self.n)?;
        let c = read_field(&self.text[e.b + 1..e.c], kind.c, self.n)?;
        Some(Operands { a, b, c })
    }

    // The cells of a line whose fields end at these places, with what a, b and c hold.
    fn cells_of(self, e: Ends, kind: Kind, operands: Operands) -> LineCells
        requires { (e.kind + 1 < e.name) × (e.name ≤ length self.text.now) }
        ensures { result ≡ cells_by_ends self.entry.text.now e (own_code kind) operands.a operands.b operands.c }
    {
        let from = e.kind + 1;
        let to = e.name;
        let end = e.c;
        let code = cell_of(kind.code());
        let Operands { a, b, c } = operands;
        if is_dash(&self.text[from..to]) {
            return LineCells {
                code,
                start: 0,
                length: 0,
                a,
                b,
                c,
                end,
            };
        }
        let start = cell_of(from);
        let length = cell_of(to - from);
        LineCells {
            code,
            start,
            length,
            a,
            b,
            c,
            end,
        }
    }

    // A line of a known kind with five fields, other than label 1's.
    fn read_cells(self, from: usize, e: Ends, kind: Kind) -> Result<LineCells, Row>
        requires { FiveAt self.text.now from e × (own_code kind ≡ kind_code (slice from e.kind self.text.now)) }
        ensures { result ≡ other_read self.entry.n self.entry.text.now from }
    {
        let fields = kind.fields();
        let Some(_) = read_field(&self.text[e.kind + 1..e.name], fields.name, self.n) else {
            return Err(Row::Form);
        };
        let Some(operands) = self.read_operands(e, fields) else {
            return Err(Row::Form);
        };
        Ok(self.cells_of(e, kind, operands))
    }

    // The line of label 1, which is always `G - 0 - -`.
    fn read_root(self, from: usize, e: Ends) -> Result<LineCells, Row>
        requires { FiveAt self.text.now from e }
        ensures { result ≡ root_read self.entry.text.now from }
    {
        let end = e.c;
        if self.text[from..end] == b"G - 0 - -"[..] {
            return Ok(LineCells {
                code: cell_of(Kind::Group.code()),
                start: 0,
                length: 0,
                a: 0,
                b: 0,
                c: 0,
                end,
            });
        }
        Err(Row::Form)
    }

    // A line with five fields: rows 6 and 7.
    fn read_five(self, from: usize, e: Ends, label: usize) -> Result<LineCells, Row>
        requires { FiveAt self.text.now from e }
        ensures { result ≡ line_read self.entry.n label self.entry.text.now from }
    {
        let Some(kind) = kind_of(&self.text[from..e.kind]) else {
            return Err(Row::Kind);
        };
        if label == 1 {
            return self.read_root(from, e);
        }
        self.read_cells(from, e, kind)
    }

    // The line that begins at `from`, split into fields first: rows 5 to 7, lowest number first.
    fn read_split(self, from: usize, label: usize) -> Result<LineCells, Row>
        requires { from < length self.text.now }
        ensures { result ≡ line_read self.entry.n label self.entry.text.now from }
    {
        let Some(e) = self.split_line(from) else {
            return Err(Row::Fields);
        };
        self.read_five(from, e, label)
    }
}

// ---- a line in one scan

// Where a field ends that is read in one scan, and what it holds for its cell. No scan says nothing of the field.
#[derive(Clone, Copy)]
pub struct Scan {
    pub end: usize,
    pub value: i64,
}

// The fields a, b and c in one scan.
#[derive(Clone, Copy)]
pub struct Scans {
    pub a: Scan,
    pub b: Scan,
    pub c: Scan,
}

impl Lines<'_> {
    // A missing field.
    fn scan_missing(self, from: usize, stop: u8) -> Option<usize>
        requires { from < length self.text.now }
        ensures { IfSome result (λ end. EndsAt self.entry.text.now from stop end × (same (slice from end self.entry.text.now) dash ≡ true)) }
    {
        if self.text[from] != b'-' {
            return None;
        }
        if self.text[from + 1] != stop {
            return None;
        }
        Some(from + 1)
    }

    // A field that holds a label, 1 to n.
    fn label_scan(self, from: usize, stop: u8) -> Option<Scan>
        requires { from < length self.text.now }
        ensures { IfSome result (λ r. EndsAt self.entry.text.now from stop r.end × (from_label (label_of self.entry.n (slice from r.end self.entry.text.now)) ≡ Some r.value)) }
    {
        let d = text::scan_label(self.text, from, self.n as u64, stop)?;
        Some(Scan {
            end: d.end,
            value: d.value as i64,
        })
    }

    // A field that holds a number.
    fn number_scan(self, from: usize, stop: u8) -> Option<Scan>
        requires { from < length self.text.now }
        ensures { IfSome result (λ r. EndsAt self.entry.text.now from stop r.end × (number_of (slice from r.end self.entry.text.now) ≡ Some r.value)) }
    {
        if self.text[from] == b'-' {
            let d = text::scan_decimal(self.text, from + 1, numbers::LARGEST_SIZE, stop)?;
            if d.value == 0 {
                return None; // there is no `-0`
            }
            return Some(Scan {
                end: d.end,
                value: cells::with_sign(true, d.value),
            });
        }
        let d = text::scan_decimal(self.text, from, numbers::LARGEST_SIZE, stop)?;
        Some(Scan {
            end: d.end,
            value: cells::with_sign(false, d.value),
        })
    }

    // The field a, b or c. No kind has a name or a path there, and only a may hold a number: what is not looked for costs no time.
    fn scan_cell(self, from: usize, form: Form, stop: u8) -> Option<Scan>
        requires { from < length self.text.now }
        ensures { IfSome result (λ r. Scanned form self.entry.n self.entry.text.now from stop r.end r.value) }
    {
        match form {
            Form::Missing => {
                let end = self.scan_missing(from, stop)?;
                Some(Scan { end, value: 0 })
            }
            Form::Group | Form::Operand => self.label_scan(from, stop),
            _ => None,
        }
    }

    // The field a.
    fn scan_first(self, from: usize, form: Form) -> Option<Scan>
        requires { from < length self.text.now }
        ensures { IfSome result (λ r. Scanned form self.entry.n self.entry.text.now from space r.end r.value) }
    {
        match form {
            Form::Number => self.number_scan(from, b' '),
            _ => self.scan_cell(from, form, b' '),
        }
    }

    // They are read one after the other, up to the first of which a scan says nothing.
    fn scan_operands(self, from: usize, kind: Fields) -> Option<Scans>
        requires { from < length self.text.now }
        ensures { IfSome result (λ r. ScannedAll kind self.entry.n self.entry.text.now from r) }
    {
        let a = self.scan_first(from, kind.a)?;
        let b = self.scan_cell(a.end + 1, kind.b, b' ')?;
        let c = self.scan_cell(b.end + 1, kind.c, b'\n')?;
        Some(Scans { a, b, c })
    }

    // The name field.
    fn scan_called(self, from: usize, form: Form) -> Option<usize>
        requires { from < length self.text.now }
        ensures { IfSome result (λ end. (n : ℕ) → Scanned form n self.entry.text.now from space end (pos 0)) }
    {
        match form {
            Form::Missing => self.scan_missing(from, b' '),
            Form::Name => text::scan_name(self.text, from, b' '),
            Form::Path => text::scan_path(self.text, from, b' '),
            _ => None,
        }
    }

    // The line that begins at `from`, where one scan finds it to pass rows 5 to 7. Of label 1's, and of whatever a row refuses, it says nothing:
    // they are left to the functions above.
    fn quick_line(self, from: usize, label: usize) -> Option<LineCells>
        requires { from < length self.text.now }
        ensures { QuickOf self.entry.n label self.entry.text.now from result }
    {
        if label < 2 {
            return None;
        }
        let kind = Kind::of_letter(self.text[from])?;
        let after = from + 1;
        if self.text[after] != b' ' {
            return None;
        }
        let fields = kind.fields();
        let name = self.scan_called(after + 1, fields.name)?;
        let r = self.scan_operands(name + 1, fields)?;
        let e = Ends {
            kind: after,
            name,
            a: r.a.end,
            b: r.b.end,
            c: r.c.end,
        };
        let operands = Operands {
            a: r.a.value,
            b: r.b.value,
            c: r.c.value,
        };
        Some(self.cells_of(e, kind, operands))
    }
}

// ---- the pass down the lines

// The byte of line one that tells the two lines apart, from 0, and where the line after each begins.
const TELLING: usize = 4;

const AFTER_AWAY: usize = 16;

const AFTER_EVEN: usize = 17;

// The tie rule that line one names. After row 2 one byte tells the two lines apart, so that every Run can ask.
fn tie_of(text: &[u8]) -> Tie
    requires { head_bad text.now ≡ Fine }
    ensures { result ≡ tie_of text.now }
{
    if text[TELLING] == b'2' {
        return Tie::Even;
    }
    Tie::Away
}

// The arithmetic by which the sheet is evaluated: the one that rounds by its tie rule.
pub fn arithmetic_of(text: &[u8]) -> Arithmetic
    requires { head_bad text.now ≡ Fine }
    ensures { result ≡ arithmetic_of text.now }
{
    numbers::rounding_by(tie_of(text))
}

// Where the line of label 1 begins.
fn after_first(text: &[u8]) -> usize
    requires { head_bad text.now ≡ Fine }
    ensures { result ≡ length (first_line (tie_of text.now)) + 1 }
{
    match tie_of(text) {
        Tie::Away => AFTER_AWAY,
        Tie::Even => AFTER_EVEN,
    }
}

impl Lines<'_> {
    // The line that begins at `from`: in one scan where that finds it to pass, and split where it says nothing.
    fn read_line(self, from: usize, label: usize) -> Result<LineCells, Row>
        requires { from < length self.text.now }
        ensures { result ≡ line_read self.entry.n label self.entry.text.now from }
    {
        let Some(row) = self.quick_line(from, label) else {
            return self.read_split(from, label);
        };
        Ok(row)
    }

    // The line of a label, which begins at `at`: checked, and its cells written. Gives where the next line begins, or the row that refuses this one.
    fn step(self, at: usize, label: usize, table: &mut [i64]) -> Result<usize, Row>
        requires at_in_bounds { at < length self.text.now }
        requires le_label { (1 ≤ label) × (label ≤ label_limit) × (8 * label ≤ length table.old) }
        ensures value { result ≡ step_of (line_read self.entry.n label self.entry.text.now at) }
        ensures table_after { table.new ≡ line_written (line_read self.entry.n label self.entry.text.now at) (8 * (label - 1)) table.old }
    {
        let row = self.read_line(at, label)?;
        row.write(&mut table[8 * (label - 1)..8 * label]);
        Ok(row.end + 1)
    }
}

// Rows 5 to 7, one pass down the lines. The cells of each line that passes are written; the others of the table stay.
pub fn read_lines(text: &[u8], n: usize, table: &mut [i64]) -> Verdict
    requires { (head_bad text.now ≡ Fine) × (n ≡ labels text.now) × (8 * n ≤ length table.old) }
    ensures value { result ≡ lines_bad text.now n }
    ensures table_after { table.new ≡ lines_written text.now n (passed result n) table.old }
{
    let lines = Lines { text, n };
    let mut at = after_first(text);
    for label in 1..n + 1 {
        match lines.step(at, label, table) {
            Err(row) => return Err(row.at(label as u64)),
            Ok(next) => at = next,
        }
    }
    Ok(())
}

// ---- rows 1 to 3

// The number of lines of a text that row 1 does not refuse.
fn text_lines(text: &[u8]) -> Option<usize>
    ensures { result ≡ cond (is_text text.now) (Some (count_by is_newline text.now)) None }
{
    let Some(last) = text.last() else {
        return None;
    };
    if *last != b'\n' {
        return None;
    }
    if cells::SIZE_LIMIT < text.len() {
        return None;
    }
    let counts = text::survey(text);
    if counts.bad != 0 {
        return None;
    }
    Some(counts.lines as usize)
}

// Whether line one is the one that names this tie rule.
fn names_tie(text: &[u8], tie: Tie) -> bool
    requires { 1 ≤ count_by is_newline text.now }
    ensures { result ≡ same (line text.now 0) (first_line tie) }
{
    match tie {
        Tie::Away => text.starts_with(b"kind name a b c\n"),
        Tie::Even => text.starts_with(b"kind2 name a b c\n"),
    }
}

// Whether line one holds the column names, in either of the two ways.
fn first_line_right(text: &[u8]) -> bool
    requires { 1 ≤ count_by is_newline text.now }
    ensures { result ≡ is_first_line (line text.now 0) }
{
    names_tie(text, Tie::Away) || names_tie(text, Tie::Even)
}

// Rows 1 to 3: the number of labels, or the refusal.
pub fn check_head(text: &[u8]) -> Reply
    ensures { result ≡ reply_of (head_bad text.now) (labels text.now) }
{
    let Some(lines) = text_lines(text) else {
        return Err(Row::Text.at(0));
    };
    if !first_line_right(text) {
        return Err(Row::FirstLine.at(0));
    }
    if lines < 2 {
        return Err(Row::Labels.at(0));
    }
    if cells::LINE_LIMIT < lines {
        return Err(Row::Labels.at(0));
    }
    Ok((lines - 1) as u64)
}
