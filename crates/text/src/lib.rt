// The text of a sheet: its bytes, the pieces between separators, and the forms of a field.

#![tactic(auto)]

ghost use Rattle.std.specs.Prelude.{◌≡◌, ◌+◌, ◌≤◌, ◌<◌, Some, IfSome, eqb, length, true};
ghost use Rattle.std.proofs.Math.Seq.{slice};
ghost use Rattle.cells.specs.Limits.{label_limit, number_limit, size_limit};
ghost use Rattle.numbers.specs.Decimal.{digits_of, decimal_of};
ghost use Rattle.text.specs.Bytes.{count_by, is_newline, lowercase_byte, lowercase, same, ends_lines};
ghost use Rattle.text.specs.Words.{bytes_in};
ghost use Rattle.text.specs.Forms.{is_name, is_path, label_of};
ghost use Rattle.text.specs.Scans.{block_size, run_end, field_end, is_bad, is_graphic, EndsAt, NameTo, DigitsTo};

// ---- the bytes of a text

// Whether row 1 does not allow a byte.
#[tactic(auto, using(std::proofs::lemmas::Bool::Decides::nat_tests), unfolding(crate::specs::Bytes::is_allowed))]
fn is_bad(b: u8) -> bool
    ensures { result ≡ is_bad b }
{
    b != b'\n' && (b < b' ' || b'~' < b)
}

// How many bytes of a text row 1 does not allow, and how many lines it has. A block's counts fit one byte, so that sixteen bytes are counted
// at once.
#[derive(Clone, Copy)]
pub struct Counts<N> {
    pub bad: N,
    pub lines: N,
}

// How many bytes are counted in one block.
const BLOCK: usize = 128;

// A block is counted.
fn survey_block(block: &[u8]) -> Counts<u8>
    requires { length block.now ≤ block_size }
    ensures { (result.bad ≡ count_by is_bad block.now) × (result.lines ≡ count_by is_newline block.now) }
{
    let mut bad: u8 = 0;
    let mut lines: u8 = 0;
    for &b in block {
        bad += u8::from(is_bad(b));
        lines += u8::from(b == b'\n');
    }
    Counts { bad, lines }
}

// Row 1's bytes and the lines are counted in one pass, block by block.
pub fn survey(text: &[u8]) -> Counts<u32>
    requires { length text.now ≤ size_limit }
    ensures { (result.bad ≡ count_by is_bad text.now) × (result.lines ≡ count_by is_newline text.now) }
{
    let mut bad: u32 = 0;
    let mut lines: u32 = 0;
    for block in text.chunks(BLOCK) {
        let block = survey_block(block);
        bad += u32::from(block.bad);
        lines += u32::from(block.lines);
    }
    Counts { bad, lines }
}

// ---- the fields of a line

// Where the bytes above the space end that begin at `from`. After row 1 that is at a space or a newline. As in the scans below, no turn tests
// where the text ends: the newline that ends it stops the loop, which a `for` would not know.
fn graphic_end(text: &[u8], from: usize) -> usize
    requires { (from < length text.now) × ends_lines text.now × (length text.now ≤ size_limit) }
    ensures { result ≡ run_end is_graphic text.now from (length text.now) }
{
    let mut i = from;
    while b' ' < text[i] {
        i += 1;
    }
    // narrowed, so that the loop counts in one register and not once for each later use of its end
    (i as u32) as usize
}

// Where the field that begins at `from` ends, if it is not empty and the byte `stop` ends it.
pub fn field_end(text: &[u8], from: usize, stop: u8) -> Option<usize>
    requires { (from < length text.now) × ends_lines text.now × (length text.now ≤ size_limit) }
    ensures { result ≡ field_end text.now from stop }
{
    let end = graphic_end(text, from);
    if from < end && text[end] == stop {
        return Some(end);
    }
    None
}

// ---- letters of two cases

// Whether two bytes are equal, or the two cases of one letter. Most that are compared are equal, so that is asked first.
pub fn same_but_case(x: u8, y: u8) -> bool
    ensures { result ≡ eqb (lowercase_byte x) (lowercase_byte y) }
{
    x == y || x.eq_ignore_ascii_case(&y)
}

// ---- eight bytes at once

// The word whose bytes are the eight of the text from `from` on.
pub fn word_at(text: &[u8], from: usize) -> u64
    requires { from + 8 ≤ length text.now }
    ensures { bytes_in 8 result ≡ slice from (from + 8) text.now }
{
    u64::from_le_bytes(*text[from..from + 8].first_chunk().unwrap())
}

// In each byte of a word: its highest bit; what lifts a capital A to that bit; what a capital Z, taken from it, leaves that bit.
const HIGH_BITS: u64 = 0x8080808080808080;

const FROM_A: u64 = 0x3f3f3f3f3f3f3f3f;

const UP_TO_Z: u64 = 0xdadadadadadadada;

// The word with small letters for capitals. Byte by byte: the highest bit of `capitals` says that the byte is from A to Z and below 128, and a
// quarter of that bit is what a small letter is more. No byte carries into the next.
fn fold_word(w: u64) -> u64
    ensures { bytes_in 8 result ≡ lowercase (bytes_in 8 w) }
{
    let high = w & HIGH_BITS;
    let low = w - high;
    let capitals = (low + FROM_A) & (UP_TO_Z - low) & (HIGH_BITS - high);
    w + capitals / 4
}

// In each byte all bits but that in which the two cases of a letter differ.
const CASELESS: u64 = 0xdfdfdfdfdfdfdfdf;

// Whether the bytes of two words are the same but for case. Most that are compared are equal, or differ in other bits than that of the case,
// so these are asked for first.
fn same_word(x: u64, y: u64) -> bool
    ensures { result ≡ same (lowercase (bytes_in 8 x)) (lowercase (bytes_in 8 y)) }
{
    if x == y {
        return true;
    }
    if x & CASELESS != y & CASELESS {
        return false;
    }
    fold_word(x) == fold_word(y)
}

// Whether the eight bytes from `a` on and those from `b` on are the same but for case.
pub fn same_eight(text: &[u8], a: usize, b: usize) -> bool
    requires { (a + 8 ≤ length text.now) × (b + 8 ≤ length text.now) }
    ensures { result ≡ same (lowercase (slice a (a + 8) text.now)) (lowercase (slice b (b + 8) text.now)) }
{
    same_word(word_at(text, a), word_at(text, b))
}

// ---- the forms of a field

// A name: 1 to 16 letters or digits, a letter first.
pub fn is_name(field: &[u8]) -> bool
    ensures { result ≡ is_name field.now }
{
    if field.is_empty() || cells::NAME_LIMIT < field.len() {
        return false;
    }
    field[0].is_ascii_alphabetic() && field.iter().all(|b| b.is_ascii_alphanumeric())
}

// A path: 1 to 8 names joined by dots.
pub fn is_path(field: &[u8]) -> bool
    ensures { result ≡ is_path field.now }
{
    field.split(|b| *b == b'.').count() <= cells::PATH_LIMIT
        && field.split(|b| *b == b'.').all(|name| is_name(name))
}

// The label of a label field, which is 1 to n.
pub fn read_label(field: &[u8], n: u64) -> Option<u64>
    requires { n ≤ label_limit }
    ensures { result ≡ label_of n field.now }
{
    let v = numbers::read_decimal(field, n)?;
    if v == 0 {
        return None;
    }
    Some(v)
}

// ---- fields in one scan: read until a byte that they cannot hold, and taken where the byte `stop` stands there

// Where the name ends that begins at `from`, whatever stands there. It has 16 bytes at most, so that no more are looked at.
fn next_name(text: &[u8], from: usize) -> Option<usize>
    requires { (from < length text.now) × ends_lines text.now }
    ensures { IfSome result (λ e. NameTo text.now from e) }
{
    if !text[from].is_ascii_alphabetic() {
        return None;
    }
    for size in 1..cells::NAME_LIMIT + 1 {
        if !text[from + size].is_ascii_alphanumeric() {
            return Some(from + size);
        }
    }
    None
}

// Where the name ends that begins at `from`.
pub fn scan_name(text: &[u8], from: usize, stop: u8) -> Option<usize>
    requires { (from < length text.now) × ends_lines text.now }
    ensures { IfSome result (λ e. EndsAt text.now from stop e × (is_name (slice from e text.now) ≡ true)) }
{
    let end = next_name(text, from)?;
    if text[end] == stop {
        return Some(end);
    }
    None
}

// Where the path ends that begins at `from`.
pub fn scan_path(text: &[u8], from: usize, stop: u8) -> Option<usize>
    requires { (from < length text.now) × ends_lines text.now }
    ensures { IfSome result (λ e. EndsAt text.now from stop e × (is_path (slice from e text.now) ≡ true)) }
{
    let mut at = from;
    for _name in 0..cells::PATH_LIMIT {
        let end = next_name(text, at)?;
        if text[end] == stop {
            return Some(end);
        }
        if text[end] != b'.' {
            return None;
        }
        at = end + 1;
    }
    None
}

// Where digits end, and their value.
#[derive(Clone, Copy)]
pub struct Digits {
    pub end: usize,
    pub value: u64,
}

// The digits that begin at `from`, whatever stands after them, if their value is at most max.
fn digits_end(text: &[u8], from: usize, max: u64) -> Option<Digits>
    requires { (from < length text.now) × ends_lines text.now × (max ≤ number_limit) }
    ensures { IfSome result (λ d. (d.value ≤ max) × DigitsTo max text.now from d.end d.value) }
{
    let mut value: u64 = 0;
    for (size, byte) in text[from..].iter().enumerate() {
        if !byte.is_ascii_digit() {
            return Some(Digits {
                end: from + size,
                value,
            });
        }
        value = 10 * value + u64::from(byte - b'0');
        if max < value {
            return None;
        }
    }
    None
}

// The digits that begin at `from`, one at least, if their value is at most max.
fn scan_digits(text: &[u8], from: usize, max: u64, stop: u8) -> Option<Digits>
    requires { (from < length text.now) × ends_lines text.now × (max ≤ number_limit) }
    ensures { IfSome result (λ d. (d.value ≤ max) × EndsAt text.now from stop d.end × (digits_of max 0 (slice from d.end text.now) ≡ Some d.value)) }
{
    let d = digits_end(text, from, max)?;
    let end = d.end;
    if end <= from {
        return None;
    }
    if text[end] != stop {
        return None;
    }
    Some(d)
}

// The label field that begins at `from`.
pub fn scan_label(text: &[u8], from: usize, n: u64, stop: u8) -> Option<Digits>
    requires { (from < length text.now) × ends_lines text.now × (n ≤ label_limit) }
    ensures { IfSome result (λ d. (d.value ≤ n) × EndsAt text.now from stop d.end × (label_of n (slice from d.end text.now) ≡ Some d.value)) }
{
    if text[from] == b'0' {
        return None;
    }
    scan_digits(text, from, n, stop)
}

// The decimal that begins at `from`, if it is at most max.
pub fn scan_decimal(text: &[u8], from: usize, max: u64, stop: u8) -> Option<Digits>
    requires { (from < length text.now) × ends_lines text.now × (max ≤ number_limit) }
    ensures { IfSome result (λ d. (d.value ≤ max) × EndsAt text.now from stop d.end × (decimal_of max (slice from d.end text.now) ≡ Some d.value)) }
{
    if text[from] != b'0' {
        return scan_digits(text, from, max, stop);
    }
    if text[from + 1] != stop {
        return None;
    }
    Some(Digits {
        end: from + 1,
        value: 0,
    })
}
