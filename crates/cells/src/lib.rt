// Signed cells of lent buffers. Arithmetic on a cell's sign and bits stands here, so that what is above works on
// usize, u64 and bool and passes an i64 on whole. Readers are total: past the end there is a 0.

#![tactic(auto)]

ghost use Rattle.std.specs.Prelude.{◌≡◌, true, [], ◌∷◌, ◌+◌, ◌-◌, ◌*◌, ◌^◌, ◌≤◌, ◌<◌, length, set, pos};
ghost use Rattle.std.proofs.lemmas.List.Edits.{sets};
ghost use Rattle.cells.specs.Limits.{size_limit};
ghost use Rattle.cells.specs.Cells.{nat_of, with_sign, int_at, nat_at, zeros};
ghost use Rattle.cells.specs.Clearing.{clear_from};
ghost use Rattle.kinds.specs.Kinds.{is_kind};
ghost use Rattle.kinds.specs.Coded.{own_code, kind_with};
ghost use Rattle.cells.specs.Table.{cell, kind};

mod checked;

pub use checked::ReadTable;
use kinds::Kind;

// ---- names for what cells hold

// The eight cells of a label: kind code, byte start and length of the name field, a, b, c, owner, target.
pub const KIND: usize = 0;

pub const NAME_START: usize = 1;

pub const NAME_LENGTH: usize = 2;

pub const A: usize = 3;

pub const B: usize = 4;

pub const C: usize = 5;

pub const OWNER: usize = 6;

pub const TARGET: usize = 7;

// ---- the limits of a sheet

// Its bytes, and its lines: the column names, and one for each of 1,024 labels.
pub const SIZE_LIMIT: usize = 65536;

pub const LINE_LIMIT: usize = 1025;

// The letters and digits of a name, the names of a path, and the level of an expression.
pub const NAME_LIMIT: usize = 16;

pub const PATH_LIMIT: usize = 8;

pub const LEVEL_LIMIT: usize = 32;

// The pairs of a list of new numbers.
pub const PAIR_LIMIT: usize = 1024;

// ---- the sign and the size of a cell

// x, or 0 where x is negative.
pub fn nat_of(x: i64) -> usize
    ensures { result ≡ nat_of x }
{
    if x < 0 { 0 } else { x as usize }
}

// The number of size m with the given sign.
pub fn with_sign(negative: bool, m: u64) -> i64
    requires { m < 2 ^ 63 }
    ensures { result ≡ with_sign negative m }
{
    let x = m as i64;
    if negative { -x } else { x }
}

// ---- cells by index

// Cell i as it stands.
pub fn int_at(t: &[i64], i: usize) -> i64
    ensures { result ≡ int_at t.now i }
{
    if i < t.len() { t[i] } else { 0 }
}

// Cell i, or 0 where it is negative.
pub fn nat_at(t: &[i64], i: usize) -> usize
    ensures { result ≡ nat_at t.now i }
{
    nat_of(int_at(t, i))
}

// Cell i becomes v.
pub fn put_nat(t: &mut [i64], i: usize, v: usize)
    requires { (i < length t.old) × (v ≤ size_limit) }
    ensures { t.new ≡ set t.old i (pos v) }
{
    t[i] = v as i64;
}

// Three cells from index i on become x, y and z.
pub fn put_three(t: &mut [i64], i: usize, x: i64, y: i64, z: i64)
    requires { i + 3 ≤ length t.old }
    ensures { t.new ≡ sets t.old i (x ∷ y ∷ z ∷ []) }
{
    t[i] = x;
    t[i + 1] = y;
    t[i + 2] = z;
}

// Every cell from index start on becomes 0.
pub fn clear_from(t: &mut [i64], start: usize)
    ensures { t.new ≡ clear_from start t.old }
{
    for i in start..t.len() {
        t[i] = 0;
    }
}

// Every cell becomes 0.
pub fn clear(t: &mut [i64])
    ensures { t.new ≡ zeros (length t.old) }
{
    clear_from(t, 0);
}

// ---- cells by label

// Cell j of the label.
pub fn cell_at(t: &[i64], label: usize, j: usize) -> usize
    requires { j < 8 }
    ensures { result ≡ cell t.now label j }
{
    if label == 0 {
        return 0;
    }
    // such a label is past the end, and the index may not fit
    if t.len() < label {
        return 0;
    }
    nat_at(t, 8 * (label - 1) + j)
}

// The kind of the label; none of what is no label.
pub fn kind_at(t: &[i64], label: usize) -> Option<Kind>
    ensures { result ≡ kind_with (kind t.now label) }
{
    Kind::of_code(cell_at(t, label, KIND))
}

// The same of a label that the table is known to have: where it stands is not tested.
pub fn label_cell(t: &[i64], label: usize, j: usize) -> usize
    requires { (1 ≤ label) × (8 * label ≤ length t.now) × (j < 8) }
    ensures { result ≡ cell t.now label j }
{
    nat_of(t[8 * (label - 1) + j])
}

// The same where the cell is known to hold a natural number: read as it stands.
pub fn natural_cell(t: &[i64], label: usize, j: usize) -> usize
    requires { (1 ≤ label) × (8 * label ≤ length t.now) × (j < 8) × (int_at t.now (8 * (label - 1) + j) ≡ pos (cell t.now label j)) }
    ensures { result ≡ cell t.now label j }
{
    t[8 * (label - 1) + j] as usize
}

// The kind of a label whose cell is known to hold one.
pub fn label_kind(t: &[i64], label: usize) -> Kind
    requires { (1 ≤ label) × (8 * label ≤ length t.now) × (is_kind (kind t.now label) ≡ true) }
    ensures { own_code result ≡ kind t.now label }
{
    Kind::of_code(label_cell(t, label, KIND)).unwrap()
}

// Cell j of the label becomes v.
pub fn put_cell(t: &mut [i64], label: usize, j: usize, v: usize)
    requires { (1 ≤ label) × (8 * label ≤ length t.old) × (j < 8) × (v ≤ size_limit) }
    ensures { t.new ≡ set t.old (8 * (label - 1) + j) (pos v) }
{
    put_nat(t, 8 * (label - 1) + j, v);
}
