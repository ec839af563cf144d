// The tree of a table: rows 8 to 11 of document 01's table of refusals, and the owner of each label. A user's label is below that of what
// it uses, so that one pass upward through the labels does it all; levels stand in the target cells meanwhile.

#![tactic(auto)]

ghost use Rattle.std.specs.Prelude.{◌≡◌, ◌==◌, true, cond, ◌&&◌, ◌+◌, ◌≤◌, ◌<◌};
ghost use Rattle.kinds.specs.Kinds.{group_code};
ghost use Rattle.cells.specs.Limits.{label_limit};
ghost use Rattle.cells.specs.Lists.{all};
ghost use Rattle.cells.specs.Table.{cell, kind, owner, target, is_expression};
ghost use Rattle.refusals.specs.Refusal.{Fine, Refused, first_bad, hit, or_else};
ghost use Rattle.refusals.specs.Rows.{uses_row};
ghost use Rattle.tree.specs.Tree.{part_right, parts, structure_right, structure_bad, argument_in, above_levels, tree_bad};
ghost use Rattle.tree.specs.Treed.{Formed, Plain, Written};
ghost use Rattle.tree.specs.TreeSteps.{HasCells, part_in, node_at, Known, OfKind, group_fits, part_fits, owned_once, used_right};
ghost use Rattle.tree.specs.TreeSteps.{assigned, claimed, claimed_all, propagated, HasPart, Inside, Propagable};

use kinds::{Form, Kind};
use refusals::{Row, Verdict};

// ---- one line

// What field j of a label holds as a body or operand. Each check and each write reads the parts anew: a struct of the three, kept for them
// all, costs more than it spares.
fn part_at(table: &[i64], label: usize, j: usize, form: Form) -> Option<usize>
    requires { HasCells table.now label × (j < 8) }
    ensures { result ≡ part_in form (cell table.now label j) }
{
    match form {
        Form::Operand => Some(cells::label_cell(table, label, j)),
        _ => None,
    }
}

// Whether the line is an expression; what is no label is none.
fn is_expression(table: &[i64], label: usize) -> bool
    ensures { result ≡ is_expression table.now label }
{
    match cells::kind_at(table, label) {
        Some(kind) => kind.is_expression(),
        None => false,
    }
}

// Whether it is a Group.
fn is_group(table: &[i64], label: usize) -> bool
    ensures { result ≡ (kind table.now label == group_code) }
{
    match cells::kind_at(table, label) {
        Some(kind) => kind == Kind::Group,
        None => false,
    }
}

// ---- the rows, a label at a time

// Whether the Group of a definition is a G with a smaller label; label 1's is not judged.
fn group_right(table: &[i64], label: usize, definition: bool) -> bool
    requires { HasCells table.now label }
    ensures { result ≡ group_fits table.now label definition }
{
    if label < 2 || !definition {
        return true;
    }
    let group = cells::label_cell(table, label, cells::A);
    group < label && is_group(table, group)
}

// Whether what a field holds as a body or operand is an expression with a larger label.
fn part_right(table: &[i64], label: usize, part: Option<usize>) -> bool
    ensures { result ≡ part_fits table.now label part }
{
    match part {
        Some(x) => label < x && is_expression(table, x),
        None => true,
    }
}

// Whether the body or operands of a line are expressions with larger labels.
fn parts_right(table: &[i64], label: usize, kind: Kind) -> bool
    requires { OfKind table.now label kind }
    ensures { result ≡ all (part_right table.now label) (parts table.now label) }
{
    let fields = kind.fields();
    part_right(table, label, part_at(table, label, cells::A, fields.a))
        && part_right(table, label, part_at(table, label, cells::B, fields.b))
        && part_right(table, label, part_at(table, label, cells::C, fields.c))
}

// Row 8: the Group of a definition, and the body or operands of a line.
fn structure_right(table: &[i64], label: usize, kind: Kind) -> bool
    requires { OfKind table.now label kind }
    ensures { result ≡ structure_right table.now label }
{
    group_right(table, label, kind.is_definition()) && parts_right(table, label, kind)
}

// Row 8, if it refuses the label.
fn structure_bad(table: &[i64], label: usize) -> Option<Row>
    requires { Known table.now label }
    ensures { result ≡ structure_bad table.now label }
{
    let kind = cells::label_kind(table, label);
    if structure_right(table, label, kind) {
        None
    } else {
        Some(Row::Structure)
    }
}

// Row 8 alone, upward through the labels.
fn first_bad(table: &[i64], n: usize) -> Verdict
    requires { Formed table.now n }
    ensures { result ≡ first_bad (structure_bad table.now) 1 n }
{
    for label in 1..n + 1 {
        if let Some(row) = structure_bad(table, label) {
            return Err(row.at(label as u64));
        }
    }
    Ok(())
}

// No label: the owner of an expression that is used more than once.
const TWICE: usize = 1025;

// Row 9, by the owner cell: an expression is used by one field, once.
fn used_once(owner: usize) -> bool
    ensures { result ≡ owned_once owner }
{
    0 < owner && owner < TWICE
}

// Row 10: the body of its owner is not given the argument that a line stands for.
fn argument_bad(table: &[i64], label: usize) -> Option<Row>
    requires { HasCells table.now label }
    ensures { result ≡ argument_in (kind table.now label) (kind table.now (owner table.now label)) }
{
    let place = Kind::of_code(cells::label_cell(table, label, cells::KIND))?.argument_place();
    if place == 0 {
        return None;
    }
    let owner = cells::label_cell(table, label, cells::OWNER);
    match cells::kind_at(table, owner) {
        Some(kind) if place <= kind.takes() => None,
        _ => Some(Row::Argument),
    }
}

// Row 11, by the level in the target cell: above 32.
fn level_bad(table: &[i64], label: usize) -> Option<Row>
    requires { HasCells table.now label }
    ensures { result ≡ above_levels (target table.now label) }
{
    if cells::LEVEL_LIMIT < cells::label_cell(table, label, cells::TARGET) {
        Some(Row::Level)
    } else {
        None
    }
}

// ---- owners and levels

// Owner and level of a label.
fn assign(table: &mut [i64], label: usize, owner: usize, level: usize)
    requires { HasCells table.old label × (owner ≤ label_limit) × (level ≤ label_limit + 1) }
    ensures { table.new ≡ assigned label owner level table.old }
{
    cells::put_cell(table, label, cells::OWNER, owner);
    cells::put_cell(table, label, cells::TARGET, level);
}

// A use of a part: the first gives it its owner and level.
fn claim(table: &mut [i64], part: Option<usize>, owner: usize, level: usize)
    requires { HasPart table.old part × (owner ≤ label_limit) × (level ≤ label_limit + 1) }
    ensures { table.new ≡ claimed part owner level table.old }
{
    if let Some(x) = part {
        if cells::label_cell(table, x, cells::OWNER) == 0 {
            assign(table, x, owner, level);
        } else {
            cells::put_cell(table, x, cells::OWNER, TWICE);
        }
    }
}

// A use of each part of a line.
fn claim_parts(table: &mut [i64], label: usize, kind: Kind, owner: usize, level: usize)
    requires { OfKind table.old label kind × Inside table.old (node_at table.old label) × (owner ≤ label_limit) × (level ≤ label_limit + 1) }
    ensures { table.new ≡ claimed_all (node_at table.old label) owner level table.old }
{
    let fields = kind.fields();
    let a = part_at(table, label, cells::A, fields.a);
    claim(table, a, owner, level);
    let b = part_at(table, label, cells::B, fields.b);
    claim(table, b, owner, level);
    let c = part_at(table, label, cells::C, fields.c);
    claim(table, c, owner, level);
}

// Row 9 at a label; if it is right, a definition owns its body, at level 1, and has its Group as owner, and an expression propagates its
// owner to its operands, one level deeper.
fn propagate(table: &mut [i64], label: usize, kind: Kind) -> bool
    requires { Propagable table.old label × OfKind table.old label kind }
    ensures value { result ≡ used_right table.old label }
    ensures table_after { table.new ≡ cond result (propagated label table.old) table.old }
{
    if kind.is_definition() {
        let group = cells::label_cell(table, label, cells::A);
        assign(table, label, group, 0);
        claim_parts(table, label, kind, label, 1);
        return true;
    }
    let owner = cells::label_cell(table, label, cells::OWNER);
    if used_once(owner) {
        let level = cells::label_cell(table, label, cells::TARGET);
        claim_parts(table, label, kind, owner, level + 1);
        return true;
    }
    false
}

// Rows 8 and 9 at a label; if both are right, its parts have their owner and level.
fn settle(table: &mut [i64], label: usize) -> bool
    requires { Known table.old label × (structure_right table.old label ≡ true → Propagable table.old label) }
    ensures value { result ≡ (structure_right table.old label && used_right table.old label) }
    ensures table_after { table.new ≡ cond result (propagated label table.old) table.old }
{
    let kind = cells::label_kind(table, label);
    structure_right(table, label, kind) && propagate(table, label, kind)
}

// ---- rows 8 to 11

// Adds to what a row has found what its check of this label gives. In place: handed in and out, a verdict is copied at each label.
fn and_label(verdict: &mut Verdict, check: Option<Row>, label: usize)
    ensures { verdict.new ≡ or_else verdict.old (hit check label Fine) }
{
    if let Some(row) = check {
        *verdict = verdict.and(Err(row.at(label as u64)));
    }
}

// A label fails row 8 or 9. Row 8 comes first, wherever it fails.
fn early_verdict(table: &[i64], n: usize, label: usize) -> Verdict
    requires { Formed table.now n }
    ensures { result ≡ or_else (first_bad (structure_bad table.now) 1 n) (Refused uses_row label) }
{
    first_bad(table, n)?;
    Err(Row::Uses.at(label as u64))
}

// Rows 8 to 11, and the owner of each label. What uses a label has a smaller one, so that its uses, owner and level are final when the
// pass comes to it.
pub fn read_tree(table: &mut [i64], n: usize) -> Verdict
    requires { Plain table.old n }
    ensures value { result ≡ tree_bad table.old n }
    ensures written { Written result table.old n table.new }
{
    let mut argument: Verdict = Ok(());
    let mut level: Verdict = Ok(());
    for label in 1..n + 1 {
        if !settle(table, label) {
            return early_verdict(table, n, label);
        }
        and_label(&mut argument, argument_bad(table, label), label);
        and_label(&mut level, level_bad(table, label), label);
        cells::put_cell(table, label, cells::TARGET, 0);
    }
    argument.and(level)
}
