// Read: rows 1 to 15 of document 01's table of refusals in its order, and the table of the sheet.

#![tactic(auto)]

ghost use Rattle.std.specs.Prelude.{◌≡◌, ◌*◌, ◌≤◌, length};
ghost use Rattle.lines.specs.Lined.{Lined};
ghost use Rattle.reading.specs.Read.{ReadLeaves};
ghost use Rattle.reading.specs.Name.{label_in, PartLeaves, NameLeaves};
ghost use Rattle.reading.specs.ReadStages.{Passed, Resolves, SheetReads};

use refusals::{Reply, Row, Verdict};

// Rows 8 to 15, and owners and targets in a table of lines.
fn resolve(text: &[u8], table: &mut [i64], n: usize) -> Verdict
    requires { Lined text.now table.old n }
    ensures { Resolves text.now table.old n result table.new }
{
    tree::read_tree(table, n)?;
    paths::read_paths(text, table, n)
}

// Rows 5 to 15 of a text that rows 1 to 4 let pass. Where they refuse, the table is for the caller to clear.
pub fn read_sheet(text: &[u8], n: usize, table: &mut [i64]) -> Verdict
    requires { Passed text.now n × (8 * n ≤ length table.old) }
    ensures { SheetReads text.now (length table.old) result table.new }
{
    lines::read_lines(text, n, table)?;
    cells::clear_from(table, 8 * n);
    resolve(text, table, n)
}

// Rows 4 to 15 of a text that rows 1 to 3 let pass.
fn read_body(text: &[u8], n: usize, table: &mut [i64]) -> Reply
    requires { Passed text.now n }
    ensures { ReadLeaves text.now (length table.old) result table.new }
{
    if table.len() < 8 * n {
        cells::clear(table);
        return Err(Row::Buffers.at(1));
    }
    match read_sheet(text, n, table) {
        Ok(()) => Ok(n as u64),
        Err(refusal) => {
            cells::clear(table);
            Err(refusal)
        }
    }
}

// Read.
pub fn read(text: &[u8], table: &mut [i64]) -> Reply
    ensures { ReadLeaves text.now (length table.old) result table.new }
{
    match lines::check_head(text) {
        Ok(n) => read_body(text, n as usize, table),
        Err(refusal) => {
            cells::clear(table);
            Err(refusal)
        }
    }
}

// ---- Name

// A part of the text: its start and its length, 0 and 0 where it is empty. C sees it as it is.
#[repr(C)]
#[derive(Clone, Copy)]
pub struct TextPart {
    pub start: u64,
    pub length: u64,
}

// The label that an i64 is; 0 where it is outside 1 to n.
fn label_in(label: i64, n: usize) -> usize
    ensures { result ≡ label_in n label }
{
    let l = cells::nat_of(label);
    if l <= n { l } else { 0 }
}

// Where the name field of a label stands in the text, and the table as Read writes it.
pub fn name_part(text: &[u8], table: &mut [i64], label: i64) -> TextPart
    ensures { PartLeaves text.now (length table.old) label result table.new }
{
    match read(text, table) {
        Ok(n) => {
            let l = label_in(label, n as usize);
            TextPart {
                start: cells::cell_at(table, l, cells::NAME_START) as u64,
                length: cells::cell_at(table, l, cells::NAME_LENGTH) as u64,
            }
        }
        Err(_) => TextPart {
            start: 0,
            length: 0,
        },
    }
}

// Name: that very part of the caller's text. Promised are its bytes, and its place: the text's own block, so many bytes from where the
// text begins.
pub fn name<'a>(text: &'a [u8], table: &mut [i64], label: i64) -> &'a [u8]
    ensures { NameLeaves text.now (length table.old) label text.entry.ref_ptr result.now result.ref_ptr table.new }
{
    let part = name_part(text, table, label);
    let start = part.start as usize;
    let end = start + part.length as usize;
    &text[start..end]
}
