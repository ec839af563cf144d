// A table that Read accepts, so that its cells are read with no test.

ghost use Rattle.std.specs.Prelude.{◌≡◌, ◌≤◌, ◌<◌};
ghost use Rattle.kinds.specs.Coded.{own_code};
ghost use Rattle.kinds.specs.GivesValues.{gives_values};
ghost use Rattle.cells.specs.Table.{cell, kind, is_definition, has_path};
ghost use Rattle.cells.specs.Accepted.{Accepted};

use kinds::Kind;

// The cells of such a table, and how many labels it has.
#[derive(Clone, Copy)]
pub struct ReadTable<'a> {
    pub cells: &'a [i64],
    pub n: usize,
    ghost accepted: { Accepted cells.now n },
}

impl<'a> ReadTable<'a> {
    // Cell j of a label, which is b or a later one.
    pub fn cell(self, label: usize, j: usize) -> usize
        requires { (1 ≤ label) × (label ≤ self.n) × (4 ≤ j) × (j < 8) }
        ensures { result ≡ cell self.entry.cells.now label j }
    {
        self.cells[8 * (label - 1) + j] as usize
    }

    // The code of its kind.
    fn code(self, label: usize) -> usize
        requires { (1 ≤ label) × (label ≤ self.n) }
        ensures { result ≡ kind self.entry.cells.now label }
    {
        self.cells[8 * (label - 1)] as usize
    }

    // Its kind.
    pub fn kind(self, label: usize) -> Kind
        requires { (1 ≤ label) × (label ≤ self.n) }
        ensures { own_code result ≡ kind self.entry.cells.now label }
    {
        Kind::of_code(self.code(label)).unwrap()
    }

    // Whether it is a definition.
    pub fn is_definition(self, label: usize) -> bool
        requires { (1 ≤ label) × (label ≤ self.n) }
        ensures { result ≡ is_definition self.entry.cells.now label }
    {
        self.kind(label).is_definition()
    }

    // Whether it has a path.
    pub fn has_path(self, label: usize) -> bool
        requires { (1 ≤ label) × (label ≤ self.n) }
        ensures { result ≡ has_path self.entry.cells.now label }
    {
        self.kind(label).has_path()
    }

    // Whether it has values in a plan: a Group or a value.
    pub fn gives_values(self, label: usize) -> bool
        requires { (1 ≤ label) × (label ≤ self.n) }
        ensures { result ≡ gives_values (kind self.entry.cells.now label) }
    {
        self.kind(label).gives_values()
    }
}
