// Document 01's table of kinds, and what a kind is: the other crates ask here. The constant table holds the fields; the other columns of a
// row are methods of its kind.

#![tactic(auto)]

ghost use Rattle.std.specs.Prelude.{◌≡◌};
ghost use Rattle.kinds.specs.Kinds.{fields_at, code_of, is_definition, is_expression, has_path, clause_of, wanted_by, takes, argument_place};
ghost use Rattle.kinds.specs.Coded.{own_code, kind_with};
ghost use Rattle.kinds.specs.GivesValues.{gives_values};

// ---- what a row holds

// What a field of a line holds. `Missing` is `-` alone; `Group` and `Operand` are label fields, of a Group and of an expression.
#[derive(Clone, Copy)]
pub enum Form {
    Missing,
    Name,
    Path,
    Group,
    Operand,
    Number,
}

// The five fields of a line: the letter of its kind, and what the others hold.
#[derive(Clone, Copy)]
pub struct Fields {
    pub letter: u8,
    pub name: Form,
    pub a: Form,
    pub b: Form,
    pub c: Form,
}

// A, S, M and D of document 01; the difference is a - b.
#[derive(Clone, Copy)]
pub enum Operation {
    Sum,
    Difference,
    Product,
    Quotient,
}

// The clause of document 01's "Working out" that evaluates an expression; a definition has none. An argument has its place among those
// of a function, from 1, and a call the number of arguments that it hands on.
#[derive(Clone, Copy)]
pub enum Clause {
    None,
    Number,
    Argument(usize),
    Read,
    Call(usize),
    Operation(Operation),
    Choice,
}

// A kind of line, with its code: the place of its row, from 1. By it a kind stands in a table's cell.
#[derive(Clone, Copy, PartialEq, Eq)]
pub enum Kind {
    Group = 1,
    Value = 2,
    Function = 3,
    Number = 4,
    Argument = 5,
    Read = 6,
    Call = 7,
    Sum = 8,
    Difference = 9,
    Product = 10,
    Quotient = 11,
    Choice = 12,
}

// ---- the table

// Document 01's one fixed table of twelve rows. A kind's code is the place of its row, from 1.
static KINDS: [Fields; 12] = [
    Fields {
        letter: b'G',
        name: Form::Name,
        a: Form::Group,
        b: Form::Missing,
        c: Form::Missing,
    },
    Fields {
        letter: b'V',
        name: Form::Name,
        a: Form::Group,
        b: Form::Operand,
        c: Form::Missing,
    },
    Fields {
        letter: b'F',
        name: Form::Name,
        a: Form::Group,
        b: Form::Operand,
        c: Form::Missing,
    },
    Fields {
        letter: b'N',
        name: Form::Missing,
        a: Form::Number,
        b: Form::Missing,
        c: Form::Missing,
    },
    Fields {
        letter: b'P',
        name: Form::Missing,
        a: Form::Missing,
        b: Form::Missing,
        c: Form::Missing,
    },
    Fields {
        letter: b'R',
        name: Form::Path,
        a: Form::Missing,
        b: Form::Missing,
        c: Form::Missing,
    },
    Fields {
        letter: b'C',
        name: Form::Path,
        a: Form::Operand,
        b: Form::Missing,
        c: Form::Missing,
    },
    Fields {
        letter: b'A',
        name: Form::Missing,
        a: Form::Operand,
        b: Form::Operand,
        c: Form::Missing,
    },
    Fields {
        letter: b'S',
        name: Form::Missing,
        a: Form::Operand,
        b: Form::Operand,
        c: Form::Missing,
    },
    Fields {
        letter: b'M',
        name: Form::Missing,
        a: Form::Operand,
        b: Form::Operand,
        c: Form::Missing,
    },
    Fields {
        letter: b'D',
        name: Form::Missing,
        a: Form::Operand,
        b: Form::Operand,
        c: Form::Missing,
    },
    Fields {
        letter: b'I',
        name: Form::Missing,
        a: Form::Operand,
        b: Form::Operand,
        c: Form::Operand,
    },
];

impl Kind {
    // Its code.
    pub fn code(self) -> usize
        ensures { result ≡ own_code self }
    {
        self as usize
    }

    // The kind that has this code.
    #[tactic(auto, unfolding(crate::specs::Coded::kind_with, crate::specs::Coded::every_kind))]
    pub fn of_code(code: usize) -> Option<Kind>
        ensures { result ≡ kind_with code }
    {
        match code {
            1 => Some(Kind::Group),
            2 => Some(Kind::Value),
            3 => Some(Kind::Function),
            4 => Some(Kind::Number),
            5 => Some(Kind::Argument),
            6 => Some(Kind::Read),
            7 => Some(Kind::Call),
            8 => Some(Kind::Sum),
            9 => Some(Kind::Difference),
            10 => Some(Kind::Product),
            11 => Some(Kind::Quotient),
            12 => Some(Kind::Choice),
            _ => None,
        }
    }

    // The kind that has this letter.
    pub fn of_letter(letter: u8) -> Option<Kind>
        ensures { result ≡ kind_with (code_of letter) }
    {
        for (i, row) in KINDS.iter().enumerate() {
            if row.letter == letter {
                return Kind::of_code(i + 1);
            }
        }
        None
    }

    // ---- its row

    // Its fields.
    pub fn fields(self) -> Fields
        ensures { result ≡ fields_at (own_code self) }
    {
        KINDS[self.code() - 1]
    }

    // Whether its lines are definitions.
    #[tactic(auto, unfolding(crate::specs::Kinds::is_definition, crate::specs::Kinds::kind_at, crate::specs::Kinds::kinds))]
    pub fn is_definition(self) -> bool
        ensures { result ≡ is_definition (own_code self) }
    {
        matches!(self, Kind::Group | Kind::Value | Kind::Function)
    }

    // Whether they are expressions: the rest of the kinds.
    pub fn is_expression(self) -> bool
        ensures { result ≡ is_expression (own_code self) }
    {
        !self.is_definition()
    }

    // The kind that their path must end at, where they have one.
    #[tactic(auto, unfolding(crate::specs::Kinds::wanted_by, crate::specs::Kinds::kind_at, crate::specs::Kinds::kinds, crate::specs::Coded::kind_with, crate::specs::Coded::every_kind))]
    pub fn wants(self) -> Option<Kind>
        ensures { result ≡ kind_with (wanted_by (own_code self)) }
    {
        match self {
            Kind::Read => Some(Kind::Value),
            Kind::Call => Some(Kind::Function),
            _ => None,
        }
    }

    // Whether they have a path: it must end at some kind.
    pub fn has_path(self) -> bool
        ensures { result ≡ has_path (own_code self) }
    {
        self.wants().is_some()
    }

    // How many arguments their body is given.
    #[tactic(auto, unfolding(crate::specs::Kinds::takes, crate::specs::Kinds::kind_at, crate::specs::Kinds::kinds))]
    pub fn takes(self) -> usize
        ensures { result ≡ takes (own_code self) }
    {
        match self {
            Kind::Function => 1,
            _ => 0,
        }
    }

    // The clause that evaluates them.
    #[tactic(auto, unfolding(crate::specs::Kinds::clause_of, crate::specs::Kinds::kind_at, crate::specs::Kinds::kinds))]
    pub fn clause(self) -> Clause
        ensures { result ≡ clause_of (own_code self) }
    {
        match self {
            Kind::Number => Clause::Number,
            Kind::Argument => Clause::Argument(1),
            Kind::Read => Clause::Read,
            Kind::Call => Clause::Call(1),
            Kind::Sum => Clause::Operation(Operation::Sum),
            Kind::Difference => Clause::Operation(Operation::Difference),
            Kind::Product => Clause::Operation(Operation::Product),
            Kind::Quotient => Clause::Operation(Operation::Quotient),
            Kind::Choice => Clause::Choice,
            Kind::Group | Kind::Value | Kind::Function => Clause::None,
        }
    }

    // The place of the argument that they stand for; 0 where they stand for none, since no body is given fewer.
    pub fn argument_place(self) -> usize
        ensures { result ≡ argument_place (own_code self) }
    {
        match self.clause() {
            Clause::Argument(place) => place,
            _ => 0,
        }
    }

    // Whether they have values in a plan: Groups and values.
    pub fn gives_values(self) -> bool
        ensures { result ≡ gives_values (own_code self) }
    {
        self.is_definition() && self.takes() == 0
    }
}

// ---- by a code

// The same, by a code: of a code that no kind has, what the table's definitions say of it.

// The code of the kind with this letter, or 0.
pub fn code_of(letter: u8) -> usize
    ensures { result ≡ code_of letter }
{
    Kind::of_letter(letter).map_or(0, Kind::code)
}

pub fn is_definition(code: usize) -> bool
    ensures { result ≡ is_definition code }
{
    Kind::of_code(code).is_some_and(Kind::is_definition)
}

pub fn is_expression(code: usize) -> bool
    ensures { result ≡ is_expression code }
{
    Kind::of_code(code).is_some_and(Kind::is_expression)
}

// The code of the kind that their path must end at; 0 where they have no path.
pub fn wanted_by(code: usize) -> usize
    ensures { result ≡ wanted_by code }
{
    Kind::of_code(code)
        .and_then(Kind::wants)
        .map_or(0, Kind::code)
}

pub fn has_path(code: usize) -> bool
    ensures { result ≡ has_path code }
{
    Kind::of_code(code).is_some_and(Kind::has_path)
}

pub fn takes(code: usize) -> usize
    ensures { result ≡ takes code }
{
    Kind::of_code(code).map_or(0, Kind::takes)
}

pub fn clause_of(code: usize) -> Clause
    ensures { result ≡ clause_of code }
{
    Kind::of_code(code).map_or(Clause::None, Kind::clause)
}

pub fn argument_place(code: usize) -> usize
    ensures { result ≡ argument_place code }
{
    Kind::of_code(code).map_or(0, Kind::argument_place)
}

pub fn gives_values(code: usize) -> bool
    ensures { result ≡ gives_values code }
{
    Kind::of_code(code).is_some_and(Kind::gives_values)
}
