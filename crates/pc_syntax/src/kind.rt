//! Kinds of nodes, with what each may stand for and which kids it has.

ghost use Rattle.std.specs.Prelude.{◌≡◌, ◌↔◌, IsTrue};
ghost use Rattle.pc_syntax.specs.Numbers.{number_of};
ghost use Rattle.pc_syntax.specs.Slots.{is_list, least_of, places_of, count_of, class_at, class_from};
ghost use Rattle.pc_syntax.specs.Sorts.{sort_of, is_hole, bears_notes, is_noted_sort};

use crate::class::Class;
use crate::sort::Sort;

/// What a node is. The form of each stands beside it, with its kids by their classes, and `W` for its word.
#[derive(Clone, Copy, Debug, PartialEq, Eq)]
pub enum Kind {
    /// `program name heads ; block .`
    Program,
    /// `consts types vars routines body`
    Block,
    /// `identifier`
    Forward,
    /// `name = constant ;`
    Constdef,
    /// `name = denoter ;`
    Typedef,
    /// `names : denoter ;`
    Vardef,
    /// `names : denoter`
    Field,
    /// `names : name`
    Valparam,
    /// `var names : name`
    Varparam,
    /// `procedure name params ; block ;`
    Procedure,
    /// `function name params : name ; block ;`
    Function,
    /// `function name ; block ;`
    Funbody,
    /// `name`
    Tname,
    /// `( names )`
    Enum,
    /// `constant .. constant`
    Subrange,
    /// `array [ indexes ] of denoter`
    Array,
    /// `record fields [;] end`
    Record,
    /// `record end`
    Record0,
    /// `set of ordinal`
    Setof,
    /// `packed structured`
    Packed,
    /// `^ name`
    Pointer,
    /// `numeral`
    Cnumber,
    /// `text`
    Cstring,
    /// `name`
    Cname,
    /// `W bare`
    Csign,
    /// Nothing.
    Empty,
    /// `access := expression`
    Assign,
    /// `name args`
    Proc,
    /// `begin stmts end`
    Compound,
    /// `if expression then statement`
    If,
    /// `if expression then statement else statement`
    Ifelse,
    /// `case expression of arms [;] end`
    Case,
    /// `labels : statement`
    Arm,
    /// `repeat stmts until expression`
    Repeat,
    /// `while expression do statement`
    While,
    /// `for name := expression W expression do statement`
    For,
    /// `with accesses do statement`
    With,
    /// `name`
    Ref,
    /// `access [ exprs ]`
    Index,
    /// `access . name`
    Select,
    /// `access ^`
    Deref,
    /// `numeral`
    Number,
    /// `text`
    Text,
    /// `nil`
    Nil,
    /// `name ( exprs )`
    Call,
    /// `( expression )`
    Parens,
    /// `not factor`
    Not,
    /// `[ members ]`
    Setcon,
    /// `term W factor`
    Mul,
    /// `simple W term`
    Add,
    /// `W term`
    Sign,
    /// `simple W simple`
    Rel,
    /// `expression : expression`
    Width,
    /// `expression .. expression`
    Span,
    /// `identifier`
    Name,
    /// A list of `name`.
    Heads,
    /// A list of `argument`.
    Args,
    /// A list of `parameter`.
    Params,
    /// A list of `name`, one or more.
    Names,
    /// A list of `constant`, one or more.
    Labels,
    /// A list of `ordinal`, one or more.
    Indexes,
    /// A list of `expression`, one or more.
    Exprs,
    /// A list of `access`, one or more.
    Accesses,
    /// A list of `member`.
    Members,
    /// A list of `constdef`.
    Consts,
    /// A list of `typedef`.
    Types,
    /// A list of `vardef`.
    Vars,
    /// A list of `routine`.
    Routines,
    /// A list of `field`, one or more.
    Fields,
    /// A list of `statement`, one or more.
    Stmts,
    /// A list of `arm`, one or more.
    Arms,
    /// A part of this sort that is still to be written.
    Hole(Sort),
}

/// How many kids a kind has: a list at least `count`, any other exactly so many.
#[derive(Clone, Copy, Debug, PartialEq, Eq)]
pub struct Slots {
    pub list: bool,
    pub count: u32,
}

impl Kind {
    /// What it can stand for. A list has no sort.
    pub fn sort(self) -> Option<Sort>
        ensures { result ≡ sort_of self }
    {
        match self {
            Kind::Program => Some(Sort::Program),
            Kind::Block | Kind::Forward => Some(Sort::Block),
            Kind::Constdef => Some(Sort::ConstDef),
            Kind::Typedef => Some(Sort::TypeDef),
            Kind::Vardef => Some(Sort::VarDef),
            Kind::Procedure | Kind::Function | Kind::Funbody => Some(Sort::Routine),
            Kind::Valparam | Kind::Varparam => Some(Sort::Parameter),
            Kind::Tname
            | Kind::Enum
            | Kind::Subrange
            | Kind::Array
            | Kind::Record
            | Kind::Record0
            | Kind::Setof
            | Kind::Packed
            | Kind::Pointer => Some(Sort::Denoter),
            Kind::Field => Some(Sort::Field),
            Kind::Cnumber | Kind::Cstring | Kind::Cname | Kind::Csign => Some(Sort::Constant),
            Kind::Empty
            | Kind::Assign
            | Kind::Proc
            | Kind::Compound
            | Kind::If
            | Kind::Ifelse
            | Kind::Case
            | Kind::Repeat
            | Kind::While
            | Kind::For
            | Kind::With => Some(Sort::Statement),
            Kind::Arm => Some(Sort::Arm),
            Kind::Ref
            | Kind::Index
            | Kind::Select
            | Kind::Deref
            | Kind::Number
            | Kind::Text
            | Kind::Nil
            | Kind::Call
            | Kind::Parens
            | Kind::Not
            | Kind::Setcon
            | Kind::Mul
            | Kind::Add
            | Kind::Sign
            | Kind::Rel
            | Kind::Width
            | Kind::Span => Some(Sort::Expression),
            Kind::Name => Some(Sort::Name),
            Kind::Hole(sort) => Some(sort),
            _ => None,
        }
    }

    /// Whether it is a hole.
    pub fn is_hole(self) -> bool
        ensures { result ≡ is_hole self }
    {
        matches!(self, Kind::Hole(_))
    }

    /// Whether it is a list.
    pub fn is_list(self) -> bool
        ensures { result ≡ is_list self }
    {
        match self {
            Kind::Heads
            | Kind::Args
            | Kind::Params
            | Kind::Names
            | Kind::Labels
            | Kind::Indexes
            | Kind::Exprs
            | Kind::Accesses
            | Kind::Members
            | Kind::Consts
            | Kind::Types
            | Kind::Vars
            | Kind::Routines
            | Kind::Fields
            | Kind::Stmts
            | Kind::Arms => true,
            _ => false,
        }
    }

    /// How many elements a list has at least.
    fn least(self) -> u32
        ensures { result ≡ least_of self }
    {
        match self {
            Kind::Names
            | Kind::Labels
            | Kind::Indexes
            | Kind::Exprs
            | Kind::Accesses
            | Kind::Fields
            | Kind::Stmts
            | Kind::Arms => 1,
            _ => 0,
        }
    }

    /// The classes of its kids, of a list that of its elements.
    pub fn places(self) -> &'static [Class]
        ensures { result.now ≡ places_of self }
    {
        match self {
            Kind::Program => &[Class::Name, Class::Heads, Class::Block],
            Kind::Block => &[
                Class::Consts,
                Class::Types,
                Class::Vars,
                Class::Routines,
                Class::Body,
            ],
            Kind::Constdef => &[Class::Name, Class::Constant],
            Kind::Typedef => &[Class::Name, Class::Denoter],
            Kind::Vardef => &[Class::Names, Class::Denoter],
            Kind::Field => &[Class::Names, Class::Denoter],
            Kind::Valparam => &[Class::Names, Class::Name],
            Kind::Varparam => &[Class::Names, Class::Name],
            Kind::Procedure => &[Class::Name, Class::Params, Class::Block],
            Kind::Function => &[Class::Name, Class::Params, Class::Name, Class::Block],
            Kind::Funbody => &[Class::Name, Class::Block],
            Kind::Tname => &[Class::Name],
            Kind::Enum => &[Class::Names],
            Kind::Subrange => &[Class::Constant, Class::Constant],
            Kind::Array => &[Class::Indexes, Class::Denoter],
            Kind::Record => &[Class::Fields],
            Kind::Setof => &[Class::Ordinal],
            Kind::Packed => &[Class::Structured],
            Kind::Pointer => &[Class::Name],
            Kind::Cname => &[Class::Name],
            Kind::Csign => &[Class::Bare],
            Kind::Assign => &[Class::Access, Class::Expression],
            Kind::Proc => &[Class::Name, Class::Args],
            Kind::Compound => &[Class::Stmts],
            Kind::If => &[Class::Expression, Class::Statement],
            Kind::Ifelse => &[Class::Expression, Class::Statement, Class::Statement],
            Kind::Case => &[Class::Expression, Class::Arms],
            Kind::Arm => &[Class::Labels, Class::Statement],
            Kind::Repeat => &[Class::Stmts, Class::Expression],
            Kind::While => &[Class::Expression, Class::Statement],
            Kind::For => &[
                Class::Name,
                Class::Expression,
                Class::Expression,
                Class::Statement,
            ],
            Kind::With => &[Class::Accesses, Class::Statement],
            Kind::Ref => &[Class::Name],
            Kind::Index => &[Class::Access, Class::Exprs],
            Kind::Select => &[Class::Access, Class::Name],
            Kind::Deref => &[Class::Access],
            Kind::Call => &[Class::Name, Class::Exprs],
            Kind::Parens => &[Class::Expression],
            Kind::Not => &[Class::Factor],
            Kind::Setcon => &[Class::Members],
            Kind::Mul => &[Class::Term, Class::Factor],
            Kind::Add => &[Class::Simple, Class::Term],
            Kind::Sign => &[Class::Term],
            Kind::Rel => &[Class::Simple, Class::Simple],
            Kind::Width => &[Class::Expression, Class::Expression],
            Kind::Span => &[Class::Expression, Class::Expression],
            Kind::Heads => &[Class::Name],
            Kind::Args => &[Class::Argument],
            Kind::Params => &[Class::Parameter],
            Kind::Names => &[Class::Name],
            Kind::Labels => &[Class::Constant],
            Kind::Indexes => &[Class::Ordinal],
            Kind::Exprs => &[Class::Expression],
            Kind::Accesses => &[Class::Access],
            Kind::Members => &[Class::Member],
            Kind::Consts => &[Class::Constdef],
            Kind::Types => &[Class::Typedef],
            Kind::Vars => &[Class::Vardef],
            Kind::Routines => &[Class::Routine],
            Kind::Fields => &[Class::Field],
            Kind::Stmts => &[Class::Statement],
            Kind::Arms => &[Class::Arm],
            _ => &[],
        }
    }

    /// How many kids it has, and whether it is a list.
    pub fn slots(self) -> Slots
        ensures list { result.list ≡ is_list self }
        ensures count { result.count ≡ count_of self }
    {
        if self.is_list() {
            return Slots {
                list: true,
                count: self.least(),
            };
        }
        Slots {
            list: false,
            count: self.places().len() as u32,
        }
    }

    /// The class of the kid with this number, from 1.
    pub fn class(self, number: u32) -> Option<Class>
        ensures { result ≡ class_at self number }
    {
        if number == 0 {
            return None;
        }
        self.class_from(number as usize - 1)
    }

    /// The class of the kid with this number, from 0.
    pub fn class_from(self, i: usize) -> Option<Class>
        ensures { result ≡ class_from self i }
    {
        if self.is_list() {
            return self.places().get(0).copied();
        }
        self.places().get(i).copied()
    }

    /// Whether a node of this kind may bear notes, of a list where it has elements.
    pub fn bears_notes(self) -> bool
        ensures { result ≡ bears_notes self }
    {
        match self {
            Kind::Program
            | Kind::Consts
            | Kind::Types
            | Kind::Vars
            | Kind::Constdef
            | Kind::Typedef
            | Kind::Vardef
            | Kind::Field
            | Kind::Procedure
            | Kind::Function
            | Kind::Funbody
            | Kind::Arm
            | Kind::Assign
            | Kind::Proc
            | Kind::Compound
            | Kind::If
            | Kind::Ifelse
            | Kind::Case
            | Kind::Repeat
            | Kind::While
            | Kind::For
            | Kind::With => true,
            Kind::Hole(sort) => is_noted(sort),
            _ => false,
        }
    }

    /// Its place in the table; all holes share one.
    fn number(self) -> u8
        ensures { result ≡ number_of self }
    {
        match self {
            Kind::Program => 0,
            Kind::Block => 1,
            Kind::Forward => 2,
            Kind::Constdef => 3,
            Kind::Typedef => 4,
            Kind::Vardef => 5,
            Kind::Field => 6,
            Kind::Valparam => 7,
            Kind::Varparam => 8,
            Kind::Procedure => 9,
            Kind::Function => 10,
            Kind::Funbody => 11,
            Kind::Tname => 12,
            Kind::Enum => 13,
            Kind::Subrange => 14,
            Kind::Array => 15,
            Kind::Record => 16,
            Kind::Record0 => 17,
            Kind::Setof => 18,
            Kind::Packed => 19,
            Kind::Pointer => 20,
            Kind::Cnumber => 21,
            Kind::Cstring => 22,
            Kind::Cname => 23,
            Kind::Csign => 24,
            Kind::Empty => 25,
            Kind::Assign => 26,
            Kind::Proc => 27,
            Kind::Compound => 28,
            Kind::If => 29,
            Kind::Ifelse => 30,
            Kind::Case => 31,
            Kind::Arm => 32,
            Kind::Repeat => 33,
            Kind::While => 34,
            Kind::For => 35,
            Kind::With => 36,
            Kind::Ref => 37,
            Kind::Index => 38,
            Kind::Select => 39,
            Kind::Deref => 40,
            Kind::Number => 41,
            Kind::Text => 42,
            Kind::Nil => 43,
            Kind::Call => 44,
            Kind::Parens => 45,
            Kind::Not => 46,
            Kind::Setcon => 47,
            Kind::Mul => 48,
            Kind::Add => 49,
            Kind::Sign => 50,
            Kind::Rel => 51,
            Kind::Width => 52,
            Kind::Span => 53,
            Kind::Name => 54,
            Kind::Heads => 55,
            Kind::Args => 56,
            Kind::Params => 57,
            Kind::Names => 58,
            Kind::Labels => 59,
            Kind::Indexes => 60,
            Kind::Exprs => 61,
            Kind::Accesses => 62,
            Kind::Members => 63,
            Kind::Consts => 64,
            Kind::Types => 65,
            Kind::Vars => 66,
            Kind::Routines => 67,
            Kind::Fields => 68,
            Kind::Stmts => 69,
            Kind::Arms => 70,
            Kind::Hole(_) => 71,
        }
    }

    /// Whether two kinds are one.
    pub fn is(self, other: Kind) -> bool
        ensures { IsTrue result ↔ (self ≡ other) }
    {
        if let (Kind::Hole(sort), Kind::Hole(other)) = (self, other) {
            return sort.is(other);
        }
        self.number() == other.number()
    }
}

/// Whether nodes of a sort may bear notes.
fn is_noted(sort: Sort) -> bool
    ensures { result ≡ is_noted_sort sort }
{
    match sort {
        Sort::Program
        | Sort::ConstDef
        | Sort::TypeDef
        | Sort::VarDef
        | Sort::Routine
        | Sort::Field
        | Sort::Statement
        | Sort::Arm => true,
        _ => false,
    }
}
