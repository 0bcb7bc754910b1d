//! Classes: which kinds may stand at a place of a node.

ghost use Rattle.std.specs.Prelude.{◌≡◌};
ghost use Rattle.pc_syntax.specs.Classes.{has, is_program, is_block, is_constdef, is_typedef, is_vardef, is_routine, is_parameter, is_denoter, is_structured, is_ordinal, is_field, is_constant, is_bare, is_statement, is_body, is_arm, is_argument, is_member, is_operand, is_expression, is_simple, is_term, is_factor, is_access, is_name, is_heads, is_args, is_params, is_names, is_labels, is_indexes, is_exprs, is_accesses, is_members, is_consts, is_types, is_vars, is_routines, is_fields, is_stmts, is_arms};

use crate::kind::Kind;
use crate::sort::Sort;

/// What may stand at a place of a node.
#[derive(Clone, Copy, Debug, PartialEq, Eq)]
pub enum Class {
    Program,
    Block,
    Constdef,
    Typedef,
    Vardef,
    Routine,
    Parameter,
    Denoter,
    Structured,
    Ordinal,
    Field,
    Constant,
    Bare,
    Statement,
    Body,
    Arm,
    Argument,
    Member,
    Operand,
    Expression,
    Simple,
    Term,
    Factor,
    Access,
    Name,
    Heads,
    Args,
    Params,
    Names,
    Labels,
    Indexes,
    Exprs,
    Accesses,
    Members,
    Consts,
    Types,
    Vars,
    Routines,
    Fields,
    Stmts,
    Arms,
}

impl Class {
    /// Whether a node of this kind may stand there. A hole may stand wherever a node of its sort may.
    pub fn has(self, kind: Kind) -> bool
        ensures { result ≡ has self kind }
    {
        match self {
            Class::Program => is_program(kind),
            Class::Block => is_block(kind),
            Class::Constdef => is_constdef(kind),
            Class::Typedef => is_typedef(kind),
            Class::Vardef => is_vardef(kind),
            Class::Routine => is_routine(kind),
            Class::Parameter => is_parameter(kind),
            Class::Denoter => is_denoter(kind),
            Class::Structured => is_structured(kind),
            Class::Ordinal => is_ordinal(kind),
            Class::Field => is_field(kind),
            Class::Constant => is_constant(kind),
            Class::Bare => is_bare(kind),
            Class::Statement => is_statement(kind),
            Class::Body => is_body(kind),
            Class::Arm => is_arm(kind),
            Class::Argument => is_argument(kind),
            Class::Member => is_member(kind),
            Class::Operand => is_operand(kind),
            Class::Expression => is_expression(kind),
            Class::Simple => is_simple(kind),
            Class::Term => is_term(kind),
            Class::Factor => is_factor(kind),
            Class::Access => is_access(kind),
            Class::Name => is_name(kind),
            Class::Heads => is_heads(kind),
            Class::Args => is_args(kind),
            Class::Params => is_params(kind),
            Class::Names => is_names(kind),
            Class::Labels => is_labels(kind),
            Class::Indexes => is_indexes(kind),
            Class::Exprs => is_exprs(kind),
            Class::Accesses => is_accesses(kind),
            Class::Members => is_members(kind),
            Class::Consts => is_consts(kind),
            Class::Types => is_types(kind),
            Class::Vars => is_vars(kind),
            Class::Routines => is_routines(kind),
            Class::Fields => is_fields(kind),
            Class::Stmts => is_stmts(kind),
            Class::Arms => is_arms(kind),
        }
    }
}

fn is_access(kind: Kind) -> bool
    ensures { result ≡ is_access kind }
{
    match kind {
        Kind::Ref | Kind::Index | Kind::Select | Kind::Deref => true,
        Kind::Hole(sort) => sort == Sort::Expression,
        _ => false,
    }
}

fn is_factor(kind: Kind) -> bool
    ensures { result ≡ is_factor kind }
{
    match kind {
        Kind::Number
        | Kind::Text
        | Kind::Nil
        | Kind::Call
        | Kind::Parens
        | Kind::Not
        | Kind::Setcon => true,
        _ => is_access(kind),
    }
}

fn is_term(kind: Kind) -> bool
    ensures { result ≡ is_term kind }
{
    match kind {
        Kind::Mul => true,
        _ => is_factor(kind),
    }
}

fn is_simple(kind: Kind) -> bool
    ensures { result ≡ is_simple kind }
{
    match kind {
        Kind::Add | Kind::Sign => true,
        _ => is_term(kind),
    }
}

fn is_expression(kind: Kind) -> bool
    ensures { result ≡ is_expression kind }
{
    match kind {
        Kind::Rel => true,
        _ => is_simple(kind),
    }
}

fn is_argument(kind: Kind) -> bool
    ensures { result ≡ is_argument kind }
{
    match kind {
        Kind::Width => true,
        _ => is_expression(kind),
    }
}

fn is_member(kind: Kind) -> bool
    ensures { result ≡ is_member kind }
{
    match kind {
        Kind::Span => true,
        _ => is_expression(kind),
    }
}

fn is_operand(kind: Kind) -> bool
    ensures { result ≡ is_operand kind }
{
    match kind {
        Kind::Width | Kind::Span => true,
        _ => is_expression(kind),
    }
}

fn is_ordinal(kind: Kind) -> bool
    ensures { result ≡ is_ordinal kind }
{
    match kind {
        Kind::Tname | Kind::Enum | Kind::Subrange => true,
        Kind::Hole(sort) => sort == Sort::Denoter,
        _ => false,
    }
}

fn is_structured(kind: Kind) -> bool
    ensures { result ≡ is_structured kind }
{
    match kind {
        Kind::Array | Kind::Record | Kind::Record0 | Kind::Setof => true,
        Kind::Hole(sort) => sort == Sort::Denoter,
        _ => false,
    }
}

fn is_denoter(kind: Kind) -> bool
    ensures { result ≡ is_denoter kind }
{
    match kind {
        Kind::Packed | Kind::Pointer => true,
        _ => is_ordinal(kind) || is_structured(kind),
    }
}

fn is_bare(kind: Kind) -> bool
    ensures { result ≡ is_bare kind }
{
    match kind {
        Kind::Cnumber | Kind::Cname => true,
        Kind::Hole(sort) => sort == Sort::Constant,
        _ => false,
    }
}

fn is_constant(kind: Kind) -> bool
    ensures { result ≡ is_constant kind }
{
    match kind {
        Kind::Cstring | Kind::Csign => true,
        _ => is_bare(kind),
    }
}

fn is_body(kind: Kind) -> bool
    ensures { result ≡ is_body kind }
{
    match kind {
        Kind::Compound => true,
        Kind::Hole(sort) => sort == Sort::Statement,
        _ => false,
    }
}

fn is_program(kind: Kind) -> bool
    ensures { result ≡ is_program kind }
{
    match kind {
        Kind::Program => true,
        Kind::Hole(sort) => sort == Sort::Program,
        _ => false,
    }
}

fn is_block(kind: Kind) -> bool
    ensures { result ≡ is_block kind }
{
    match kind {
        Kind::Block | Kind::Forward => true,
        Kind::Hole(sort) => sort == Sort::Block,
        _ => false,
    }
}

fn is_constdef(kind: Kind) -> bool
    ensures { result ≡ is_constdef kind }
{
    match kind {
        Kind::Constdef => true,
        Kind::Hole(sort) => sort == Sort::ConstDef,
        _ => false,
    }
}

fn is_typedef(kind: Kind) -> bool
    ensures { result ≡ is_typedef kind }
{
    match kind {
        Kind::Typedef => true,
        Kind::Hole(sort) => sort == Sort::TypeDef,
        _ => false,
    }
}

fn is_vardef(kind: Kind) -> bool
    ensures { result ≡ is_vardef kind }
{
    match kind {
        Kind::Vardef => true,
        Kind::Hole(sort) => sort == Sort::VarDef,
        _ => false,
    }
}

fn is_routine(kind: Kind) -> bool
    ensures { result ≡ is_routine kind }
{
    match kind {
        Kind::Procedure | Kind::Function | Kind::Funbody => true,
        Kind::Hole(sort) => sort == Sort::Routine,
        _ => false,
    }
}

fn is_parameter(kind: Kind) -> bool
    ensures { result ≡ is_parameter kind }
{
    match kind {
        Kind::Valparam | Kind::Varparam => true,
        Kind::Hole(sort) => sort == Sort::Parameter,
        _ => false,
    }
}

fn is_field(kind: Kind) -> bool
    ensures { result ≡ is_field kind }
{
    match kind {
        Kind::Field => true,
        Kind::Hole(sort) => sort == Sort::Field,
        _ => false,
    }
}

fn is_statement(kind: Kind) -> bool
    ensures { result ≡ is_statement kind }
{
    match kind {
        Kind::Empty
        | Kind::Assign
        | Kind::Proc
        | Kind::Compound
        | Kind::If
        | Kind::Ifelse
        | Kind::Case
        | Kind::Repeat
        | Kind::While
        | Kind::For
        | Kind::With => true,
        Kind::Hole(sort) => sort == Sort::Statement,
        _ => false,
    }
}

fn is_arm(kind: Kind) -> bool
    ensures { result ≡ is_arm kind }
{
    match kind {
        Kind::Arm => true,
        Kind::Hole(sort) => sort == Sort::Arm,
        _ => false,
    }
}

fn is_name(kind: Kind) -> bool
    ensures { result ≡ is_name kind }
{
    match kind {
        Kind::Name => true,
        Kind::Hole(sort) => sort == Sort::Name,
        _ => false,
    }
}

fn is_heads(kind: Kind) -> bool
    ensures { result ≡ is_heads kind }
{
    match kind {
        Kind::Heads => true,
        _ => false,
    }
}

fn is_args(kind: Kind) -> bool
    ensures { result ≡ is_args kind }
{
    match kind {
        Kind::Args => true,
        _ => false,
    }
}

fn is_params(kind: Kind) -> bool
    ensures { result ≡ is_params kind }
{
    match kind {
        Kind::Params => true,
        _ => false,
    }
}

fn is_names(kind: Kind) -> bool
    ensures { result ≡ is_names kind }
{
    match kind {
        Kind::Names => true,
        _ => false,
    }
}

fn is_labels(kind: Kind) -> bool
    ensures { result ≡ is_labels kind }
{
    match kind {
        Kind::Labels => true,
        _ => false,
    }
}

fn is_indexes(kind: Kind) -> bool
    ensures { result ≡ is_indexes kind }
{
    match kind {
        Kind::Indexes => true,
        _ => false,
    }
}

fn is_exprs(kind: Kind) -> bool
    ensures { result ≡ is_exprs kind }
{
    match kind {
        Kind::Exprs => true,
        _ => false,
    }
}

fn is_accesses(kind: Kind) -> bool
    ensures { result ≡ is_accesses kind }
{
    match kind {
        Kind::Accesses => true,
        _ => false,
    }
}

fn is_members(kind: Kind) -> bool
    ensures { result ≡ is_members kind }
{
    match kind {
        Kind::Members => true,
        _ => false,
    }
}

fn is_consts(kind: Kind) -> bool
    ensures { result ≡ is_consts kind }
{
    match kind {
        Kind::Consts => true,
        _ => false,
    }
}

fn is_types(kind: Kind) -> bool
    ensures { result ≡ is_types kind }
{
    match kind {
        Kind::Types => true,
        _ => false,
    }
}

fn is_vars(kind: Kind) -> bool
    ensures { result ≡ is_vars kind }
{
    match kind {
        Kind::Vars => true,
        _ => false,
    }
}

fn is_routines(kind: Kind) -> bool
    ensures { result ≡ is_routines kind }
{
    match kind {
        Kind::Routines => true,
        _ => false,
    }
}

fn is_fields(kind: Kind) -> bool
    ensures { result ≡ is_fields kind }
{
    match kind {
        Kind::Fields => true,
        _ => false,
    }
}

fn is_stmts(kind: Kind) -> bool
    ensures { result ≡ is_stmts kind }
{
    match kind {
        Kind::Stmts => true,
        _ => false,
    }
}

fn is_arms(kind: Kind) -> bool
    ensures { result ≡ is_arms kind }
{
    match kind {
        Kind::Arms => true,
        _ => false,
    }
}
