//! Templates: names of nodes at whose places nothing is written yet.

ghost use Rattle.std.specs.Prelude.{◌≡◌, IfOk};
ghost use Rattle.pc_syntax.specs.Templates.{kind_name, kind_among, worded_kind, template_kind, template_word, template_of};

use crate::blank::fresh;
use crate::fits::{is_written, word_fits};
use crate::kind::Kind;
use crate::sort::Sort;
use crate::tree::Tree;
use std::alloc::{AllocError, Global};

/// The kinds whose name is that of a template.
const NAMED_KINDS: [Kind; 58] = [
    Kind::Hole(Sort::Program),
    Kind::Hole(Sort::Block),
    Kind::Hole(Sort::ConstDef),
    Kind::Hole(Sort::TypeDef),
    Kind::Hole(Sort::VarDef),
    Kind::Hole(Sort::Routine),
    Kind::Hole(Sort::Parameter),
    Kind::Hole(Sort::Denoter),
    Kind::Hole(Sort::Field),
    Kind::Hole(Sort::Constant),
    Kind::Hole(Sort::Statement),
    Kind::Hole(Sort::Arm),
    Kind::Hole(Sort::Expression),
    Kind::Hole(Sort::Name),
    Kind::Program,
    Kind::Block,
    Kind::Constdef,
    Kind::Typedef,
    Kind::Vardef,
    Kind::Procedure,
    Kind::Function,
    Kind::Funbody,
    Kind::Forward,
    Kind::Valparam,
    Kind::Varparam,
    Kind::Field,
    Kind::Tname,
    Kind::Enum,
    Kind::Subrange,
    Kind::Array,
    Kind::Record,
    Kind::Record0,
    Kind::Setof,
    Kind::Packed,
    Kind::Pointer,
    Kind::Empty,
    Kind::Assign,
    Kind::Proc,
    Kind::Compound,
    Kind::If,
    Kind::Ifelse,
    Kind::Case,
    Kind::Arm,
    Kind::Repeat,
    Kind::While,
    Kind::For,
    Kind::With,
    Kind::Ref,
    Kind::Index,
    Kind::Select,
    Kind::Deref,
    Kind::Nil,
    Kind::Call,
    Kind::Parens,
    Kind::Not,
    Kind::Setcon,
    Kind::Width,
    Kind::Span,
];

/// The template with a name: a node at whose places nothing is written yet. None where there is no template of that name.
///
/// `?` and the name of a sort is that hole. The name of a kind is a node of the kind, `downto` the loop with that word,
/// `neg` and `pos` a sign, and an operator its node. Names are in small letters.
pub fn template(alloc: Global, name: &[u8]) -> Result<Option<Tree>, AllocError>
    ensures { IfOk result (λ tree. tree ≡ template_of name.now) }
{
    match template_kind(name) {
        Some(kind) => {
            let tree = fresh(alloc, kind, template_word(kind, name))?;
            Ok(Some(tree))
        }
        None => Ok(None),
    }
}

/// The kind of the template with a name.
#[tactic(auto, unfolding(crate::specs::Templates::template_kind))]
fn template_kind(name: &[u8]) -> Option<Kind>
    ensures { result ≡ template_kind name.now }
{
    match kind_among(&NAMED_KINDS, name) {
        Some(kind) => Some(kind),
        None => worded_kind(name),
    }
}

/// The first of these kinds that has the name.
fn kind_among(kinds: &[Kind], name: &[u8]) -> Option<Kind>
    ensures { result ≡ kind_among kinds.now name.now }
{
    for kind in kinds {
        if is_written(name, kind.name()) {
            return Some(*kind);
        }
    }
    None
}

/// The kind of a template that is named by a word of its node.
fn worded_kind(name: &[u8]) -> Option<Kind>
    ensures { result ≡ worded_kind name.now }
{
    if is_written(name, b"downto") {
        return Some(Kind::For);
    }
    if is_written(name, b"neg") || is_written(name, b"pos") {
        return Some(Kind::Sign);
    }
    if word_fits(Kind::Mul, name) {
        return Some(Kind::Mul);
    }
    if word_fits(Kind::Add, name) {
        return Some(Kind::Add);
    }
    if word_fits(Kind::Rel, name) {
        return Some(Kind::Rel);
    }
    None
}

/// The word of the node of a template.
#[tactic(auto, unfolding(crate::specs::Templates::template_word))]
fn template_word(kind: Kind, name: &[u8]) -> &[u8]
    ensures { result.now ≡ template_word kind name.now }
{
    match kind {
        Kind::Forward | Kind::Mul | Kind::Add | Kind::Rel => name,
        Kind::For => if is_written(name, b"downto") {
            name
        } else {
            b"to"
        },
        Kind::Sign => if is_written(name, b"neg") { b"-" } else { b"+" },
        _ => b"",
    }
}

impl Kind {
    /// Its name, as that of its template. That of a hole is as it is written.
    pub fn name(self) -> &'static [u8]
        ensures { result.now ≡ kind_name self }
    {
        match self {
            Kind::Program => b"program",
            Kind::Block => b"block",
            Kind::Forward => b"forward",
            Kind::Constdef => b"constdef",
            Kind::Typedef => b"typedef",
            Kind::Vardef => b"vardef",
            Kind::Field => b"field",
            Kind::Valparam => b"valparam",
            Kind::Varparam => b"varparam",
            Kind::Procedure => b"procedure",
            Kind::Function => b"function",
            Kind::Funbody => b"funbody",
            Kind::Tname => b"tname",
            Kind::Enum => b"enum",
            Kind::Subrange => b"subrange",
            Kind::Array => b"array",
            Kind::Record => b"record",
            Kind::Record0 => b"record0",
            Kind::Setof => b"setof",
            Kind::Packed => b"packed",
            Kind::Pointer => b"pointer",
            Kind::Cnumber => b"cnumber",
            Kind::Cstring => b"cstring",
            Kind::Cname => b"cname",
            Kind::Csign => b"csign",
            Kind::Empty => b"empty",
            Kind::Assign => b"assign",
            Kind::Proc => b"proc",
            Kind::Compound => b"compound",
            Kind::If => b"if",
            Kind::Ifelse => b"ifelse",
            Kind::Case => b"case",
            Kind::Arm => b"arm",
            Kind::Repeat => b"repeat",
            Kind::While => b"while",
            Kind::For => b"for",
            Kind::With => b"with",
            Kind::Ref => b"ref",
            Kind::Index => b"index",
            Kind::Select => b"select",
            Kind::Deref => b"deref",
            Kind::Number => b"number",
            Kind::Text => b"text",
            Kind::Nil => b"nil",
            Kind::Call => b"call",
            Kind::Parens => b"parens",
            Kind::Not => b"not",
            Kind::Setcon => b"setcon",
            Kind::Mul => b"mul",
            Kind::Add => b"add",
            Kind::Sign => b"sign",
            Kind::Rel => b"rel",
            Kind::Width => b"width",
            Kind::Span => b"span",
            Kind::Name => b"name",
            Kind::Heads => b"heads",
            Kind::Args => b"args",
            Kind::Params => b"params",
            Kind::Names => b"names",
            Kind::Labels => b"labels",
            Kind::Indexes => b"indexes",
            Kind::Exprs => b"exprs",
            Kind::Accesses => b"accesses",
            Kind::Members => b"members",
            Kind::Consts => b"consts",
            Kind::Types => b"types",
            Kind::Vars => b"vars",
            Kind::Routines => b"routines",
            Kind::Fields => b"fields",
            Kind::Stmts => b"stmts",
            Kind::Arms => b"arms",
            Kind::Hole(sort) => sort.hole(),
        }
    }
}
