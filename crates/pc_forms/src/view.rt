//! The form of a node.

ghost use Rattle.std.specs.Prelude.{◌≡◌, ◌+◌, ◌≤◌, sum_by};
ghost use Rattle.pc_syntax.specs.Plain.{kids_of};
ghost use Rattle.pc_syntax.specs.WellFormed.{size_of, size_limit, IsProper};
ghost use Rattle.pc_forms.specs.Form.{form_of};
ghost use Rattle.pc_forms.specs.FormKids.{kids_in};
ghost use Rattle.pc_forms.specs.FormKind.{kind_in};
ghost use Rattle.pc_forms.specs.FormMap.{seen};
ghost use Rattle.pc_forms.specs.FormClasses.{Every, HasKids};

use crate::form::Form;
use crate::kids::{five, four, one, three, two};
use crate::operator::{add_of, is_downto, mul_of, rel_of, sign_of};
use pc_syntax::{Kind, Tree};

/// What a node is, with its parts by their names. Its kids are in the order of the tree, each smaller than the node and of the
/// class that stands at its place.
pub fn form_of(tree: &Tree) -> Form<&Tree, &[Tree], &[u8]>
    ensures value { seen result ≡ form_of tree.now }
    ensures kind { kind_in (seen result) ≡ tree.now.kind }
    ensures kids { kids_in (seen result) ≡ kids_of tree.now }
    ensures size { size_of tree.now ≡ 1 + sum_by size_of (kids_in (seen result)) }
    ensures small { size_of tree.now ≤ size_limit }
    ensures smaller { Every (λ k. size_of k + 1 ≤ size_of tree.now) (kids_in (seen result)) }
    ensures classes { HasKids (kind_in (seen result)) (kids_in (seen result)) }
    ensures proper { IsProper tree.now }
{
    parts(tree)
}

/// The same; what else is known of it follows.
#[tactic(auto, unfolding(crate::specs::Form::form_of))]
fn parts(tree: &Tree) -> Form<&Tree, &[Tree], &[u8]>
    ensures value { seen result ≡ form_of tree.now }
    ensures proper { IsProper tree.now }
{
    match tree.kind() {
        Kind::Program => {
            let (name, heads, block) = three(tree);
            Form::Program { name, heads, block }
        }
        Kind::Block => {
            let (consts, types, vars, routines, body) = five(tree);
            Form::Block {
                consts,
                types,
                vars,
                routines,
                body,
            }
        }
        Kind::Forward => Form::Forward { word: tree.word() },
        Kind::Constdef => {
            let (name, value) = two(tree);
            Form::Constdef { name, value }
        }
        Kind::Typedef => {
            let (name, denoter) = two(tree);
            Form::Typedef { name, denoter }
        }
        Kind::Vardef => {
            let (names, denoter) = two(tree);
            Form::Vardef { names, denoter }
        }
        Kind::Field => {
            let (names, denoter) = two(tree);
            Form::Field { names, denoter }
        }
        Kind::Valparam => {
            let (names, type_name) = two(tree);
            Form::Valparam { names, type_name }
        }
        Kind::Varparam => {
            let (names, type_name) = two(tree);
            Form::Varparam { names, type_name }
        }
        Kind::Procedure => {
            let (name, params, block) = three(tree);
            Form::Procedure {
                name,
                params,
                block,
            }
        }
        Kind::Function => {
            let (name, params, result_type, block) = four(tree);
            Form::Function {
                name,
                params,
                result_type,
                block,
            }
        }
        Kind::Funbody => {
            let (name, block) = two(tree);
            Form::Funbody { name, block }
        }
        Kind::Tname => {
            let name = one(tree);
            Form::Tname { name }
        }
        Kind::Enum => {
            let names = one(tree);
            Form::Enum { names }
        }
        Kind::Subrange => {
            let (low, high) = two(tree);
            Form::Subrange { low, high }
        }
        Kind::Array => {
            let (indexes, element) = two(tree);
            Form::Array { indexes, element }
        }
        Kind::Record => {
            let fields = one(tree);
            Form::Record { fields }
        }
        Kind::Record0 => Form::Record0,
        Kind::Setof => {
            let base = one(tree);
            Form::Setof { base }
        }
        Kind::Packed => {
            let unpacked = one(tree);
            Form::Packed { unpacked }
        }
        Kind::Pointer => {
            let name = one(tree);
            Form::Pointer { name }
        }
        Kind::Cnumber => Form::Cnumber { word: tree.word() },
        Kind::Cstring => Form::Cstring { word: tree.word() },
        Kind::Cname => {
            let name = one(tree);
            Form::Cname { name }
        }
        Kind::Csign => {
            let constant = one(tree);
            Form::Csign {
                sign: sign_of(tree.word()),
                constant,
            }
        }
        Kind::Empty => Form::Empty,
        Kind::Assign => {
            let (target, value) = two(tree);
            Form::Assign { target, value }
        }
        Kind::Proc => {
            let (name, args) = two(tree);
            Form::Proc { name, args }
        }
        Kind::Compound => {
            let stmts = one(tree);
            Form::Compound { stmts }
        }
        Kind::If => {
            let (condition, body) = two(tree);
            Form::If { condition, body }
        }
        Kind::Ifelse => {
            let (condition, body, otherwise) = three(tree);
            Form::Ifelse {
                condition,
                body,
                otherwise,
            }
        }
        Kind::Case => {
            let (selector, arms) = two(tree);
            Form::Case { selector, arms }
        }
        Kind::Arm => {
            let (labels, body) = two(tree);
            Form::Arm { labels, body }
        }
        Kind::Repeat => {
            let (stmts, condition) = two(tree);
            Form::Repeat { stmts, condition }
        }
        Kind::While => {
            let (condition, body) = two(tree);
            Form::While { condition, body }
        }
        Kind::For => {
            let (control, first, last, body) = four(tree);
            Form::For {
                control,
                first,
                downwards: is_downto(tree.word()),
                last,
                body,
            }
        }
        Kind::With => {
            let (records, body) = two(tree);
            Form::With { records, body }
        }
        Kind::Ref => {
            let name = one(tree);
            Form::Ref { name }
        }
        Kind::Index => {
            let (array, indexes) = two(tree);
            Form::Index { array, indexes }
        }
        Kind::Select => {
            let (whole, field) = two(tree);
            Form::Select { whole, field }
        }
        Kind::Deref => {
            let pointer = one(tree);
            Form::Deref { pointer }
        }
        Kind::Number => Form::Number { word: tree.word() },
        Kind::Text => Form::Text { word: tree.word() },
        Kind::Nil => Form::Nil,
        Kind::Call => {
            let (name, args) = two(tree);
            Form::Call { name, args }
        }
        Kind::Parens => {
            let inner = one(tree);
            Form::Parens { inner }
        }
        Kind::Not => {
            let operand = one(tree);
            Form::Not { operand }
        }
        Kind::Setcon => {
            let members = one(tree);
            Form::Setcon { members }
        }
        Kind::Mul => {
            let (left, right) = two(tree);
            Form::Mul {
                left,
                operator: mul_of(tree.word()),
                right,
            }
        }
        Kind::Add => {
            let (left, right) = two(tree);
            Form::Add {
                left,
                operator: add_of(tree.word()),
                right,
            }
        }
        Kind::Sign => {
            let operand = one(tree);
            Form::Sign {
                sign: sign_of(tree.word()),
                operand,
            }
        }
        Kind::Rel => {
            let (left, right) = two(tree);
            Form::Rel {
                left,
                operator: rel_of(tree.word()),
                right,
            }
        }
        Kind::Width => {
            let (value, width) = two(tree);
            Form::Width { value, width }
        }
        Kind::Span => {
            let (low, high) = two(tree);
            Form::Span { low, high }
        }
        Kind::Name => Form::Name { word: tree.word() },
        Kind::Heads => Form::Heads(tree.kid_slice()),
        Kind::Args => Form::Args(tree.kid_slice()),
        Kind::Params => Form::Params(tree.kid_slice()),
        Kind::Names => Form::Names(tree.kid_slice()),
        Kind::Labels => Form::Labels(tree.kid_slice()),
        Kind::Indexes => Form::Indexes(tree.kid_slice()),
        Kind::Exprs => Form::Exprs(tree.kid_slice()),
        Kind::Accesses => Form::Accesses(tree.kid_slice()),
        Kind::Members => Form::Members(tree.kid_slice()),
        Kind::Consts => Form::Consts(tree.kid_slice()),
        Kind::Types => Form::Types(tree.kid_slice()),
        Kind::Vars => Form::Vars(tree.kid_slice()),
        Kind::Routines => Form::Routines(tree.kid_slice()),
        Kind::Fields => Form::Fields(tree.kid_slice()),
        Kind::Stmts => Form::Stmts(tree.kid_slice()),
        Kind::Arms => Form::Arms(tree.kid_slice()),
        Kind::Hole(sort) => Form::Hole(sort),
    }
}
