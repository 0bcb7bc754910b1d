//! The required names (ISO 7185, 6.2.2.10).

ghost use Rattle.std.specs.Prelude.{◌≡◌, true, is_some, IfSome};
ghost use Rattle.std.specs.Str.{bytes_eq};
ghost use Rattle.pc_syntax.specs.Words.{lowered};
ghost use Rattle.pc_scope.specs.Required as required;
ghost use Rattle.pc_scope.specs.Spelled.{spelling};

use pc_syntax::is_spelled;

/// A required name.
#[derive(Clone, Copy, Debug, PartialEq, Eq)]
pub enum Builtin {
    Integer,
    Boolean,
    Char,
    Maxint,
    False,
    True,
    Input,
    Output,
    Abs,
    Sqr,
    Ord,
    Chr,
    Succ,
    Pred,
    Odd,
    Eof,
    Eoln,
    Read,
    Readln,
    Write,
    Writeln,
    New,
    Dispose,
}

/// The required name that this is, spelled in any case.
pub fn required(name: &[u8]) -> Option<Builtin>
    ensures known { is_some result ≡ required.is_required (lowered name.now) }
    ensures spelled { IfSome result (λ b. bytes_eq (spelling b) (lowered name.now) ≡ true) }
{
    if let Some(builtin) = required_type(name) {
        return Some(builtin);
    }
    if let Some(builtin) = required_constant(name) {
        return Some(builtin);
    }
    if let Some(builtin) = required_function(name) {
        return Some(builtin);
    }
    if let Some(builtin) = required_procedure(name) {
        return Some(builtin);
    }
    required_file(name)
}

fn required_type(name: &[u8]) -> Option<Builtin>
    ensures known { is_some result ≡ required.is_required_type (lowered name.now) }
    ensures spelled { IfSome result (λ b. bytes_eq (spelling b) (lowered name.now) ≡ true) }
{
    if is_spelled(name, b"integer") {
        return Some(Builtin::Integer);
    }
    if is_spelled(name, b"boolean") {
        return Some(Builtin::Boolean);
    }
    if is_spelled(name, b"char") {
        return Some(Builtin::Char);
    }
    None
}

fn required_constant(name: &[u8]) -> Option<Builtin>
    ensures known { is_some result ≡ required.is_required_constant (lowered name.now) }
    ensures spelled { IfSome result (λ b. bytes_eq (spelling b) (lowered name.now) ≡ true) }
{
    if is_spelled(name, b"maxint") {
        return Some(Builtin::Maxint);
    }
    if is_spelled(name, b"false") {
        return Some(Builtin::False);
    }
    if is_spelled(name, b"true") {
        return Some(Builtin::True);
    }
    None
}

fn required_function(name: &[u8]) -> Option<Builtin>
    ensures known { is_some result ≡ required.is_required_function (lowered name.now) }
    ensures spelled { IfSome result (λ b. bytes_eq (spelling b) (lowered name.now) ≡ true) }
{
    if is_spelled(name, b"abs") {
        return Some(Builtin::Abs);
    }
    if is_spelled(name, b"sqr") {
        return Some(Builtin::Sqr);
    }
    if is_spelled(name, b"ord") {
        return Some(Builtin::Ord);
    }
    if is_spelled(name, b"chr") {
        return Some(Builtin::Chr);
    }
    if is_spelled(name, b"succ") {
        return Some(Builtin::Succ);
    }
    if is_spelled(name, b"pred") {
        return Some(Builtin::Pred);
    }
    if is_spelled(name, b"odd") {
        return Some(Builtin::Odd);
    }
    if is_spelled(name, b"eof") {
        return Some(Builtin::Eof);
    }
    if is_spelled(name, b"eoln") {
        return Some(Builtin::Eoln);
    }
    None
}

fn required_procedure(name: &[u8]) -> Option<Builtin>
    ensures known { is_some result ≡ required.is_required_procedure (lowered name.now) }
    ensures spelled { IfSome result (λ b. bytes_eq (spelling b) (lowered name.now) ≡ true) }
{
    if is_spelled(name, b"new") {
        return Some(Builtin::New);
    }
    if is_spelled(name, b"dispose") {
        return Some(Builtin::Dispose);
    }
    if is_spelled(name, b"read") {
        return Some(Builtin::Read);
    }
    if is_spelled(name, b"readln") {
        return Some(Builtin::Readln);
    }
    if is_spelled(name, b"write") {
        return Some(Builtin::Write);
    }
    if is_spelled(name, b"writeln") {
        return Some(Builtin::Writeln);
    }
    None
}

fn required_file(name: &[u8]) -> Option<Builtin>
    ensures known { is_some result ≡ required.is_required_file (lowered name.now) }
    ensures spelled { IfSome result (λ b. bytes_eq (spelling b) (lowered name.now) ≡ true) }
{
    if is_spelled(name, b"input") {
        return Some(Builtin::Input);
    }
    if is_spelled(name, b"output") {
        return Some(Builtin::Output);
    }
    None
}
