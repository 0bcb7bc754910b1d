//! Required names in calls, and the names of files that stand first.

ghost use Rattle.std.specs.Prelude.{◌≡◌, List, ℕ};
ghost use Rattle.std.specs.Str.{bytes_eq};
ghost use Rattle.pc_scope.specs.Spelled.{spelling};
ghost use Rattle.pc_scope.specs.Required as required;
ghost use Rattle.pc_rules.specs.Attributes.{Node};
ghost use Rattle.pc_rules.specs.Meanings.{Found};
ghost use Rattle.pc_rules.specs.Variables as variables;
ghost use Rattle.pc_rules.specs.RequiredFunctions as functions;
ghost use Rattle.pc_rules.specs.RequiredProcedures as procedures;
ghost use Rattle.pc_facts.specs.Known.{Known};
ghost use Rattle.pc_facts.specs.Shows.{ShowsFound, ShowsArgument, AllShow};
ghost use Rattle.pc_call_rules.specs.Calls.{behind_name, function_in, procedure_in};

use crate::notes::is_reference;
use pc_facts::{Argument, Sighting, both};
use pc_scope::Builtin;

/// The required name in small letters.
pub(crate) fn spelled(builtin: Builtin) -> &'static [u8]
    ensures { result.now ≡ spelling builtin }
{
    match builtin {
        Builtin::Integer => b"integer",
        Builtin::Boolean => b"boolean",
        Builtin::Char => b"char",
        Builtin::Maxint => b"maxint",
        Builtin::False => b"false",
        Builtin::True => b"true",
        Builtin::Input => b"input",
        Builtin::Output => b"output",
        Builtin::Abs => b"abs",
        Builtin::Sqr => b"sqr",
        Builtin::Ord => b"ord",
        Builtin::Chr => b"chr",
        Builtin::Succ => b"succ",
        Builtin::Pred => b"pred",
        Builtin::Odd => b"odd",
        Builtin::Eof => b"eof",
        Builtin::Eoln => b"eoln",
        Builtin::Read => b"read",
        Builtin::Readln => b"readln",
        Builtin::Write => b"write",
        Builtin::Writeln => b"writeln",
        Builtin::New => b"new",
        Builtin::Dispose => b"dispose",
    }
}

/// Whether the name in small letters is this.
pub(crate) fn is_named(builtin: Builtin, word: &[u8]) -> bool
    ensures { result ≡ bytes_eq (spelling builtin) word.now }
{
    is_same(spelled(builtin), word)
}

/// Whether it is eof or eoln.
pub(crate) fn is_end_test(builtin: Builtin) -> bool
    ensures { result ≡ variables.is_end_test (spelling builtin) }
{
    matches!(builtin, Builtin::Eof | Builtin::Eoln)
}

/// The required function that a name means, if it means one.
pub(crate) fn function_of(sighting: Sighting) -> Option<Builtin>
    ensures { result ≡ function_in sighting }
{
    match sighting {
        Sighting::Required(builtin) => if is_function(builtin) {
            Some(builtin)
        } else {
            None
        },
        Sighting::Here(_) => None,
        Sighting::Later(_) => None,
        Sighting::Component(_, _) => None,
        Sighting::Missing => None,
    }
}

/// The required procedure that a name means, if it means one.
pub(crate) fn procedure_of(sighting: Sighting) -> Option<Builtin>
    ensures { result ≡ procedure_in sighting }
{
    match sighting {
        Sighting::Required(builtin) => if is_procedure(builtin) {
            Some(builtin)
        } else {
            None
        },
        Sighting::Here(_) => None,
        Sighting::Later(_) => None,
        Sighting::Component(_, _) => None,
        Sighting::Missing => None,
    }
}

fn is_function(builtin: Builtin) -> bool
    ensures { result ≡ required.is_required_function (spelling builtin) }
{
    matches!(
        builtin,
        Builtin::Abs
            | Builtin::Sqr
            | Builtin::Ord
            | Builtin::Chr
            | Builtin::Succ
            | Builtin::Pred
            | Builtin::Odd
            | Builtin::Eof
            | Builtin::Eoln
    )
}

fn is_procedure(builtin: Builtin) -> bool
    ensures { result ≡ required.is_required_procedure (spelling builtin) }
{
    matches!(
        builtin,
        Builtin::New
            | Builtin::Dispose
            | Builtin::Read
            | Builtin::Readln
            | Builtin::Write
            | Builtin::Writeln
    )
}

/// Whether the first argument is the name of that required file, which means it there.
pub(crate) fn has_file(file: &[u8], args: &[Argument]) -> bool
    ensures { (k : Known) (ns : List Node) → AllShow (ShowsArgument k) args.now ns → result ≡ functions.has_file file.now ns }
{
    match args {
        [first, ..] => is_file(file, first),
        [] => false,
    }
}

fn is_file(file: &[u8], argument: &Argument) -> bool
    ensures { (k : Known) (n : Node) → ShowsArgument k argument.now n → result ≡ functions.is_file file.now n }
{
    both(
        is_reference(argument.at.kind),
        means_file(file, argument.name),
    )
}

fn means_file(file: &[u8], name: Sighting) -> bool
    ensures { (k : Known) (w : List ℕ) (r : Found) → ShowsFound k w name r → result ≡ functions.means_file file.now r }
{
    match name {
        Sighting::Required(builtin) => is_same(spelled(builtin), file),
        Sighting::Here(_) => false,
        Sighting::Later(_) => false,
        Sighting::Component(_, _) => false,
        Sighting::Missing => false,
    }
}

fn is_same(word: &[u8], other: &[u8]) -> bool
    ensures { result ≡ bytes_eq word.now other.now }
{
    word == other
}

/// The arguments behind the name of a file, if that stands first.
pub(crate) fn behind(named: bool, args: &[Argument]) -> &[Argument]
    ensures { result.now ≡ behind_name named args.now }
{
    match args {
        [_, rest @ ..] => if named { rest } else { args },
        [] => args,
    }
}

/// The same, and the arguments are used up.
pub(crate) fn behind_file(named: bool, args: Vec<Argument>) -> Vec<Argument>
    ensures { result.items ≡ behind_name named args.items }
{
    let mut args = args;
    if named && !args.is_empty() {
        args.remove(0);
    }
    args
}

/// The number of the first of them.
pub(crate) fn number_behind(named: bool) -> u32
    ensures { result ≡ procedures.number_behind_file named }
{
    if named { 2 } else { 1 }
}
