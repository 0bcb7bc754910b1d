//! What is found of a name by what it means: its type, its variable, and whether it is the function around.

ghost use Rattle.std.specs.Prelude.{◌≡◌, ◌∷◌, ◌==◌, not, List, ℕ, Option, Some, IfSome, option_map, length, slice_get};
ghost use Rattle.pc_scope.specs.Spelled.{spelling};
ghost use Rattle.pc_types.specs.Rows.{seen};
ghost use Rattle.pc_types.specs.Shapes.{Owner};
ghost use Rattle.pc_types.specs.Table.{shape_at, IsThere};
ghost use Rattle.pc_types.specs.declared.operand.Operand.TheVariants as operand;
ghost use Rattle.pc_names.specs.Numbers.{AreDistinct};
ghost use Rattle.pc_rules.specs.Meanings as rules;
ghost use Rattle.pc_rules.specs.Meanings.{Found, Here, Required, Meaning};
ghost use Rattle.pc_rules.specs.Variables as rule;
ghost use Rattle.pc_facts.specs.Known.{Known};
ghost use Rattle.pc_facts.specs.Shows.{ShowsFound, ShowsMeaning, ShowsType, ShowsValues, ShowsSignatures, ShowsVariable, shape_of};
ghost use Rattle.pc_facts.specs.declared.sighting.Signature.{Signature as Written};
ghost use Rattle.pc_access_rules.specs.Selves.{ShowsSelf};

use pc_facts::{Declared, Sighting, Signature, SignatureId, Value, Variable, both};
use pc_name_rules::{
    is_end_test, is_function_class, is_own_variable, is_required_function, is_variable_class,
};
use pc_names::NameClass;
use pc_scope::Builtin;
use pc_types::{Operand, TypeId, Types};

// ---- variables

/// The variable of a variable declaration part that a name means, if it means one.
pub fn variable_of(sighting: Sighting) -> Option<Variable>
    ensures { (k : Known) (n : List ℕ) (f : Found) → ShowsFound k n sighting f → ShowsVariable k result (rule.variable_of n f) }
{
    match sighting {
        Sighting::Here(declared) => own_variable(declared),
        _ => None,
    }
}

fn own_variable(declared: Declared) -> Option<Variable>
    ensures { (k : Known) (n : List ℕ) (m : Meaning) → ShowsMeaning k n declared m → ShowsVariable k result (rule.variable_of n (Here m)) }
{
    if is_own_variable(declared.class) {
        Some(Variable {
            owner: declared.owner,
            name: declared.name,
        })
    } else {
        None
    }
}

/// Whether a name is a field of a packed record.
pub(crate) fn is_packed_component(sighting: Sighting) -> bool
    ensures { (k : Known) (n : List ℕ) (f : Found) → ShowsFound k n sighting f → result ≡ rule.is_packed_component f }
{
    match sighting {
        Sighting::Component(_, packed) => packed,
        _ => false,
    }
}

/// The type of a variable's name, or of a field's.
pub fn variable_type(sighting: Sighting) -> Option<Operand>
    ensures { (k : Known) (n : List ℕ) (f : Found) → ShowsFound k n sighting f → ShowsType k.table result (rule.variable_type f) }
{
    match sighting {
        Sighting::Here(declared) => type_of_variable(declared),
        Sighting::Component(of, _) => Some(of),
        _ => None,
    }
}

fn type_of_variable(declared: Declared) -> Option<Operand>
    ensures { (k : Known) (n : List ℕ) (m : Meaning) → ShowsMeaning k n declared m → ShowsType k.table result (rule.variable_type (Here m)) }
{
    if is_variable_class(declared.class) {
        declared.of
    } else {
        None
    }
}

// ---- values

/// The type of a name as a value, given the signatures by their numbers: a function's is its result type.
pub fn value_type(types: &Types, sighting: Sighting, signatures: &[Signature]) -> Option<Operand>
    ensures { (k : Known) (n : List ℕ) (f : Found) → k.table ≡ seen types.now → k.signatures ≡ signatures.now → ShowsFound k n sighting f → ShowsType k.table result (rule.value_type f) }
{
    match sighting {
        Sighting::Here(declared) => type_of_declared(declared, signatures),
        Sighting::Component(of, _) => Some(of),
        Sighting::Required(builtin) => required_type(types, builtin),
        _ => None,
    }
}

fn type_of_declared(declared: Declared, signatures: &[Signature]) -> Option<Operand>
    ensures { (k : Known) (n : List ℕ) (m : Meaning) → k.signatures ≡ signatures.now → ShowsMeaning k n declared m → ShowsType k.table result (rule.value_type (Here m)) }
{
    match declared.class {
        NameClass::Function => result_of(signatures, declared.signature),
        NameClass::Constant => type_of_value(declared.value),
        NameClass::Element => type_of_value(declared.value),
        _ => declared.of,
    }
}

/// The type of a required constant, and that of eof and eoln.
fn required_type(types: &Types, builtin: Builtin) -> Option<Operand>
    ensures shape { option_map (shape_at (seen types.now)) result ≡ shape_of (rule.value_type (Required (spelling builtin))) }
    ensures there { IfSome result (IsThere (seen types.now)) }
{
    match builtin {
        Builtin::Maxint => Some(types.integer()),
        Builtin::False => Some(types.boolean()),
        Builtin::True => Some(types.boolean()),
        Builtin::Eof => Some(types.boolean()),
        Builtin::Eoln => Some(types.boolean()),
        _ => None,
    }
}

/// The type of a constant that is known.
fn type_of_value(value: Option<Value>) -> Option<Operand>
    ensures { (k : Known) (v : Option rules.Value) → ShowsValues k value v → ShowsType k.table result (rule.type_of_value v) }
{
    match value {
        Some(value) => Some(value.of),
        None => None,
    }
}

/// The result type of a function whose heading is right.
fn result_of(signatures: &[Signature], id: Option<SignatureId>) -> Option<Operand>
    ensures { (k : Known) (s : Option rules.Signature) → k.signatures ≡ signatures.now → ShowsSignatures k id s → ShowsType k.table result (rule.result_of s) }
{
    match id {
        Some(id) => result_at(signatures, id),
        None => None,
    }
}

fn result_at(signatures: &[Signature], id: SignatureId) -> Option<Operand>
    ensures { (s : Written) → slice_get signatures.now id.0 ≡ Some s → result ≡ option_map operand.Id s.result }
{
    match signatures.get(id.0 as usize) {
        Some(signature) => operand_of(signature.result),
        None => None,
    }
}

/// The type of the table with this number.
pub(crate) fn operand_of(of: Option<TypeId>) -> Option<Operand>
    ensures { result ≡ option_map operand.Id of }
{
    match of {
        Some(id) => Some(Operand::Id(id)),
        None => None,
    }
}

// ---- functions

/// Whether a name calls a function that needs arguments.
pub(crate) fn lacks_arguments(sighting: Sighting, signatures: &[Signature]) -> bool
    ensures { (k : Known) (n : List ℕ) (f : Found) → k.signatures ≡ signatures.now → ShowsFound k n sighting f → result ≡ rule.lacks_arguments f }
{
    match sighting {
        Sighting::Here(declared) => both(
            is_function_class(declared.class),
            has_formals(signatures, declared.signature),
        ),
        Sighting::Required(builtin) => both(is_required_function(builtin), !is_end_test(builtin)),
        _ => false,
    }
}

/// Whether a routine has formal parameters.
fn has_formals(signatures: &[Signature], id: Option<SignatureId>) -> bool
    ensures { (k : Known) (s : Option rules.Signature) → k.signatures ≡ signatures.now → ShowsSignatures k id s → result ≡ rule.has_formals s }
{
    match id {
        Some(id) => has_formals_at(signatures, id),
        None => false,
    }
}

fn has_formals_at(signatures: &[Signature], id: SignatureId) -> bool
    ensures { (s : Written) → slice_get signatures.now id.0 ≡ Some s → result ≡ not (length s.formals.items == 0) }
{
    match signatures.get(id.0 as usize) {
        Some(signature) => !signature.formals.is_empty(),
        None => false,
    }
}

/// Whether a name is that of the function whose block this is.
pub(crate) fn is_self(types: &Types, self_function: Option<Variable>, sighting: Sighting) -> bool
    ensures { (k : Known) (n : List ℕ) (o : Option (Owner × List ℕ)) (f : Found) → k.table ≡ seen types.now → AreDistinct k.names → ShowsSelf k self_function o → ShowsFound k n sighting f → result ≡ rule.is_self o n f }
{
    match (self_function, sighting) {
        (Some(around), Sighting::Here(declared)) => is_same(types, around, declared),
        _ => false,
    }
}

fn is_same(types: &Types, around: Variable, declared: Declared) -> bool
    ensures { (k : Known) (n : List ℕ) (o : Owner × List ℕ) (m : Meaning) → k.table ≡ seen types.now → AreDistinct k.names → ShowsSelf k (Some around) (Some o) → ShowsMeaning k n declared m → result ≡ rule.is_self (Some o) n (Here m) }
{
    both(
        is_function_class(declared.class),
        both(
            types.same_owners(around.owner, declared.owner),
            around.name.0 == declared.name.0,
        ),
    )
}
