//! The name of a definition that is gone through: a constant and a type stand before in their own definition, and are declared
//! behind it (ISO 7185, 6.2.2).

ghost use Rattle.std.specs.Prelude.{◌≡◌, ◌<◌, ℕ, List, Option, true, length, if◌then◌else◌, IfOk, OnOk};
ghost use Rattle.pc_syntax.specs.Classes.{has};
ghost use Rattle.pc_syntax.specs.Plain.{Plain};
ghost use Rattle.pc_syntax.specs.Words.{lowered, is_among};
ghost use Rattle.pc_syntax.specs.declared.class.Class.TheVariants as class;
ghost use Rattle.pc_names.specs.Numbers as numbers;
ghost use Rattle.pc_names.specs.StandingLaws.{passing};
ghost use Rattle.pc_rules.specs.Meanings.{Local, Meaning, Outside};
ghost use Rattle.pc_places.specs.Places.{known, IsPlace, Moves};
ghost use Rattle.pc_definitions.specs.Namings as namings;
ghost use Rattle.pc_definitions.specs.Namings.{ShowsNaming, FitsNaming, IsNamingThere, ShowsParts, entering, leaving};

use pc_facts::{Declared, Value};
use pc_names::{BlockId, NameClass, NameId};
use pc_places::{Tables, complete, is_passed, number, pass};
use pc_syntax::{Kind, Tree};
use pc_types::{Operand, OwnerId};
use std::alloc::AllocError;

/// The name of a definition: a hole is none; the first definition of a name in its block makes a declaration, and a second one doesn't.
#[derive(Clone, Copy, Debug, PartialEq, Eq)]
pub enum Naming {
    Nameless,
    First(NameId),
    Second,
}

impl Naming {
    /// Whether a hole stands in place of the name.
    pub fn is_nameless(self) -> bool
        ensures { result ≡ namings.is_nameless self }
    {
        match self {
            Naming::Nameless => true,
            _ => false,
        }
    }

    /// Whether the name stood before.
    pub fn is_second(self) -> bool
        ensures { result ≡ namings.is_second self }
    {
        match self {
            Naming::Second => true,
            _ => false,
        }
    }
}

/// The name of a definition, which stands before in the block from now on. Only memory can fail.
pub fn enter(tables: &mut Tables, block: BlockId, node: &Tree) -> Result<Naming, AllocError>
    requires block { block.0 < length tables.old.names.chains }
    requires name { has class.Name node.now.kind ≡ true }
    ensures shows { IfOk result (λ n. ShowsNaming tables.new.names.texts node.now n) }
    ensures there { IfOk result (λ n. IsNamingThere (length tables.new.names.texts) n) }
    ensures place { IfOk result (λ n. (owner : ℕ) (out : Outside) (l : Local) → IsPlace tables.old block.0 owner out l → FitsNaming l node.now n × IsPlace tables.new block.0 owner out (entering l node.now n)) }
    ensures moves { OnOk result (Moves block.0 tables.old tables.new) }
{
    match node.kind() {
        Kind::Name => {
            let (name, second) = pass_name(tables, block, node.word())?;
            Ok(naming_of(name, second))
        }
        _ => Ok(Naming::Nameless),
    }
}

/// The number of a name, and whether it stood before; it does from now on.
fn pass_name(tables: &mut Tables, block: BlockId, word: &[u8]) -> Result<(NameId, bool), AllocError>
    requires { block.0 < length tables.old.names.chains }
    ensures number { IfOk result (λ r. numbers.number_of tables.new.names.texts (lowered word.now) ≡ Some r.0.0) }
    ensures there { IfOk result (λ r. r.0.0 < length tables.new.names.texts) }
    ensures place { IfOk result (λ r. (owner : ℕ) (out : Outside) (l : Local) → IsPlace tables.old block.0 owner out l → (r.1 ≡ is_among l.passed (lowered word.now)) × IsPlace tables.new block.0 owner out (passing l (lowered word.now))) }
    ensures moves { OnOk result (Moves block.0 tables.old tables.new) }
{
    let name = number(tables, word)?;
    let second = is_passed(tables, block, name);
    pass(tables, block, name)?;
    Ok((name, second))
}

fn naming_of(name: NameId, second: bool) -> Naming
    ensures { result ≡ (if second then Naming.Second else Naming.First name) }
{
    if second {
        Naming::Second
    } else {
        Naming::First(name)
    }
}

/// The declaration of the name is complete from now on, if it is the first one. Fails for want of memory, and where there are as many
/// declarations as numbers.
pub fn leave(
    tables: &mut Tables,
    block: BlockId,
    owner: OwnerId,
    naming: Naming,
    class: NameClass,
    value: Option<Value>,
    of: Option<Operand>,
) -> Result<(), AllocError>
    requires block { block.0 < length tables.old.names.chains }
    requires there { IsNamingThere (length tables.old.names.texts) naming }
    ensures place { OnOk result ((own : ℕ) (out : Outside) (l : Local) (t : Plain) (m : Meaning) → ShowsNaming tables.old.names.texts t naming → ShowsParts (known tables.old) class owner value of m → IsPlace tables.old block.0 own out l → IsPlace tables.new block.0 own out (leaving l t naming m)) }
    ensures moves { OnOk result (Moves block.0 tables.old tables.new) }
{
    match naming {
        Naming::First(name) => {
            let declared = Declared {
                class,
                owner,
                name,
                value,
                of,
                signature: None,
            };
            complete(tables, block, name, declared)?;
            Ok(())
        }
        _ => Ok(()),
    }
}
