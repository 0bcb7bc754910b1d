//! Domains of pointer types (ISO 7185, 6.4.4).

ghost use Rattle.std.specs.Prelude.{◌≡◌, ◌<◌, ◌++◌, ◌∷◌, [], ℕ, Bool, true, Some, length, get_or, option_map, IfOk, OnOk};
ghost use Rattle.std.specs.Option.{ForSome};
ghost use Rattle.pc_syntax.specs.Classes.{has};
ghost use Rattle.pc_syntax.specs.Words.{lowered};
ghost use Rattle.pc_syntax.specs.declared.class.Class.TheVariants as class;
ghost use Rattle.pc_types.specs.Rows.{seen};
ghost use Rattle.pc_types.specs.Shapes.{Owner as Defining};
ghost use Rattle.pc_types.specs.Table.{Place, nobody, place_at};
ghost use Rattle.pc_forms.specs.declared.form.Form.TheVariants as form;
ghost use Rattle.pc_rules.specs.Meanings as meanings;
ghost use Rattle.pc_rules.specs.Meanings.{Local};
ghost use Rattle.pc_facts.specs.Known.{Known};
ghost use Rattle.pc_facts.specs.Shows.{ShowsFound};
ghost use Rattle.pc_type_rules.specs.Denoted as denoted;
ghost use Rattle.pc_type_rules.specs.Extends.{Extends};
ghost use Rattle.pc_denoters.specs.Goings.{AtHere, AreThere, MakesForm};

use crate::names::small_word;
use pc_facts::{Facts, Sighting};
use pc_name_rules::{Allowed, add_name_entries};
use pc_names::BlockId;
use pc_places::{Tables, name_at_place};
use pc_syntax::{Tree, Word};
use pc_type_rules::pointer;
use pc_types::{Definition, DomainId, OwnerId, Types};
use std::alloc::{AllocError, Global};

/// What is found at a pointer type that is defined here: its domain gets a number of its own. Only memory and numbers can fail.
pub(crate) fn pointer_to_name(
    alloc: Global,
    tables: &mut Tables,
    block: BlockId,
    owner: OwnerId,
    here: Definition,
    name: &Tree,
) -> Result<Facts, AllocError>
    requires there { AreThere tables.old block.0 owner.0 here }
    requires name { has class.Name name.now.kind ≡ true }
    ensures { IfOk result (λ f. (packed : Bool) → MakesForm (AtHere here packed) block.0 owner.0 tables.old tables.new (form.Pointer name.now) f) }
{
    let named = name_at_place(tables, block, name)?;
    let mut entries = Vec::new(alloc);
    add_name_entries(alloc, &mut entries, name.word(), named, Allowed::Type)?;
    let domain = domain_of(alloc, &mut tables.types, owner, named.sighting, name.word())?;
    let found = pointer(alloc, &mut tables.types, here, named, domain, entries)?;
    Ok(found)
}

/// The number of the domain with this name, by the meaning of the name: it is declared where the name is, a later one by this owner,
/// and a required one by the program; a name without a meaning is that of none. Only memory and numbers can fail.
#[tactic(auto, using(crate::specs::DomainLaws::unchanged))]
fn domain_of(
    alloc: Global,
    types: &mut Types,
    owner: OwnerId,
    sighting: Sighting,
    word: &[u8],
) -> Result<Option<DomainId>, AllocError>
    ensures domain { IfOk result (λ d. (k : Known) (l : Local) (f : meanings.Found) → k.table ≡ seen types.old → owner.0 < length (seen types.old).owners → get_or (seen types.old).owners owner.0 nobody ≡ l.owner → ShowsFound k (lowered word.now) sighting f → option_map (place_at (seen types.new)) d ≡ denoted.domain_of l (lowered word.now) f) }
    ensures there { IfOk result (λ d. ForSome d (λ x. x.0 < length (seen types.new).domains)) }
    ensures extended { OnOk result (Extends (seen types.old) (seen types.new)) }
{
    match sighting {
        Sighting::Here(declared) => {
            let domain = domain_by(alloc, types, declared.owner, word)?;
            Ok(domain)
        }
        Sighting::Later(_) => {
            let domain = domain_by(alloc, types, owner, word)?;
            Ok(domain)
        }
        Sighting::Required(_) => {
            let program = types.program();
            let domain = domain_by(alloc, types, program, word)?;
            Ok(domain)
        }
        _ => Ok(None),
    }
}

/// The number of a domain that this owner declares; none where there is no such owner.
#[tactic(auto, using(crate::specs::DomainLaws::unchanged))]
fn domain_by(
    alloc: Global,
    types: &mut Types,
    owner: OwnerId,
    word: &[u8],
) -> Result<Option<DomainId>, AllocError>
    ensures domain { IfOk result (λ d. (o : Defining) → owner.0 < length (seen types.old).owners → get_or (seen types.old).owners owner.0 nobody ≡ o → option_map (place_at (seen types.new)) d ≡ Some (record { owner = o; name = lowered word.now })) }
    ensures there { IfOk result (λ d. ForSome d (λ x. x.0 < length (seen types.new).domains)) }
    ensures extended { OnOk result (Extends (seen types.old) (seen types.new)) }
{
    if (owner.0 as usize) < types.count_owners() {
        let name = small_word(alloc, word)?;
        let id = add_domain(types, owner, name)?;
        Ok(Some(id))
    } else {
        Ok(None)
    }
}

/// A new domain: its number. Fails for want of memory, and where there are as many domains as numbers.
fn add_domain(types: &mut Types, owner: OwnerId, name: Word) -> Result<DomainId, AllocError>
    requires { owner.0 < length (seen types.old).owners }
    ensures place { IfOk result (λ d. place_at (seen types.new) d ≡ record { owner = get_or (seen types.old).owners owner.0 nobody; name = name }) }
    ensures there { IfOk result (λ d. d.0 < length (seen types.new).domains) }
    ensures extended { OnOk result (Extends (seen types.old) (seen types.new)) }
{
    if types.count_domains() > u32::MAX as usize {
        return Err(AllocError);
    }
    let id = types.add_domain(owner, name)?;
    Ok(id)
}
