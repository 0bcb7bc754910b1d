//! Laws of the definitions.

ghost use Rattle.std.specs.Prelude.{◌≡◌, ℕ, List, Option, Some};
ghost use Rattle.pc_rules.specs.Meanings.{Class};
ghost use Rattle.pc_rule_laws.specs.BlockLaw.{BlockLaw};
ghost use Rattle.pc_rule_laws.specs.RoutineLaw.{RoutineLaw};
ghost use Rattle.pc_rule_laws.specs.OwnBlock.{OrderLaw};

/// At a used name of a block the look-up by environment and the look-up by the places of declarations agree, where they agree around the block: on
/// whether the declaration stands before, later, or there is none, and on its class.
pub fn lookups_agree_in_a_block()
    ensures { (class_at : List ℕ → Option Class) → BlockLaw (λ p c. class_at p ≡ Some c) }
{}

/// Around the own block of a routine, what a name means is what the look-up by places finds in the block that the routine stands in.
pub fn lookups_agree_around_a_routine()
    ensures { (class_at : List ℕ → Option Class) → RoutineLaw (λ p c. class_at p ≡ Some c) }
{}

/// The own block of each block of a well-formed program is in order, as the laws above ask of it.
pub fn own_blocks_are_in_order()
    ensures { OrderLaw }
{}
