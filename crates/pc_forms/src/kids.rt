//! The kids of a node that has a fixed number of them.

ghost use Rattle.std.specs.Prelude.{◌≡◌, ◌∷◌, [], Some};
ghost use Rattle.pc_syntax.specs.Plain.{kids_of};
ghost use Rattle.pc_forms.specs.FormClasses.{fixed_count};

use pc_syntax::Tree;

/// Its one kid.
#[tactic(auto, using(crate::specs::CountLaws::fixed_length))]
pub fn one(tree: &Tree) -> &Tree
    requires { fixed_count tree.now.kind ≡ Some 1 }
    ensures { kids_of tree.now ≡ result.now ∷ [] }
{
    match tree.kid_slice() {
        [a] => a,
        _ => unreachable!(),
    }
}

/// Its two kids.
#[tactic(auto, using(crate::specs::CountLaws::fixed_length))]
pub fn two(tree: &Tree) -> (&Tree, &Tree)
    requires { fixed_count tree.now.kind ≡ Some 2 }
    ensures { kids_of tree.now ≡ result.0.now ∷ result.1.now ∷ [] }
{
    match tree.kid_slice() {
        [a, b] => (a, b),
        _ => unreachable!(),
    }
}

/// Its three kids.
#[tactic(auto, using(crate::specs::CountLaws::fixed_length))]
pub fn three(tree: &Tree) -> (&Tree, &Tree, &Tree)
    requires { fixed_count tree.now.kind ≡ Some 3 }
    ensures { kids_of tree.now ≡ result.0.now ∷ result.1.now ∷ result.2.now ∷ [] }
{
    match tree.kid_slice() {
        [a, b, c] => (a, b, c),
        _ => unreachable!(),
    }
}

/// Its four kids.
#[tactic(auto, using(crate::specs::CountLaws::fixed_length))]
pub fn four(tree: &Tree) -> (&Tree, &Tree, &Tree, &Tree)
    requires { fixed_count tree.now.kind ≡ Some 4 }
    ensures { kids_of tree.now ≡ result.0.now ∷ result.1.now ∷ result.2.now ∷ result.3.now ∷ [] }
{
    match tree.kid_slice() {
        [a, b, c, d] => (a, b, c, d),
        _ => unreachable!(),
    }
}

/// Its five kids.
#[tactic(auto, using(crate::specs::CountLaws::fixed_length))]
pub fn five(tree: &Tree) -> (&Tree, &Tree, &Tree, &Tree, &Tree)
    requires { fixed_count tree.now.kind ≡ Some 5 }
    ensures { kids_of tree.now ≡ result.0.now ∷ result.1.now ∷ result.2.now ∷ result.3.now ∷ result.4.now ∷ [] }
{
    match tree.kid_slice() {
        [a, b, c, d, e] => (a, b, c, d, e),
        _ => unreachable!(),
    }
}
