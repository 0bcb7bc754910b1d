//! How two places of a tree stand to each other.

ghost use Rattle.std.specs.Prelude.{◌≡◌};
ghost use Rattle.std.specs.Str.{bytes_eq};
ghost use Rattle.pc_scope.specs.Places as places;

/// Whether a place comes before another in the text, or around it.
pub fn is_before(place: &[u32], other: &[u32]) -> bool
    ensures { result ≡ places.is_before place.now other.now }
{
    let [i, is @ ..] = place else {
        return !other.is_empty();
    };
    let [j, js @ ..] = other else {
        return false;
    };
    if *i == *j { is_before(is, js) } else { *i < *j }
}

/// Whether the second place is that of the node at the first, or below it.
pub fn stands_in(place: &[u32], other: &[u32]) -> bool
    ensures { result ≡ places.stands_in place.now other.now }
{
    let [i, is @ ..] = place else {
        return true;
    };
    let [j, js @ ..] = other else {
        return false;
    };
    *i == *j && stands_in(is, js)
}

/// Whether two places are the same.
pub fn is_same(place: &[u32], other: &[u32]) -> bool
    ensures { result ≡ bytes_eq place.now other.now }
{
    let mut rest = place;
    let mut others = other;
    while let ([i, is @ ..], [j, js @ ..]) = (rest, others) {
        if *i != *j {
            return false;
        }
        rest = is;
        others = js;
    }
    rest.is_empty() && others.is_empty()
}
