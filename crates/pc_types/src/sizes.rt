//! How large a type is.

ghost use Rattle.std.specs.Prelude.{◌≡◌, ◌+ℤ◌, ◌-ℤ◌, ◌*◌, ◌+◌, ◌≤◌, ◌||◌, not, nat_le, min, pos, nat_abs};
ghost use Rattle.pc_types.specs.Sizes.{values_of, cells, levels, cells_in, levels_in, is_too_large};
ghost use Rattle.pc_types.specs.Rows.{seen, form_cells, form_levels};
ghost use Rattle.pc_types.specs.Table.{shape_at, numbered, fields_from};

use crate::form::{Form, TypeId};
use crate::operand::Operand;
use crate::types::Types;
use pc_syntax::Word;

/// One cell, and one level, over the limits: larger sizes are not told apart.
const MANY_CELLS: u64 = 1000001;

const MANY_LEVELS: u64 = 257;

impl Types {
    /// Whether the type has over 1,000,000 cells or over 256 levels.
    #[tactic(auto, using(crate::proofs::SizesLaws::limits), unfolding(crate::specs::Sizes::is_too_large, crate::specs::Sizes::cell_limit))]
    pub fn is_too_large(&self, operand: Operand) -> bool
        ensures { result ≡ is_too_large (shape_at (seen self.now) operand) }
    {
        is_over(self.cells(operand), self.levels(operand))
    }

    /// How many cells the type has, up to one over the limit.
    pub(crate) fn cells(&self, operand: Operand) -> u64
        ensures { result ≡ min (cells (shape_at (seen self.now) operand)) 1000001 }
    {
        match operand {
            Operand::Id(id) => match self.row(id) {
                Some(row) => row.cells,
                None => 1,
            },
            Operand::Text(n) => u64::from(n).min(MANY_CELLS),
            Operand::Members(_) => 1,
            Operand::NoMembers => 1,
        }
    }

    /// How many levels the type has, up to one over the limit.
    pub(crate) fn levels(&self, operand: Operand) -> u64
        ensures { result ≡ min (levels (shape_at (seen self.now) operand)) 257 }
    {
        match operand {
            Operand::Id(id) => self.levels_at(id),
            Operand::Text(_) => 3,
            Operand::Members(base) => one_more(self.levels_at(base)),
            Operand::NoMembers => 1,
        }
    }

    fn levels_at(&self, id: TypeId) -> u64
        ensures { result ≡ min (levels (numbered (seen self.now).shapes id)) 257 }
    {
        match self.row(id) {
            Some(row) => row.levels,
            None => 1,
        }
    }

    /// How many values the index type has, up to one over the limit of cells.
    fn values(&self, index: TypeId) -> u64
        ensures { result ≡ min (values_of (numbered (seen self.now).shapes index)) 1000001 }
    {
        span(self.low(Operand::Id(index)), self.high(Operand::Id(index)))
    }

    /// How many cells a type of this form has, up to one over the limit.
    pub(crate) fn cells_in(&self, form: &Form) -> u64
        ensures { result ≡ min (form_cells (seen self.now).shapes form.now) 1000001 }
    {
        match form {
            Form::Text(n) => u64::from(*n).min(MANY_CELLS),
            Form::Array(_, index, element) => {
                many(self.values(*index), self.cells(Operand::Id(*element)))
            }
            Form::Record(_, fields) => self.cells_in_fields(fields.as_slice()).max(1),
            _ => 1,
        }
    }

    fn cells_in_fields(&self, fields: &[(Word, TypeId)]) -> u64
        ensures { result ≡ min (cells_in (fields_from (seen self.now).shapes fields.now)) 1000001 }
    {
        let mut total: u64 = 0;
        let mut rest = fields;
        while let [field, tail @ ..] = rest {
            total = sum(total, self.cells(Operand::Id(field.1)));
            rest = tail;
        }
        total
    }

    /// How many levels a type of this form has, up to one over the limit.
    pub(crate) fn levels_in(&self, form: &Form) -> u64
        ensures { result ≡ min (form_levels (seen self.now).shapes form.now) 257 }
    {
        match form {
            Form::Subrange(host, _, _) => one_more(self.levels_at(*host)),
            Form::Array(_, index, element) => {
                one_more(self.levels_at(*index).max(self.levels_at(*element)))
            }
            Form::Record(_, fields) => one_more(self.levels_in_fields(fields.as_slice())),
            Form::Set(_, base) => one_more(self.levels_at(*base)),
            Form::Members(Some(base)) => one_more(self.levels_at(*base)),
            Form::Text(_) => 3,
            _ => 1,
        }
    }

    fn levels_in_fields(&self, fields: &[(Word, TypeId)]) -> u64
        ensures { result ≡ min (levels_in (fields_from (seen self.now).shapes fields.now)) 257 }
    {
        let mut deepest: u64 = 0;
        let mut rest = fields;
        while let [field, tail @ ..] = rest {
            deepest = deepest.max(self.levels_at(field.1));
            rest = tail;
        }
        deepest
    }
}

/// Whether either is over its limit.
fn is_over(cells: u64, levels: u64) -> bool
    ensures { result ≡ (not (nat_le cells 1000000) || not (nat_le levels 256)) }
{
    cells > 1000000 || levels > 256
}

/// One level more, up to one over the limit.
fn one_more(levels: u64) -> u64
    requires { levels ≤ 257 }
    ensures { result ≡ min (1 + levels) 257 }
{
    (levels + 1).min(MANY_LEVELS)
}

/// So many cells so many times, up to one over the limit.
fn many(times: u64, cells: u64) -> u64
    requires few { times ≤ 1000001 }
    requires small { cells ≤ 1000001 }
    ensures { result ≡ min (times * cells) 1000001 }
{
    (times * cells).min(MANY_CELLS)
}

/// So many cells together, up to one over the limit.
fn sum(cells: u64, more: u64) -> u64
    requires few { cells ≤ 1000001 }
    requires small { more ≤ 1000001 }
    ensures { result ≡ min (cells + more) 1000001 }
{
    (cells + more).min(MANY_CELLS)
}

/// How many numbers go from the one to the other, up to one over the limit of cells.
fn span(low: i64, high: i64) -> u64
    ensures { result ≡ min (nat_abs ((high -ℤ low) +ℤ pos 1)) 1000001 }
{
    let Some(difference) = high.checked_sub(low) else {
        return MANY_CELLS;
    };
    let Some(count) = difference.checked_add(1) else {
        return MANY_CELLS;
    };
    count.unsigned_abs().min(MANY_CELLS)
}
