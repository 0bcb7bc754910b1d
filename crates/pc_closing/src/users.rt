//! Which new types lead to others.

ghost use Rattle.std.specs.Prelude.{◌≡◌, [], ◌∷◌, ◌++◌, replicate, get_or, IfOk, OnOk};
ghost use Rattle.pc_closing.specs.Search.{with_user};

use std::alloc::{AllocError, Global};
use std::marker::Model;

/// The new types that lead to a type, by their numbers among the new ones.
#[derive(Drop)]
pub(crate) struct Users {
    ids: Vec<u32>,
}

impl Model for Users {
    ghost use Rattle.std.specs.Prelude.{List, ℕ};

    ghost Value = { List ℕ };

    ghost view = { λ u. u.ids.items };
}

impl Users {
    pub fn new(alloc: Global) -> Users
        ensures { result ≡ [] }
    {
        Users {
            ids: Vec::new(alloc),
        }
    }

    pub fn add(&mut self, id: u32) -> Result<(), AllocError>
        ensures { OnOk result (self.new ≡ self.old ++ id ∷ []) }
    {
        self.ids.push(id)?;
        Ok(())
    }

    pub fn ids(&self) -> &[u32]
        ensures { result.now ≡ self.now }
    {
        &self.ids
    }
}

/// So many types to which none leads.
pub(crate) fn no_users(alloc: Global, count: usize) -> Result<Vec<Users>, AllocError>
    ensures { IfOk result (λ users. users.items ≡ replicate count []) }
{
    let mut users = Vec::new(alloc);
    for i in 0..count {
        users.push(Users::new(alloc))?;
    }
    Ok(users)
}

/// One more type leads to the type with this number. Only memory can fail.
pub(crate) fn add_user(users: &mut [Users], part: usize, id: u32) -> Result<(), AllocError>
    ensures { OnOk result (users.new ≡ with_user part id users.old) }
{
    if part < users.len() {
        let of = &mut users[part];
        of.add(id)?;
    }
    Ok(())
}

/// The types that lead to the type with this number.
pub(crate) fn users_of(users: &[Users], part: usize) -> &[u32]
    ensures { result.now ≡ get_or users.now part [] }
{
    match users.get(part) {
        Some(of) => of.ids(),
        None => &[],
    }
}
