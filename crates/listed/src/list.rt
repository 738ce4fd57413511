ghost use Rattle.std.specs.Prelude.{◌≡◌, [], ◌∷◌, ◌++◌, ◌<◌, length, slice_get, slice_set, Some, OnOk, OnErr};

use crate::Memory;
use std::alloc::Global;
use std::marker::Model;

/// A list of records, whose members are got by reference. Contracts see the list of its members.
#[derive(Debug, Drop)]
pub struct Listed<T> {
    members: Vec<T>,
}

impl<T> Model for Listed<T> {
    ghost use Rattle.std.specs.Prelude.{List};
    ghost use Rattle.std.specs.Coded.{coded_list};

    ghost Value = { List T };

    ghost coded = { coded_list T.code };

    ghost view = { λ list. list.members.items };
}

impl<T> Listed<T> {
    /// An empty list, which holds no memory.
    pub fn new(alloc: Global) -> Listed<T>
        ensures { result ≡ [] }
    {
        Listed {
            members: Vec::new(alloc),
        }
    }

    /// The list of the vector's elements; takes no memory.
    pub fn from_vec(members: Vec<T>) -> Listed<T>
        ensures { result ≡ members.items }
    {
        Listed { members }
    }

    /// The vector of the members; takes no memory.
    pub fn into_vec(self) -> Vec<T>
        ensures { result.items ≡ self }
    {
        self.members
    }

    /// The number of members.
    pub fn len(&self) -> usize
        ensures { result ≡ length self.now }
    {
        self.members.len()
    }

    /// Member `i`, counted from 0.
    pub fn get(&self, i: usize) -> &T
        requires { i < length self.now }
        ensures { slice_get self.now i ≡ Some result.now }
    {
        &self.members[i]
    }

    /// Puts the member into the place of member `i`, which it gives back.
    pub fn replace(&mut self, i: usize, member: T) -> T
        requires { i < length self.old }
        ensures old { slice_get self.old i ≡ Some result }
        ensures new { self.new ≡ slice_set self.old i member }
    {
        std::mem::replace(&mut self.members[i], member)
    }

    /// The members in order.
    pub fn as_slice(&self) -> &[T]
        ensures { result.now ≡ self.now }
    {
        self.members.as_slice()
    }
}

impl<T: Drop> Listed<T> {
    /// Adds the member as the last one. A refusal drops it and leaves the list as it was.
    pub fn push(&mut self, member: T) -> Result<(), Memory>
        ensures ok { OnOk result (self.new ≡ self.old ++ member ∷ []) }
        ensures err { OnErr result (self.new ≡ self.old) }
    {
        self.members.push(member)?;
        Ok(())
    }
}
