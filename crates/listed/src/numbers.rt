ghost use Rattle.std.specs.Prelude.{◌≡◌, [], ◌∷◌, ◌++◌, ◌<◌, length, slice_get, Some, OnOk, OnErr, IfOk};

use crate::Memory;
use std::alloc::Global;
use std::marker::Model;

/// A list of numbers, or of other small values that are copied, whose members are got by value.
/// Contracts see the list of its members.
#[derive(Debug, Drop)]
pub struct ListedNumbers<T> {
    members: Vec<T>,
}

impl<T> Model for ListedNumbers<T> {
    ghost use Rattle.std.specs.Prelude.{List};
    ghost use Rattle.std.specs.Coded.{coded_list};

    ghost Value = { List T };

    ghost coded = { coded_list T.code };

    ghost view = { λ list. list.members.items };
}

impl<T> ListedNumbers<T> {
    /// An empty list, which holds no memory.
    pub fn new(alloc: Global) -> ListedNumbers<T>
        ensures { result ≡ [] }
    {
        ListedNumbers {
            members: Vec::new(alloc),
        }
    }

    /// The list of the vector's elements; takes no memory.
    pub fn from_vec(members: Vec<T>) -> ListedNumbers<T>
        ensures { result ≡ members.items }
    {
        ListedNumbers { members }
    }

    /// The vector of the members; takes no memory.
    pub fn into_vec(self) -> Vec<T>
        ensures { result.items ≡ self }
    {
        self.members
    }

    /// The number of members.
    pub fn len(&self) -> usize
        ensures { result ≡ length self.now }
    {
        self.members.len()
    }

    /// The members in order.
    pub fn as_slice(&self) -> &[T]
        ensures { result.now ≡ self.now }
    {
        self.members.as_slice()
    }
}

impl<T: Copy> ListedNumbers<T> {
    /// The list of the slice's elements.
    pub fn from_slice(alloc: Global, members: &[T]) -> Result<ListedNumbers<T>, Memory>
        ensures { IfOk result (λ list. list ≡ members.now) }
    {
        let members = Vec::from_slice(alloc, members)?;
        Ok(ListedNumbers { members })
    }

    /// Member `i`, counted from 0.
    pub fn get(&self, i: usize) -> T
        requires { i < length self.now }
        ensures { slice_get self.now i ≡ Some result }
    {
        self.members[i]
    }

    /// Adds the member as the last one. A refusal leaves the list as it was.
    pub fn push(&mut self, member: T) -> Result<(), Memory>
        ensures ok { OnOk result (self.new ≡ self.old ++ member ∷ []) }
        ensures err { OnErr result (self.new ≡ self.old) }
    {
        self.members.push(member)?;
        Ok(())
    }
}
