//! Lists of things that are found by their names.
ghost use Rattle.std.specs.Prelude.{◌≡◌, ◌^◌, ◌<◌, ◌++◌, [], ◌∷◌, List, ℕ, Some, None, length, map, remove, slice_get, IfSome, IfOk, OnOk, OnErr};
ghost use Rattle.model_core.specs.Lists.{find, changed_at, AreNamedApart};

use crate::name::{Name, NoMemory};
use indexmap::IndexMap;
use std::alloc::Global;
use std::marker::Model;

/// A thing with a name.
pub(crate) trait Named {
    ghost name: { Self → List ℕ };

    /// The name that it is found by.
    fn found_by(&self) -> &Name
        ensures { result.now ≡ name self.now };

    /// An equal thing with memory of its own.
    fn copy(&self) -> Result<Self, NoMemory>
        ensures { IfOk result (λ copy. copy ≡ self.now) };
}

/// A change of a thing that leaves its name.
pub(crate) trait Change<T: Named> {
    ghost can: { Self → T → Type 0 };

    ghost after: { Self → T → T };

    /// Makes the change.
    fn make(self, item: &mut T)
        requires { can self item.old }
        ensures { item.new ≡ after self item.old };

    ghost keeps_name: { (change : Self) (item : T) → T.name (after change item) ≡ T.name item };
}

/// A list of things in the order in which they came, each found by its name without a walk. No two have one name.
#[derive(Drop)]
pub(crate) struct Roster<T: Named> {
    entries: IndexMap<Vec<u8>, T>,
}

impl<T: Named> Model for Roster<T> {
    ghost use Rattle.std.specs.Prelude.{List};
    ghost use Rattle.indexmap.specs.IndexMap.{values};
    ghost use Rattle.model_core.specs.Lists.{AreKeyed};

    ghost Value = { List T };

    ghost view = { λ roster. values roster.entries };

    ghost invariant = { λ roster. AreKeyed (λ k. k.items) T.name roster.entries.entries };
}

impl<T: Named> Roster<T> {
    /// An empty list. It takes no memory.
    pub(crate) fn new(alloc: Global) -> Roster<T>
        ensures { result ≡ [] }
    {
        Roster {
            entries: IndexMap::new(alloc),
        }
    }

    /// How many there are.
    pub(crate) fn len(&self) -> usize
        ensures len { result ≡ length self.now }
        ensures small { result < 2 ^ 63 }
        ensures apart { AreNamedApart T.name self.now }
    {
        self.entries.len()
    }

    /// The one at a place.
    pub(crate) fn get(&self, at: usize) -> &T
        requires { at < length self.now }
        ensures { slice_get self.now at ≡ Some result.now }
    {
        &self.entries[at]
    }

    /// Where the one with this name stands.
    pub(crate) fn find(&self, name: &[u8]) -> Option<usize>
        ensures place { result ≡ find T.name self.now name.now }
        ensures within { IfSome result (λ at. at < length self.now) }
    {
        self.entries.get_index_of(name)
    }

    /// Puts one behind the others.
    pub(crate) fn push(&mut self, item: T) -> Result<(), NoMemory>
    where
        T: Drop,
        requires { find T.name self.old (T.name item) ≡ None }
        ensures ok { OnOk result (self.new ≡ self.old ++ item ∷ []) }
        ensures err { OnErr result (self.new ≡ self.old) }
    {
        let key = Vec::from_slice(*self.entries.allocator(), item.found_by().as_bytes())?;
        self.entries.insert(key, item)?;
        Ok(())
    }

    // Puts an equal one behind the others.
    fn push_copy(&mut self, item: &T) -> Result<(), NoMemory>
    where
        T: Drop,
        requires { find T.name self.old (T.name item.now) ≡ None }
        ensures { OnOk result (self.new ≡ self.old ++ item.now ∷ []) }
    {
        self.push(item.copy()?)
    }

    /// Takes one out. Those behind it move up by one place.
    pub(crate) fn remove(&mut self, at: usize)
    where
        T: Drop,
        requires { at < length self.old }
        ensures { self.new ≡ remove self.old at }
    {
        self.entries.shift_remove_index(at);
    }

    /// Changes the one at a place.
    pub(crate) fn change<C: Change<T>>(&mut self, at: usize, change: C)
        requires within { at < length self.old }
        requires can { (item : T) → slice_get self.old at ≡ Some item → C.can change item }
        ensures { self.new ≡ changed_at (C.after change) self.old at }
    {
        let item = &mut self.entries[at];
        change.make(item);
    }

    /// Changes each of them alike.
    pub(crate) fn change_each<C: Change<T> + Copy>(&mut self, change: C)
        requires { (item : T) → C.can change item }
        ensures { self.new ≡ map (C.after change) self.old }
    {
        for at in 0..self.len() {
            self.change(at, change);
        }
    }

    /// The list of these things, copied.
    pub(crate) fn of(alloc: Global, items: &[T]) -> Result<Roster<T>, NoMemory>
    where
        T: Drop,
        requires { AreNamedApart T.name items.now }
        ensures { IfOk result (λ roster. roster ≡ items.now) }
    {
        let mut roster = Roster::new(alloc);
        for item in items {
            roster.push_copy(item)?;
        }
        Ok(roster)
    }

    /// An equal list with memory of its own.
    pub(crate) fn copy(&self) -> Result<Roster<T>, NoMemory>
    where
        T: Drop,
        ensures { IfOk result (λ copy. copy ≡ self.now) }
    {
        let mut copy = Roster::new(*self.entries.allocator());
        for at in 0..self.len() {
            copy.push_copy(self.get(at))?;
        }
        Ok(copy)
    }
}

impl Named for Name {
    ghost name = { λ name. name };

    fn found_by(&self) -> &Name {
        self
    }

    fn copy(&self) -> Result<Name, NoMemory> {
        Name::copy(self)
    }
}
