//! Groups of criteria.
ghost use Rattle.std.specs.Prelude.{◌≡◌, refl};
ghost use Rattle.model_core.specs.Edits.{reparented};

use crate::criterion::{Regrouping, moved};
use crate::name::{Name, NoMemory};
use crate::roster::{Change, Named};
use std::marker::Model;

/// A group of criteria: its name, and the group that it belongs to, or the root. Groups count from 0.
#[derive(Drop)]
pub struct Group {
    name: Name,
    parent: Option<usize>,
}

impl Model for Group {
    ghost use Rattle.model_core.specs.State.{GroupState};

    ghost Value = { GroupState };

    ghost view = { λ group. record { name = group.name; parent = group.parent } };
}

impl Group {
    pub(crate) fn new(name: Name, parent: Option<usize>) -> Group
        ensures { result ≡ record { name = name; parent = parent } }
    {
        Group { name, parent }
    }

    /// Its name.
    pub fn name(&self) -> &Name
        ensures { result.now ≡ self.now.name }
    {
        &self.name
    }

    /// The group that it belongs to, or the root.
    pub fn parent(&self) -> Option<usize>
        ensures { result ≡ self.now.parent }
    {
        self.parent
    }
}

impl Named for Group {
    ghost name = { λ group. group.name };

    fn found_by(&self) -> &Name {
        &self.name
    }

    fn copy(&self) -> Result<Group, NoMemory> {
        Ok(Group {
            name: self.name.copy()?,
            parent: self.parent,
        })
    }
}

impl Change<Group> for Regrouping {
    ghost can = { λ change group. Unit {0} };

    ghost after = { λ change group. reparented change.gone change.above group };

    fn make(self, item: &mut Group) {
        item.parent = moved(self.gone, self.above, item.parent);
    }

    ghost keeps_name = { λ change group. refl };
}
