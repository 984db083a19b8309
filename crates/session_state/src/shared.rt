//! A basic scale that several owners read.
ghost use Rattle.std.specs.Prelude.{◌≡◌, IfOk};

use model_core::NoMemory;
use std::alloc::Global;
use std::marker::Model;
use std::rc::Rc;
use value_scale::Basic;

/// A basic scale. Each one that it is shared with has it without a copy.
#[derive(Drop)]
pub struct Shared {
    basic: Rc<Basic>,
}

impl Model for Shared {
    ghost use Rattle.value_scale.specs.declared.basic.Basic.{Basic};

    ghost Value = { Basic };

    ghost view = { λ shared. shared.basic.value };
}

impl Shared {
    /// A basic scale to be shared.
    pub fn new(alloc: Global, basic: Basic) -> Result<Shared, NoMemory>
        ensures { IfOk result (λ shared. shared ≡ basic) }
    {
        Ok(Shared {
            basic: Rc::new(alloc, basic)?,
        })
    }

    /// The same once more. It takes no memory, and refuses only where the count of its owners is
    /// full.
    pub fn share(&self) -> Result<Shared, NoMemory>
        ensures { IfOk result (λ shared. shared ≡ self.now) }
    {
        Ok(Shared {
            basic: self.basic.clone()?,
        })
    }

    /// The basic scale.
    pub fn basic(&self) -> &Basic
        ensures { result.now ≡ self.now }
    {
        &self.basic
    }
}
