ghost use Rattle.std.specs.Prelude.{◌≡◌, IfOk};

use crate::{Copied, NoMemory};
use std::alloc::Global;
use std::marker::Model;

/// A box that contracts see as its value, and nothing else of it, so that a copy of it equals its source.
#[derive(Debug, Drop)]
pub struct Boxed<T> {
    inner: Box<T>,
}

impl<T> Model for Boxed<T> {
    ghost Value = { T };

    ghost coded = { T.code };

    ghost view = { λ b. b.inner.value };
}

impl<T> Boxed<T> {
    /// The value.
    pub fn get(&self) -> &T
        ensures { result.now ≡ self.now }
    {
        &self.inner
    }

    /// The value, out of its box.
    pub fn into_inner(self) -> T
        ensures { result ≡ self }
    {
        let Boxed { inner } = self;
        Box::into_inner(inner)
    }
}

impl<T: Drop> Boxed<T> {
    /// A box with this value. Where there is no memory for it, the value is dropped.
    pub fn new(alloc: Global, value: T) -> Result<Self, NoMemory>
        ensures { IfOk result (λ boxed. boxed ≡ value) }
    {
        Ok(Boxed {
            inner: Box::new(alloc, value)?,
        })
    }
}

impl<T: Copied + Drop> Copied for Boxed<T> {
    fn copy(&self, alloc: Global) -> Result<Self, NoMemory> {
        Boxed::new(alloc, self.inner.copy(alloc)?)
    }
}
