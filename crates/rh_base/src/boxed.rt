//! Boxes of values.

ghost use Rattle.std.specs.Prelude.{◌≡◌, IfOk};

use crate::text::NoMemory;
use std::alloc::Global;
use std::marker::Model;

/// A `Box`, which contracts see as the value in it.
#[derive(Debug, Drop)]
pub struct Boxed<T> {
    value: Box<T>,
}

impl<T> Model for Boxed<T> {
    ghost Value = { T };

    ghost coded = { T.code };

    ghost view = { λ b. b.value.value };
}

impl<T> Boxed<T> {
    pub fn from_box(value: Box<T>) -> Boxed<T>
        ensures { result ≡ value.value }
    {
        Boxed { value }
    }

    pub fn get(&self) -> &T
        ensures { result.now ≡ self.now }
    {
        &self.value
    }

    pub fn into_inner(self) -> T
        ensures { result ≡ self }
    {
        let Boxed { value } = self;
        Box::into_inner(value)
    }
}

impl<T: Drop> Boxed<T> {
    pub fn new(alloc: Global, value: T) -> Result<Boxed<T>, NoMemory>
        ensures { IfOk result (λ b. b ≡ value) }
    {
        Ok(Boxed {
            value: Box::new(alloc, value)?,
        })
    }
}
