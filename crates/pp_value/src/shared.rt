//! Lists that several owners have.
//!
//! A reference count, as in Rust's `Rc`: a list of 2^17 members that a thousand variables are bound to stands in memory
//! once. One thread runs the program, so the count needs no atomic.

ghost use Rattle.std.specs.Prelude.{◌≡◌, ◌↔◌, [], length, IfOk, IfErr, IsTrue};

use rh_base::{NoMemory, Seq};
use std::alloc::Global;
use std::marker::Model;
use std::rc::Rc;

/// A list that several owners have; it never changes. Contracts see it as the list of its items.
#[derive(Drop)]
pub struct Shared<T> {
    items: Rc<Seq<T>>,
}

impl<T> Model for Shared<T> {
    ghost use Rattle.std.specs.Prelude.{List};
    ghost use Rattle.std.specs.Coded.{coded_list};

    ghost Value = { List T };

    ghost coded = { coded_list T.code };

    ghost view = { λ s. s.items.value };
}

impl<T: Drop> Shared<T> {
    /// A list with one owner.
    pub fn new(alloc: Global, items: Seq<T>) -> Result<Shared<T>, NoMemory>
        ensures { IfOk result (λ s. s ≡ items) }
    {
        Ok(Shared {
            items: Rc::new(alloc, items)?,
        })
    }

    /// The same list for one more owner, which copies nothing.
    pub fn share(&self) -> Result<Shared<T>, NoMemory>
        ensures { IfOk result (λ s. s ≡ self.now) }
    {
        Ok(Shared {
            items: self.items.clone()?,
        })
    }

    pub fn len(&self) -> usize
        ensures { result ≡ length self.now }
    {
        self.items.as_ref().len()
    }

    pub fn is_empty(&self) -> bool
        ensures { IsTrue result ↔ (self.now ≡ []) }
    {
        self.items.as_ref().is_empty()
    }

    pub fn as_slice(&self) -> &[T]
        ensures { result.now ≡ self.now }
    {
        self.items.as_ref().as_slice()
    }

    /// The items, where nobody else has them.
    pub fn into_items(self) -> Result<Seq<T>, Shared<T>>
        ensures ok { IfOk result (λ items. items ≡ self) }
        ensures err { IfErr result (λ shared. shared ≡ self) }
    {
        let Shared { items } = self;
        match Rc::try_unwrap(items) {
            Ok(items) => Ok(items),
            Err(items) => Err(Shared { items }),
        }
    }
}
