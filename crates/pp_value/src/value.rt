//! Values, and their copies.

ghost use Rattle.std.specs.Prelude.{◌≡◌, IfOk};
ghost use Rattle.pp_value.specs.declared.value.Value.TheVariants as v;

use crate::keyed::Keyed;
use crate::shared::Shared;
use rh_base::{NoMemory, Seq, Text};
use std::alloc::Global;

/// A resource or a class: its kind in lower case, and its title.
#[derive(Debug, Drop, PartialEq, Eq, Hash)]
pub struct Ref {
    pub kind: Text,
    pub title: Text,
}

impl Ref {
    /// An equal reference.
    pub fn copy(&self, alloc: Global) -> Result<Ref, NoMemory>
        ensures { IfOk result (λ r. r ≡ self.now) }
    {
        let kind = self.kind.copy(alloc)?;
        let title = self.title.copy(alloc)?;
        Ok(Ref { kind, title })
    }
}

/// What expressions, facts and class data have as values.
#[derive(Drop)]
pub enum Value {
    Undef,
    Bool(bool),
    Int(i64),
    Str(Text),
    List(Shared<Value>),
    Map(Keyed<Value>),
    Refer(Ref),
    /// A number of the facts that isn't a whole one of 64 bits.
    Opaque,
}

/// The pairs of a map.
pub type Pairs = Keyed<Value>;

impl Value {
    /// A list of these members.
    pub fn list(alloc: Global, members: Seq<Value>) -> Result<Value, NoMemory>
        ensures { IfOk result (λ x. x ≡ v.List members) }
    {
        Ok(Value::List(Shared::new(alloc, members)?))
    }

    /// An equal value. A list is shared, however long it is.
    #[cycle(copy)]
    pub fn copy(&self, alloc: Global) -> Result<Value, NoMemory>
        ensures { IfOk result (λ v. v ≡ self.now) }
    {
        match self {
            Value::Undef => Ok(Value::Undef),
            Value::Bool(b) => Ok(Value::Bool(*b)),
            Value::Int(n) => Ok(Value::Int(*n)),
            Value::Str(text) => Ok(Value::Str(text.copy(alloc)?)),
            Value::List(items) => Ok(Value::List(items.share()?)),
            Value::Map(pairs) => Ok(Value::Map(copy_pairs(alloc, pairs)?)),
            Value::Refer(r) => Ok(Value::Refer(r.copy(alloc)?)),
            Value::Opaque => Ok(Value::Opaque),
        }
    }
}

/// Copies of some values.
pub fn copy_all(alloc: Global, items: &[Value]) -> Result<Seq<Value>, NoMemory>
    ensures { IfOk result (λ copies. copies ≡ items.now) }
{
    let mut copies = Seq::new(alloc);
    for item in items {
        copies.push(item.copy(alloc)?)?;
    }
    Ok(copies)
}

/// Equal pairs.
#[cycle(copy)]
pub fn copy_pairs(alloc: Global, pairs: &Keyed<Value>) -> Result<Keyed<Value>, NoMemory>
    ensures { IfOk result (λ copies. copies ≡ pairs.now) }
{
    let mut copies = Keyed::new(alloc);
    for pair in pairs.as_slice() {
        let key = pair.0.copy(alloc)?;
        copies.put(key, pair.1.copy(alloc)?)?;
    }
    Ok(copies)
}
