//! The attributes of a resource.

ghost use Rattle.std.specs.Prelude.{◌≡◌, [], IfOk, OnOk};
ghost use Rattle.std.specs.BTreeMap.{insert_entry};
ghost use Rattle.compiled_attributes.specs.declared.reading.Reading.TheVariants as reading;
ghost use Rattle.compiled_attributes.specs.Attributes.{is_noop, byte_cmp, value_read, short_target, added_to, with_attribute, with_all, attributes_of};
ghost use Rattle.compiled_attributes.specs.Places.{HoldsFragments};

use crate::content::filling_of;
use crate::fragments::Fragments;
use crate::given::is_true;
use crate::names::Name;
use crate::reading::{Reading, reading_of};
use crate::rows::{concat_value, container_value, is_short_link, native_value};
use compiled_text::{CompiledCatalog, CompiledResource};
use json_parts::text_of;
use model_semantics::Kind;
use pp_value::{Pairs, Value, distinct_pairs_are_kept};
use rh_base::{NoMemory, Text};
use std::alloc::Global;
use std::collections::BTreeMap;

/// Whether a resource's `noop` is true, so that it does nothing.
pub fn is_noop(r: &CompiledResource) -> bool
    ensures { result ≡ is_noop r.now }
{
    is_true(&r.parameters, "noop")
}

/// What becomes of an attribute beside others; none where it is left out.
fn value_read(
    alloc: Global,
    reading: Reading,
    ps: &Pairs,
    name: &str,
    x: &Value,
) -> Result<Option<Value>, NoMemory>
    ensures { IfOk result (λ y. y ≡ value_read reading ps.now name.now x.now) }
{
    match reading {
        Reading::Container => container_value(alloc, name, x),
        Reading::Concat => concat_value(alloc, ps, name, x),
        Reading::Native(k) => native_value(alloc, k, ps, name, x),
    }
}

// what the text doesn't have as it is

/// The target of a short link.
fn short_target(alloc: Global, f: &Pairs) -> Result<Option<(Text, Value)>, NoMemory>
    ensures { IfOk result (λ p. p ≡ short_target f.now) }
{
    if !is_short_link(f) {
        return Ok(None);
    }
    let Some(x) = f.find("ensure") else {
        return Ok(None);
    };
    let name = text_of(alloc, "target")?;
    let x = x.copy(alloc)?;
    Ok(Some((name, x)))
}

/// The content of a file that is put together.
fn filling(
    alloc: Global,
    resources: &[CompiledResource],
    fragments: &Fragments,
    r: &CompiledResource,
) -> Result<Option<(Text, Value)>, NoMemory>
    requires { HoldsFragments resources.now fragments.now }
    ensures { IfOk result (λ p. p ≡ added_to resources.now r.now reading.Concat) }
{
    match filling_of(alloc, resources, fragments, r)? {
        Some(text) => Ok(Some((text_of(alloc, "content")?, Value::Str(text)))),
        None => Ok(None),
    }
}

/// An attribute that the text doesn't give.
fn added_to(
    alloc: Global,
    resources: &[CompiledResource],
    fragments: &Fragments,
    r: &CompiledResource,
    reading: Reading,
) -> Result<Option<(Text, Value)>, NoMemory>
    requires { HoldsFragments resources.now fragments.now }
    ensures { IfOk result (λ p. p ≡ added_to resources.now r.now reading) }
{
    match reading {
        Reading::Concat => filling(alloc, resources, fragments, r),
        Reading::Native(Some(Kind::File)) => short_target(alloc, &r.parameters),
        _ => Ok(None),
    }
}

// in order

/// Puts an attribute where it belongs.
fn put(attributes: &mut BTreeMap<Name, Value>, name: Text, x: Value) -> Result<(), NoMemory>
    ensures { OnOk result (attributes.new.entries ≡ insert_entry byte_cmp attributes.old.entries name x) }
{
    attributes.insert(Name::of(name), x)?;
    Ok(())
}

/// Puts what becomes of an attribute where it belongs, unless it is left out.
fn put_read(
    alloc: Global,
    reading: Reading,
    ps: &Pairs,
    pair: &(Text, Value),
    attributes: &mut BTreeMap<Name, Value>,
) -> Result<(), NoMemory>
    ensures { OnOk result (attributes.new.entries ≡ with_attribute attributes.old.entries pair.now.0
        (value_read reading ps.now pair.now.0 pair.now.1)) }
{
    let Some(x) = value_read(alloc, reading, ps, pair.0.as_str(), &pair.1)? else {
        return Ok(());
    };
    let name = pair.0.copy(alloc)?;
    put(attributes, name, x)
}

/// What becomes of all attributes of the text.
fn read_all(alloc: Global, reading: Reading, ps: &Pairs) -> Result<BTreeMap<Name, Value>, NoMemory>
    ensures { IfOk result (λ a. a.entries ≡ with_all (value_read reading ps.now) [] ps.now) }
{
    let mut attributes = BTreeMap::new(alloc);
    for pair in ps.as_slice() {
        put_read(alloc, reading, ps, pair, &mut attributes)?;
    }
    Ok(attributes)
}

/// The same as pairs.
fn pairs_of(alloc: Global, attributes: BTreeMap<Name, Value>) -> Result<Pairs, NoMemory>
    ensures { IfOk result (λ ps. ps ≡ attributes.entries) }
{
    distinct_pairs_are_kept();
    let mut pairs = Pairs::new(alloc);
    for (name, x) in attributes {
        pairs.put(name.into_text(), x)?;
    }
    Ok(pairs)
}

/// The attributes of a resource of a compiled catalog, in the byte order of their names. `before`, `notify`, `require` and
/// `subscribe` stay as they were read.
pub fn attributes_of(
    alloc: Global,
    catalog: &CompiledCatalog,
    fragments: &Fragments,
    r: &CompiledResource,
) -> Result<Pairs, NoMemory>
    requires { HoldsFragments catalog.now.resources fragments.now }
    ensures { IfOk result (λ a. a ≡ attributes_of catalog.now.resources r.now) }
{
    let reading = reading_of(r);
    let mut attributes = read_all(alloc, reading, &r.parameters)?;
    if let Some(pair) = added_to(alloc, catalog.resources(), fragments, r, reading)? {
        let (name, x) = pair;
        put(&mut attributes, name, x)?;
    }
    pairs_of(alloc, attributes)
}
