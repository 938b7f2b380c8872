//! The attributes of a resource, or what refuses them.

ghost use Rattle.std.specs.Prelude.{◌≡◌, IfOk};
ghost use Rattle.rh_base.specs.Refused.{IfRefused};
ghost use Rattle.pp_eval.specs.Evaluating.{AnswersBy, refusal};
ghost use Rattle.pp_value.specs.Values.{value_at};
ghost use Rattle.compiled_attributes.specs.Places.{HoldsFragments};
ghost use Rattle.compiled_catalog.specs.Attributes.{attribute_name, none_is, is_large, is_unknown, with_related, settled, settled_attributes};

use catalog_semantics::is_metaparameter;
use compiled_attributes::{Fragments, attributes_of};
use compiled_relations::{Index, are_references, counts_as, name_and_line, related_to};
use compiled_text::{CompiledCatalog, CompiledResource};
use pp_eval::refusal;
use pp_value::{Pairs, Value, exceeds_limits, has_opaque, shown_ref};
use rh_base::{Fault, NoMemory, Text};
use std::alloc::Global;

fn text_of(alloc: Global, text: &str) -> Result<Text, NoMemory>
    ensures { IfOk result (λ t. t ≡ text.now) }
{
    Ok(Text::from_string(String::from_str(alloc, text)?))
}

/// What a refusal calls an attribute.
fn attribute_name(alloc: Global, r: &CompiledResource, name: &str) -> Result<Text, NoMemory>
    ensures { IfOk result (λ text. text ≡ attribute_name r.now name.now) }
{
    let id = counts_as(alloc, r)?;
    let mut text = shown_ref(alloc, &id)?;
    text.push(" ")?;
    text.push(name)?;
    name_and_line(alloc, r, text.as_str())
}

/// The refusal of an attribute.
fn refused(alloc: Global, number: u16, r: &CompiledResource, name: &str) -> Fault
    ensures { IfRefused result (λ x. x ≡ refusal number 0 (attribute_name r.now name.now)) }
{
    match attribute_name(alloc, r, name) {
        Ok(name) => refusal(alloc, number, 0, name.as_str()),
        Err(m) => Fault::Memory(m),
    }
}

/// Each value is within the limits.
fn none_is_large(
    alloc: Global,
    r: &CompiledResource,
    attributes: &[(Text, Value)],
) -> Result<(), Fault>
    ensures { AnswersBy (λ done. done) (none_is is_large 32 r.now attributes.now) result }
{
    for pair in attributes {
        if exceeds_limits(&pair.1) {
            return Err(refused(alloc, 32, r, pair.0.as_str()));
        }
    }
    Ok(())
}

/// Whether the value of an attribute has to be known and isn't.
fn is_unknown(alloc: Global, pair: &(Text, Value)) -> Result<bool, NoMemory>
    ensures { IfOk result (λ b. b ≡ is_unknown pair.now) }
{
    if is_metaparameter(pair.0.as_str()) {
        return Ok(!are_references(alloc, &pair.1)?);
    }
    Ok(has_opaque(&pair.1))
}

/// Each value is known.
fn none_is_unknown(
    alloc: Global,
    r: &CompiledResource,
    attributes: &[(Text, Value)],
) -> Result<(), Fault>
    ensures { AnswersBy (λ done. done) (none_is is_unknown 29 r.now attributes.now) result }
{
    for pair in attributes {
        if is_unknown(alloc, pair)? {
            return Err(refused(alloc, 29, r, pair.0.as_str()));
        }
    }
    Ok(())
}

/// Gives the relation of a name what its texts find.
fn relate(
    alloc: Global,
    index: &Index,
    r: &CompiledResource,
    name: &str,
    attributes: &mut Pairs,
) -> Result<(), Fault>
    ensures { AnswersBy (λ done. attributes.new)
        (with_related index.now r.now name.now attributes.old (value_at name.now attributes.old)) result }
{
    let Some(value) = attributes.find(name) else {
        return Ok(());
    };
    let related = related_to(alloc, index, r, value)?;
    let name = text_of(alloc, name)?;
    attributes.put(name, related)?;
    Ok(())
}

/// The same attributes, with what relations find; a value that is too large or unknown is refused ahead of them.
fn settled(
    alloc: Global,
    index: &Index,
    r: &CompiledResource,
    attributes: Pairs,
) -> Result<Pairs, Fault>
    ensures { AnswersBy (λ ps. ps) (settled index.now r.now attributes) result }
{
    none_is_large(alloc, r, attributes.as_slice())?;
    none_is_unknown(alloc, r, attributes.as_slice())?;
    let mut related = attributes;
    relate(alloc, index, r, "before", &mut related)?;
    relate(alloc, index, r, "notify", &mut related)?;
    relate(alloc, index, r, "require", &mut related)?;
    relate(alloc, index, r, "subscribe", &mut related)?;
    Ok(related)
}

/// The attributes of a resource of a catalog, among all of which references find.
pub fn settled_attributes(
    alloc: Global,
    catalog: &CompiledCatalog,
    index: &Index,
    fragments: &Fragments,
    r: &CompiledResource,
) -> Result<Pairs, Fault>
    requires index { index.now ≡ catalog.now.resources }
    requires fragments { HoldsFragments catalog.now.resources fragments.now }
    ensures { AnswersBy (λ ps. ps) (settled_attributes catalog.now.resources r.now) result }
{
    let attributes = attributes_of(alloc, catalog, fragments, r)?;
    settled(alloc, index, r, attributes)
}
