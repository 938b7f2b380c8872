//! The text of a catalog.

ghost use Rattle.std.specs.Prelude.{◌≡◌, ◌++◌, IfOk, OnOk};
ghost use Rattle.std.specs.List.{flat_map};
ghost use Rattle.catalog_text.specs.CatalogText.{attribute_line, resource_lines, is_printed, if_printed, catalog_text};

use crate::values::json_text;
use catalog::Catalog;
use catalog_semantics::{Resource, Sort};
use pp_value::{Value, shown_ref};
use printed_names::printed;
use rh_base::{NoMemory, Text};
use std::alloc::Global;

fn push_attribute(alloc: Global, name: &str, value: &Value, into: &mut Text) -> Result<(), NoMemory>
    ensures { OnOk result (into.new ≡ into.old ++ attribute_line (name.now, value.now)) }
{
    let value = json_text(alloc, value)?;
    let name = printed(alloc, name)?;
    into.push("  ")?;
    into.push(name.as_str())?;
    into.push(" => ")?;
    into.push(value.as_str())?;
    into.push("\n")
}

fn push_attributes(
    alloc: Global,
    attributes: &[(Text, Value)],
    into: &mut Text,
) -> Result<(), NoMemory>
    ensures { OnOk result (into.new ≡ into.old ++ flat_map attribute_line attributes.now) }
{
    for pair in attributes {
        push_attribute(alloc, pair.0.as_str(), &pair.1, into)?;
    }
    Ok(())
}

fn push_resource(alloc: Global, r: &Resource, into: &mut Text) -> Result<(), NoMemory>
    ensures { OnOk result (into.new ≡ into.old ++ resource_lines r.now) }
{
    let id = shown_ref(alloc, &r.id)?;
    let shown = printed(alloc, id.as_str())?;
    into.push(shown.as_str())?;
    into.push("\n")?;
    push_attributes(alloc, r.attrs.as_slice(), into)
}

fn is_printed(r: &Resource) -> bool
    ensures { result ≡ is_printed r.now }
{
    let plain = r.sort == Sort::Plain;
    plain && !r.is_virtual
}

fn push_if_printed(alloc: Global, r: &Resource, into: &mut Text) -> Result<(), NoMemory>
    ensures { OnOk result (into.new ≡ into.old ++ if_printed r.now) }
{
    if is_printed(r) {
        return push_resource(alloc, r, into);
    }
    Ok(())
}

/// The real resources of built-in types, each with its attributes.
#[tactic(auto, using(crate::proofs::TextLaws::next_lines, crate::proofs::TextLaws::no_lines))]
pub fn catalog_text(alloc: Global, catalog: &Catalog) -> Result<Text, NoMemory>
    ensures { IfOk result (λ text. text ≡ catalog_text catalog.now) }
{
    let mut text = Text::from_string(String::new(alloc));
    for i in 0..catalog.count() {
        push_if_printed(alloc, catalog.get(i), &mut text)?;
    }
    Ok(text)
}
