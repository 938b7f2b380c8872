//! What stands for the content of files that are put together of fragments.

ghost use Rattle.std.specs.Prelude.{◌≡◌, ◌++◌, ◌∷◌, [], map, option_map, is_some, is_none, IfOk, OnOk};
ghost use Rattle.std.specs.BTreeMap.{insert_entry};
ghost use Rattle.std.specs.List.{flat_map};
ghost use Rattle.std.specs.Option.{option_or};
ghost use Rattle.pp_value.specs.Shown.{shown_int};
ghost use Rattle.pp_value.specs.Table.{or_undef};
ghost use Rattle.pp_value.specs.Values.{value_at};
ghost use Rattle.compiled_attributes.specs.Fragments.{order_of, misfit_of, first_misfit, own_misfit, is_filled, why_unfilled, position_cmp, or_empty, position_of, piece_of, with_pieces, piece_text, frame_text, content_with, filling_of};
ghost use Rattle.compiled_attributes.specs.Places.{HoldsFragments};

use crate::fragments::{Fragments, gathered};
use crate::given::{given, gives, is_untold, says};
use crate::names::Name;
use catalog_text::json_text;
use compiled_text::{CompiledCatalog, CompiledResource, is_concat_file};
use json_parts::text_of;
use model_attributes::text_at;
use pp_value::{Pairs, Value};
use rh_base::{NoMemory, Seq, Text};
use std::alloc::Global;
use std::collections::BTreeMap;

// what doesn't fit

/// Whether the order of a fragment is a text or a number, or isn't given.
fn has_order(r: &CompiledResource) -> bool
    ensures { result ≡ is_some (order_of r.now) }
{
    match given(&r.parameters, "order") {
        None => true,
        Some(Value::Str(_)) => true,
        Some(Value::Int(_)) => true,
        Some(_) => false,
    }
}

/// The attribute for which a fragment can't be put into a file.
fn misfit_of(r: &CompiledResource) -> Option<&'static str>
    ensures { option_map (λ t. t.now) result ≡ misfit_of r.now }
{
    if !has_order(r) {
        return Some("order");
    }
    if gives(&r.parameters, "source") {
        return Some("source");
    }
    match text_at(&r.parameters, "content") {
        Some(_) => None,
        None => Some("content"),
    }
}

/// That of the first of these which has one.
fn first_misfit(rs: &[&CompiledResource]) -> Option<&'static str>
    ensures { option_map (λ t. t.now) result ≡ first_misfit (map (λ r. r.now) rs.now) }
{
    for r in rs {
        if let Some(name) = misfit_of(r) {
            return Some(name);
        }
    }
    None
}

/// The attribute for which a file can't be put together, whatever its fragments are.
fn own_misfit(ps: &Pairs) -> Option<&'static str>
    ensures { option_map (λ t. t.now) result ≡ own_misfit ps.now }
{
    let has_format = gives(ps, "format");
    let is_plain = says(ps, "format", "plain");
    if has_format && !is_plain {
        return Some("format");
    }
    if is_untold(ps, "order") {
        return Some("order");
    }
    if is_untold(ps, "ensure_newline") {
        return Some("ensure_newline");
    }
    None
}

/// The attribute for which a file of these fragments has no content.
fn misfit_with(r: &CompiledResource, rs: &[&CompiledResource]) -> Option<&'static str>
    ensures { option_map (λ t. t.now) result ≡ option_or (own_misfit r.now.parameters) (first_misfit (map (λ x. x.now) rs.now)) }
{
    match own_misfit(&r.parameters) {
        Some(name) => Some(name),
        None => first_misfit(rs),
    }
}

/// Whether a file is to be put together, and not to be absent.
fn is_filled(r: &CompiledResource) -> bool
    ensures { result ≡ is_filled r.now }
{
    let is_concat = is_concat_file(r);
    let is_absent = says(&r.parameters, "ensure", "absent");
    is_concat && !is_absent
}

/// The attribute for which a file that is put together has no content, if there is one: its own, or that of the first of
/// its fragments that has one. None for any other resource.
pub fn why_unfilled(
    alloc: Global,
    catalog: &CompiledCatalog,
    fragments: &Fragments,
    r: &CompiledResource,
) -> Result<Option<&'static str>, NoMemory>
    requires { HoldsFragments catalog.now.resources fragments.now }
    ensures { IfOk result (λ why. option_map (λ t. t.now) why ≡ why_unfilled catalog.now.resources r.now) }
{
    if !is_filled(r) {
        return Ok(None);
    }
    let rs = gathered(alloc, catalog.resources(), fragments, r)?;
    Ok(misfit_with(r, rs.as_slice()))
}

// their content

/// The order of a fragment, the empty text where it has none.
fn order_text(alloc: Global, r: &CompiledResource) -> Result<Text, NoMemory>
    ensures { IfOk result (λ t. t ≡ or_empty (order_of r.now)) }
{
    match given(&r.parameters, "order") {
        None => text_of(alloc, "10"),
        Some(Value::Str(text)) => text.copy(alloc),
        Some(Value::Int(n)) => shown_int(alloc, *n),
        Some(_) => Ok(Text::new(alloc)),
    }
}

/// A number in decimal.
fn shown_int(alloc: Global, n: i64) -> Result<Text, NoMemory>
    ensures { IfOk result (λ t. t ≡ shown_int n) }
{
    Ok(Text::from_string(format!(in alloc; "{n}")?))
}

/// The content of a fragment, the empty text where it isn't a text.
fn piece_of(alloc: Global, r: &CompiledResource) -> Result<Text, NoMemory>
    ensures { IfOk result (λ t. t ≡ piece_of r.now) }
{
    match text_at(&r.parameters, "content") {
        Some(text) => text.copy(alloc),
        None => Ok(Text::new(alloc)),
    }
}

/// Where a fragment stands: by its order, and by its title.
fn position_of(alloc: Global, r: &CompiledResource) -> Result<(Name, Name), NoMemory>
    ensures { IfOk result (λ p. p ≡ position_of r.now) }
{
    let order = order_text(alloc, r)?;
    let title = r.id.title.copy(alloc)?;
    Ok((Name::of(order), Name::of(title)))
}

/// Puts a fragment to its position.
fn put_piece(
    alloc: Global,
    r: &CompiledResource,
    pieces: &mut BTreeMap<(Name, Name), Text>,
) -> Result<(), NoMemory>
    ensures { OnOk result (pieces.new.entries ≡ insert_entry position_cmp pieces.old.entries (position_of r.now) (piece_of r.now)) }
{
    let position = position_of(alloc, r)?;
    let piece = piece_of(alloc, r)?;
    pieces.insert(position, piece)?;
    Ok(())
}

/// Fragments at their positions.
fn in_order(
    alloc: Global,
    rs: &[&CompiledResource],
) -> Result<BTreeMap<(Name, Name), Text>, NoMemory>
    ensures { IfOk result (λ pieces. pieces.entries ≡ with_pieces [] (map (λ r. r.now) rs.now)) }
{
    let mut pieces = BTreeMap::new(alloc);
    for r in rs {
        put_piece(alloc, r, &mut pieces)?;
    }
    Ok(pieces)
}

/// Adds `["ORDER","TITLE","CONTENT"]`.
fn push_piece(
    alloc: Global,
    position: (Name, Name),
    content: Text,
    into: &mut Text,
) -> Result<(), NoMemory>
    ensures { OnOk result (into.new ≡ into.old ++ piece_text (position, content)) }
{
    let (order, title) = position;
    let mut parts = Seq::new(alloc);
    parts.push(Value::Str(order.into_text()))?;
    parts.push(Value::Str(title.into_text()))?;
    parts.push(Value::Str(content))?;
    let text = json_text(alloc, &Value::list(alloc, parts)?)?;
    into.push(text.as_str())
}

/// Adds each fragment.
fn push_pieces(
    alloc: Global,
    pieces: BTreeMap<(Name, Name), Text>,
    into: &mut Text,
) -> Result<(), NoMemory>
    ensures { OnOk result (into.new ≡ into.old ++ flat_map piece_text pieces.entries) }
{
    for (position, content) in pieces {
        push_piece(alloc, position, content, into)?;
    }
    Ok(())
}

/// A copy of an attribute, undef where it doesn't stand.
fn copy_at(alloc: Global, ps: &Pairs, name: &str) -> Result<Value, NoMemory>
    ensures { IfOk result (λ x. x ≡ or_undef (value_at name.now ps.now)) }
{
    match ps.find(name) {
        Some(x) => x.copy(alloc),
        None => Ok(Value::Undef),
    }
}

/// `[ORDER,ENSURE_NEWLINE]` of a file.
fn frame_text(alloc: Global, ps: &Pairs) -> Result<Text, NoMemory>
    ensures { IfOk result (λ t. t ≡ frame_text ps.now) }
{
    let mut parts = Seq::new(alloc);
    parts.push(copy_at(alloc, ps, "order")?)?;
    parts.push(copy_at(alloc, ps, "ensure_newline")?)?;
    json_text(alloc, &Value::list(alloc, parts)?)
}

/// What stands for the content of a file of these fragments.
fn content_with(
    alloc: Global,
    r: &CompiledResource,
    rs: &[&CompiledResource],
) -> Result<Text, NoMemory>
    ensures { IfOk result (λ t. t ≡ content_with r.now.parameters (map (λ x. x.now) rs.now)) }
{
    let mut text = text_of(alloc, "concat:")?;
    let frame = frame_text(alloc, &r.parameters)?;
    text.push(frame.as_str())?;
    let pieces = in_order(alloc, rs)?;
    push_pieces(alloc, pieces, &mut text)?;
    Ok(text)
}

/// The content of a file that is put together, unless there is none.
pub(crate) fn filling_of(
    alloc: Global,
    resources: &[CompiledResource],
    fragments: &Fragments,
    r: &CompiledResource,
) -> Result<Option<Text>, NoMemory>
    requires { HoldsFragments resources.now fragments.now }
    ensures { IfOk result (λ t. t ≡ filling_of resources.now r.now) }
{
    if !is_filled(r) {
        return Ok(None);
    }
    let rs = gathered(alloc, resources, fragments, r)?;
    if misfit_with(r, rs.as_slice()).is_some() {
        return Ok(None);
    }
    Ok(Some(content_with(alloc, r, rs.as_slice())?))
}
