//! Which attributes of the text are left out, and what becomes of the others.

ghost use Rattle.std.specs.Prelude.{◌≡◌, ◌++◌, codes, IfOk};
ghost use Rattle.pp_value.specs.declared.value.Value.TheVariants as v;
ghost use Rattle.catalog_semantics.specs.Attributes.{is_one_of};
ghost use Rattle.catalog_text.specs.Json.{json};
ghost use Rattle.compiled_attributes.specs.Rows.{remarks, is_noop_row, left_out_of_all, modelled, is_modelled, has_to_be_known, is_short_link, is_idle_recursion, is_idle_purge, is_idle_force, left_out_of_file, file_value, typed_value, native_value, container_value, concat_names, is_absence, is_untold_state, is_of_concat, concat_value};

use crate::given::{are_addresses, gives, is_true, is_undef, is_untrue, says, says_from};
use catalog_semantics::is_metaparameter;
use catalog_text::json_text;
use json_parts::text_of;
use model_attributes::{is_one_of, truth_of};
use model_semantics::Kind;
use pp_value::{Pairs, Value, has_opaque};
use rh_base::NoMemory;
use std::alloc::Global;

// every type

fn is_remark(name: &str) -> bool
    ensures { result ≡ is_one_of remarks name.now }
{
    is_one_of(&["alias", "audit", "loglevel", "tag"], name)
}

/// Whether it is `noop`, with a truth value.
fn is_noop_row(name: &str, x: &Value) -> bool
    ensures { result ≡ is_noop_row name.now x.now }
{
    let is_named_so = name == "noop";
    is_named_so && truth_of(x).is_some()
}

/// Whether an attribute is left out of a resource of any type.
fn left_out_of_all(name: &str, x: &Value) -> bool
    ensures { result ≡ left_out_of_all name.now x.now }
{
    let is_nothing = is_undef(x);
    let is_remark = is_remark(name);
    let is_noop = is_noop_row(name, x);
    is_nothing || (is_remark || is_noop)
}

// opaque values

/// Whether the model of a type rests on an attribute, besides `ensure`.
fn is_in_model(k: Kind, name: &str) -> bool
    ensures { result ≡ is_one_of (modelled k) name.now }
{
    match k {
        Kind::File => is_one_of(
            &["path", "content", "source", "target", "owner", "group"],
            name,
        ),
        Kind::Package => is_one_of(&["name"], name),
        Kind::User => is_one_of(&["name", "gid", "groups", "home", "managehome"], name),
        Kind::Group => is_one_of(&["name"], name),
        Kind::Service => is_one_of(&["name", "enable"], name),
        Kind::Cron => is_one_of(
            &[
                "name", "command", "user", "minute", "hour", "monthday", "month", "weekday",
                "special",
            ],
            name,
        ),
        Kind::Key => is_one_of(&["name", "user", "type", "key"], name),
    }
}

/// Whether what a resource of this type does rests on an attribute.
fn is_modelled(k: Option<Kind>, name: &str) -> bool
    ensures { result ≡ is_modelled k name.now }
{
    let Some(k) = k else {
        return false;
    };
    if name == "ensure" {
        return true;
    }
    is_in_model(k, name)
}

/// Whether an attribute has to be known, so that an opaque value isn't left out of it.
fn has_to_be_known(k: Option<Kind>, name: &str) -> bool
    ensures { result ≡ has_to_be_known k name.now }
{
    let is_relation = is_metaparameter(name);
    let is_modelled = is_modelled(k, name);
    is_relation || is_modelled
}

// files

/// Whether `ensure` is itself the target of a link.
pub(crate) fn is_short_link(f: &Pairs) -> bool
    ensures { result ≡ is_short_link f.now }
{
    let names_target = says_from(f, "ensure", "/");
    let has_target = gives(f, "target");
    names_target && !has_target
}

/// Whether a file recurses though nothing is copied from anywhere and nothing is purged.
fn is_idle_recursion(f: &Pairs) -> bool
    ensures { result ≡ is_idle_recursion f.now }
{
    let recurses = is_true(f, "recurse");
    let has_source = gives(f, "source");
    let has_target = gives(f, "target");
    let purges = is_true(f, "purge");
    recurses && (!has_source && (!has_target && !purges))
}

/// Whether a file is purged though nothing recurses.
fn is_idle_purge(f: &Pairs) -> bool
    ensures { result ≡ is_idle_purge f.now }
{
    let purges = is_true(f, "purge");
    let has_recurse = gives(f, "recurse");
    let stays_flat = is_untrue(f, "recurse");
    purges && (!has_recurse || stays_flat)
}

/// Whether a file is forced though a folder is wanted and nothing is purged.
fn is_idle_force(f: &Pairs) -> bool
    ensures { result ≡ is_idle_force f.now }
{
    let forces = is_true(f, "force");
    let is_folder = says(f, "ensure", "directory");
    let purges = is_true(f, "purge");
    forces && (is_folder && !purges)
}

/// Whether an attribute is left out of a file with these.
fn left_out_of_file(f: &Pairs, name: &str) -> bool
    ensures { result ≡ left_out_of_file f.now name.now }
{
    if name == "recurse" {
        is_idle_recursion(f)
    } else if name == "purge" {
        is_idle_purge(f)
    } else if name == "force" {
        is_idle_force(f)
    } else if name == "replace" {
        is_true(f, "replace")
    } else if name == "ignore" {
        !gives(f, "recurse")
    } else {
        is_one_of(&["checksum_value", "selinux_ignore_defaults"], name)
    }
}

/// The one source that some addresses are.
fn one_source(alloc: Global, addresses: &Value) -> Result<Value, NoMemory>
    ensures { IfOk result (λ y. y ≡ v.Str (codes "puppet:" ++ json addresses.now)) }
{
    let mut text = text_of(alloc, "puppet:")?;
    let told = json_text(alloc, addresses)?;
    text.push(told.as_str())?;
    Ok(Value::Str(text))
}

/// What the value of an attribute of a file with these becomes.
fn file_value(alloc: Global, f: &Pairs, name: &str, x: &Value) -> Result<Value, NoMemory>
    ensures { IfOk result (λ y. y ≡ file_value f.now name.now x.now) }
{
    if name == "ensure" && is_short_link(f) {
        return Ok(Value::Str(text_of(alloc, "link")?));
    }
    if name == "source" && are_addresses(x) {
        return one_source(alloc, x);
    }
    x.copy(alloc)
}

// each attribute

/// What an attribute becomes by the rows of its own type.
fn typed_value(
    alloc: Global,
    k: Option<Kind>,
    ps: &Pairs,
    name: &str,
    x: &Value,
) -> Result<Option<Value>, NoMemory>
    ensures { IfOk result (λ y. y ≡ typed_value k ps.now name.now x.now) }
{
    if k != Some(Kind::File) {
        return Ok(Some(x.copy(alloc)?));
    }
    if left_out_of_file(ps, name) {
        return Ok(None);
    }
    Ok(Some(file_value(alloc, ps, name, x)?))
}

/// What an attribute of a native resource becomes, and none where it is left out.
pub(crate) fn native_value(
    alloc: Global,
    k: Option<Kind>,
    ps: &Pairs,
    name: &str,
    x: &Value,
) -> Result<Option<Value>, NoMemory>
    ensures { IfOk result (λ y. y ≡ native_value k ps.now name.now x.now) }
{
    if left_out_of_all(name, x) {
        return Ok(None);
    }
    if has_opaque(x) && !has_to_be_known(k, name) {
        return Ok(None);
    }
    typed_value(alloc, k, ps, name, x)
}

/// What an attribute of a container becomes: only its relations are kept.
pub(crate) fn container_value(
    alloc: Global,
    name: &str,
    x: &Value,
) -> Result<Option<Value>, NoMemory>
    ensures { IfOk result (λ y. y ≡ container_value name.now x.now) }
{
    let is_relation = is_metaparameter(name);
    let is_nothing = is_undef(x);
    if is_relation && !is_nothing {
        return Ok(Some(x.copy(alloc)?));
    }
    Ok(None)
}

// files that are put together of fragments

/// Whether it is an `ensure` that is `absent`.
fn is_absence(name: &str, x: &Value) -> bool
    ensures { result ≡ is_absence name.now x.now }
{
    if name != "ensure" {
        return false;
    }
    match x {
        Value::Str(text) => text.as_str() == "absent",
        _ => false,
    }
}

/// Whether an attribute leaves untold whether the file is there, or where.
fn is_untold_state(name: &str, x: &Value) -> bool
    ensures { result ≡ is_untold_state name.now x.now }
{
    let is_untold = has_opaque(x);
    is_untold && is_one_of(&["ensure", "path"], name)
}

/// Whether an attribute is one of the file that it is taken for.
fn is_of_concat(name: &str, x: &Value) -> bool
    ensures { result ≡ is_of_concat name.now x.now }
{
    let is_relation = is_metaparameter(name);
    let is_shared = is_one_of(&["owner", "group", "mode", "replace", "noop"], name);
    let is_absence = is_absence(name, x);
    let is_untold = is_untold_state(name, x);
    is_relation || (is_shared || (is_absence || is_untold))
}

/// What an attribute of a file that is put together becomes, by the rows of files.
pub(crate) fn concat_value(
    alloc: Global,
    ps: &Pairs,
    name: &str,
    x: &Value,
) -> Result<Option<Value>, NoMemory>
    ensures { IfOk result (λ y. y ≡ concat_value ps.now name.now x.now) }
{
    if !is_of_concat(name, x) {
        return Ok(None);
    }
    native_value(alloc, Some(Kind::File), ps, name, x)
}
