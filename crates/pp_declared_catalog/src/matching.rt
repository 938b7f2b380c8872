//! Which resources a collector matches.

ghost use Rattle.std.specs.Prelude.{◌≡◌};
ghost use Rattle.std.specs.List.{list_any, list_all};
ghost use Rattle.pp_value.specs.declared.value.Value.TheVariants as v;
ghost use Rattle.pp_value.specs.Values.{same};
ghost use Rattle.catalog_semantics.specs.Collecting.{is_or_has, has_value, meets, meets_any, matches};

use catalog_semantics::{Collector, Resource, Sort, Wish};
use pp_value::{Value, same, same_text};
use rh_base::Text;

fn any_same(x: &Value, members: &[Value]) -> bool
    ensures { result ≡ list_any (λ member. same member x.now) members.now }
{
    for member in members {
        if same(member, x) {
            return true;
        }
    }
    false
}

/// Whether a resource's own value is equal to one, or a list with a member that is.
#[tactic(auto, using(crate::proofs::WishLaws::or_false, pp_value::specs::Levels::on_list_of))]
fn is_or_has(x: &Value, own: &Value) -> bool
    ensures { result ≡ is_or_has x.now own.now }
{
    match own {
        Value::List(members) => {
            let whole = same(own, x);
            let part = any_same(x, members.as_slice());
            whole || part
        }
        _ => same(own, x),
    }
}

#[tactic(auto, using(crate::proofs::WishLaws::or_false))]
fn is_title(x: &Value, title: &Text) -> bool
    ensures { result ≡ is_or_has x.now (v.Str title.now) }
{
    match x {
        Value::Str(text) => same_text(title.as_str(), text.as_str()),
        _ => false,
    }
}

/// Whether a resource has a value under a name; `title` is its title.
fn has_value(name: &str, x: &Value, r: &Resource) -> bool
    ensures { result ≡ has_value name.now x.now r.now }
{
    if name == "title" {
        return is_title(x, &r.id.title);
    }
    match r.attrs.find(name) {
        Some(own) => is_or_has(x, own),
        None => false,
    }
}

/// Whether a resource meets a search.
#[cycle(wish)]
#[tactic(auto, using(crate::proofs::WishLaws::meets_or, crate::proofs::WishLaws::meets_and, crate::proofs::WishLaws::meets_equal, crate::proofs::WishLaws::meets_differ))]
fn meets(r: &Resource, w: &Wish) -> bool
    ensures { result ≡ meets r.now w.now }
{
    match w {
        Wish::Or(all) => meets_one(r, all.as_slice()),
        Wish::And(all) => meets_all(r, all.as_slice()),
        Wish::Equal(name, x) => has_value(name.as_str(), x, r),
        Wish::Differ(name, x) => !has_value(name.as_str(), x, r),
    }
}

#[cycle(wish)]
fn meets_one(r: &Resource, wishes: &[Wish]) -> bool
    ensures { result ≡ list_any (meets r.now) wishes.now }
{
    for w in wishes {
        if meets(r, w) {
            return true;
        }
    }
    false
}

#[cycle(wish)]
fn meets_all(r: &Resource, wishes: &[Wish]) -> bool
    ensures { result ≡ list_all (meets r.now) wishes.now }
{
    for w in wishes {
        if !meets(r, w) {
            return false;
        }
    }
    true
}

fn meets_any(r: &Resource, wish: &Option<Wish>) -> bool
    ensures { result ≡ meets_any r.now wish.now }
{
    match wish {
        Some(w) => meets(r, w),
        None => true,
    }
}

/// Whether a resource is of the collector's type and meets its search. Classes don't.
pub fn matches(c: &Collector, r: &Resource) -> bool
    ensures { result ≡ matches c.now r.now }
{
    if r.sort == Sort::Class {
        return false;
    }
    if r.id.kind.as_str() != c.kind.as_str() {
        return false;
    }
    meets_any(r, &c.wish)
}
