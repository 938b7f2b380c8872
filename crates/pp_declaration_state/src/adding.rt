//! Resources as they are added.

ghost use Rattle.std.specs.Prelude.{◌≡◌, ℕ, List, if◌then◌else◌, IfOk};
ghost use Rattle.pp_value.specs.Keys.{HasDistinctKeys};
ghost use Rattle.catalog_semantics.specs.States.{defaults_of, is_class, with_defaults};

use crate::defaults::defaults_of;
use catalog::filled as with_lacking;
use catalog_semantics::{Default, Resource, Sort};
use rh_base::NoMemory;
use std::alloc::Global;

pub fn is_class(r: &Resource) -> bool
    ensures { result ≡ is_class r.now }
{
    r.sort == Sort::Class
}

/// A resource with the defaults of its type that it hasn't got.
#[tactic(auto, using(crate::proofs::DefaultLaws::kept))]
fn filled(alloc: Global, defaults: &[Default], r: Resource) -> Result<Resource, NoMemory>
    requires { (kind : List ℕ) → HasDistinctKeys (defaults_of kind defaults.now) }
    ensures { IfOk result (λ x. x ≡ with_defaults defaults.now r) }
{
    if is_class(&r) {
        return Ok(r);
    }
    let pairs = defaults_of(alloc, r.id.kind.as_str(), defaults)?;
    let attrs = with_lacking(alloc, &r.attrs, &pairs)?;
    let mut r = r;
    r.attrs = attrs;
    Ok(r)
}

/// A resource that is added once the main code has ended has its defaults from the start.
pub fn as_added(
    alloc: Global,
    main_has_ended: bool,
    defaults: &[Default],
    r: Resource,
) -> Result<Resource, NoMemory>
    requires { (kind : List ℕ) → HasDistinctKeys (defaults_of kind defaults.now) }
    ensures { IfOk result (λ x. x ≡ (if main_has_ended then with_defaults defaults.now r else r)) }
{
    if main_has_ended {
        filled(alloc, defaults, r)
    } else {
        Ok(r)
    }
}
