//! Types that a manifest may name.

ghost use Rattle.pp_eval.specs.Evaluating.{AnswersBy};
ghost use Rattle.catalog_semantics.specs.Declaring.{known_type, named_type};

use pp_definitions::Site;
use pp_eval::refusal;
use rh_base::{Fault, Text};
use std::alloc::Global;

/// A type of which resources may be declared.
pub(crate) fn known_type(alloc: Global, site: &Site<'_>, at: u32, kind: Text) -> Result<Text, Fault>
    ensures { AnswersBy (λ known. known) (known_type site.now at kind) result }
{
    if site.is_type(kind.as_str()) {
        return Ok(kind);
    }
    Err(refusal(alloc, 23, at, kind.as_str()))
}

/// A type that defaults or a collector may name.
pub fn named_type(alloc: Global, site: &Site<'_>, at: u32, kind: Text) -> Result<Text, Fault>
    ensures { AnswersBy (λ known. known) (named_type site.now at kind) result }
{
    if kind.as_str() == "class" {
        return Err(refusal(alloc, 23, at, kind.as_str()));
    }
    known_type(alloc, site, at, kind)
}
