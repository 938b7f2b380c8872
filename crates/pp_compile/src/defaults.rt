//! Defaults, as statements at the top give them.

ghost use Rattle.pp_eval.specs.Evaluating.{AnswersBy};
ghost use Rattle.catalog_semantics.specs.Catalogs.{default_given};

use pp_declaration_state::State;
use pp_declared_bodies::named_type;
use pp_declared_values::attributes_behind;
use pp_definitions::Site;
use pp_eval::plain_name;
use pp_syntax::Attr;
use rh_base::Fault;
use std::alloc::Global;

/// Gives defaults to a type, none of which an earlier default gave to it.
#[tactic(auto, using(crate::proofs::NameLaws::keys_noted, crate::proofs::NameLaws::still_distinct))]
pub fn give_default(
    alloc: Global,
    site: &Site<'_>,
    at: u32,
    kind: &str,
    attrs: &[Attr],
    state: &mut State,
) -> Result<(), Fault>
    ensures { AnswersBy (λ done. state.new) (default_given site.now at kind.now attrs.now state.old) result }
{
    let kind = plain_name(alloc, kind)?;
    let kind = named_type(alloc, site, at, kind)?;
    let names = state.default_names(kind.as_str())?;
    let attributes = attributes_behind(alloc, names, attrs, state.scopes())?;
    state.add_default(kind, attributes)?;
    Ok(())
}
