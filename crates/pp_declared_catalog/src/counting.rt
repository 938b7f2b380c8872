//! How many resources a catalog may have.

ghost use Rattle.std.specs.Prelude.{◌≡◌, ◌≤◌, if◌then◌else◌, length};
ghost use Rattle.pp_eval.specs.Evaluating.{AnswersBy};
ghost use Rattle.catalog_semantics.specs.Catalogs.{real_plain, few_enough};
ghost use Rattle.pp_declared_catalog.specs.Results.{is_real_plain};

use catalog_semantics::{Resource, Sort};
use pp_declaration_state::State;
use pp_eval::refusal;
use rh_base::Fault;
use std::alloc::Global;

fn is_real_plain(r: &Resource) -> bool
    ensures { result ≡ is_real_plain r.now }
{
    let plain = r.sort == Sort::Plain;
    plain && !r.is_virtual
}

fn one_if(b: bool) -> u32
    ensures one { result ≡ (if b then 1 else 0) }
    ensures few { result ≤ 1 }
{
    if b { 1 } else { 0 }
}

/// How many real resources of built-in types there are.
#[tactic(auto, using(crate::proofs::ResultLaws::next_count))]
fn count_real(state: &State) -> u32
    ensures { result ≡ length (real_plain state.now.resources) }
{
    let mut count = 0u32;
    for i in 0..state.count() {
        let more = one_if(is_real_plain(state.get(i)));
        count += more;
    }
    count
}

/// Refuses a state with more real resources of built-in types than its limits let.
pub fn few_enough(alloc: Global, state: &State) -> Result<(), Fault>
    ensures { AnswersBy (λ done. state.now) (few_enough state.now) result }
{
    if count_real(state) > state.limits().resources() {
        return Err(refusal(alloc, 32, 0, "resources"));
    }
    Ok(())
}
