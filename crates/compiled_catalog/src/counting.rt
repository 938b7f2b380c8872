//! How many resources there are.

ghost use Rattle.std.specs.Prelude.{◌≡◌, ◌≤◌, length, filter, not, OnOk};
ghost use Rattle.pp_eval.specs.Evaluating.{AnswersBy};
ghost use Rattle.host_limits.specs.Limits.{declared_limit};
ghost use Rattle.compiled_catalog.specs.Catalogs.{few_declared, few_native};

use compiled_text::{CompiledCatalog, CompiledResource};
use host_limits::Limits;
use pp_eval::refusal;
use rh_base::Fault;
use std::alloc::Global;

/// No more resources and containers than may be declared.
pub fn few_declared(alloc: Global, catalog: &CompiledCatalog, limits: Limits) -> Result<(), Fault>
    ensures answers { AnswersBy (λ done. done) (few_declared limits catalog.now) result }
    ensures few { OnOk result (length catalog.now.resources ≤ declared_limit limits) }
{
    if catalog.resources().len() > limits.declared() as usize {
        return Err(refusal(alloc, 32, 0, "declared"));
    }
    Ok(())
}

/// How many of these are no containers.
fn native_count(resources: &[CompiledResource]) -> usize
    ensures { result ≡ length (filter (λ r. not r.is_container) resources.now) }
{
    let mut count = 0;
    for r in resources {
        if !r.is_container {
            count += 1;
        }
    }
    count
}

/// No more native resources than may be real and plain.
pub fn few_native(alloc: Global, catalog: &CompiledCatalog, limits: Limits) -> Result<(), Fault>
    ensures { AnswersBy (λ done. done) (few_native limits catalog.now) result }
{
    if native_count(catalog.resources()) > limits.resources() as usize {
        return Err(refusal(alloc, 32, 0, "resources"));
    }
    Ok(())
}
