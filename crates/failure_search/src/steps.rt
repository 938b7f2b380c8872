//! The first of some steps that fails. Steps are taken in blocks, since the numbers of an order are of 32 bits.

ghost use Rattle.std.specs.Prelude.{◌≡◌, ◌<◌, ◌≤◌, None, IfOk};
ghost use Rattle.fs_semantics.specs.Programs.{run, run_all};
ghost use Rattle.fs_semantics.specs.Orders.{up_from};
ghost use Rattle.fs_lang.specs.Meaning.{program_of, programs_in};
ghost use Rattle.fs_lang.specs.Sizes.{program_size, programs_size};
ghost use Rattle.failure_search.specs.Found.{LeadsInto};

use crate::fronts::{Searched, search};
use fs_lang::{Program, Tree};
use rh_base::{NoMemory, Seq};
use std::alloc::Global;

/// So many steps are run at once.
const BLOCK: usize = 65_536;

#[tactic(auto, using(crate::proofs::StepLaws::one_more))]
fn numbers(alloc: Global, n: usize) -> Result<Seq<u32>, NoMemory>
    requires { n ≤ 65536 }
    ensures { IfOk result (λ order. order ≡ up_from 0 n) }
{
    let mut order = Seq::new(alloc);
    for i in 0..n {
        order.push(i as u32)?;
    }
    Ok(order)
}

/// The step at which some steps end in Error, and the tree that those ahead of it leave.
pub(crate) fn failing_step<'a>(
    alloc: Global,
    steps: &'a [Program],
    tree: &Tree,
) -> Result<(&'a Program, Tree), NoMemory>
    requires { run_all (programs_in steps.now) tree.now ≡ None }
    ensures fails { IfOk result (λ x. run (program_of x.0.now) x.1 ≡ None) }
    ensures leads { IfOk result (λ x. LeadsInto (program_of x.0.now) x.1 (programs_in steps.now) tree.now) }
    ensures smaller { IfOk result (λ x. program_size (program_of x.0.now) < programs_size (programs_in steps.now)) }
{
    let n = steps.len().min(BLOCK);
    let order = numbers(alloc, n)?;
    match search(alloc, steps, order.as_slice(), tree)? {
        Searched::Fails(i, reached) => Ok((&steps[i], reached)),
        Searched::Ends(ended) => failing_step(alloc, &steps[n..], &ended),
    }
}
