//! What is told of a run over a file tree.

ghost use Rattle.std.specs.Prelude.{◌≡◌, ◌<◌, length, map, IfOk, IfErr};
ghost use Rattle.std.specs.List.{AllByRecursion};
ghost use Rattle.std.specs.Option.{option_map};
ghost use Rattle.rh_base.specs.Refused.{IfRefused};
ghost use Rattle.allowed_order.specs.AllowedOrder.{AreToldApart};
ghost use Rattle.fs_lang.specs.Meaning.{program_of};
ghost use Rattle.fs_semantics.specs.Orders.{outcome};
ghost use Rattle.verdict_text.specs.Lines.{outcome_line};
ghost use Rattle.reports.specs.Stages.{IsInOrder};
ghost use Rattle.reports.specs.Replays.{IsOrderFor, HasNoOrder, IsReplayed};

use crate::modelling::Modelled;
use allowed_order::order_of;
use catalog::Catalog;
use dep_graph::Graph;
use fs_lang::{Program, Tree};
use fs_replay::replay;
use rh_base::{Fault, NoMemory, Seq};
use std::alloc::Global;
use verdict_text::push_outcome;

/// The order that a text names, and without one that which takes at each step the first resource that may come next.
fn order_for(
    alloc: Global,
    text: Option<&[u8]>,
    catalog: &Catalog,
    plan: &Graph,
) -> Result<Seq<u32>, Fault>
    requires count { plan.now.order.count ≡ length plan.now.plain }
    requires apart { AreToldApart catalog.now plan.now.plain }
    ensures order { IfOk result (IsOrderFor (option_map (λ b. b.now) text.entry) catalog.now plan.now) }
    ensures refused { IfErr result (λ e. IfRefused e (HasNoOrder (option_map (λ b. b.now) text.entry) catalog.now plan.now)) }
{
    match text {
        Some(bytes) => order_of(alloc, bytes, catalog, plan.plain.as_slice(), &plan.order),
        None => Ok(plan.order.first_extension()?),
    }
}

/// The outcome of programs on a tree, in this order.
fn replayed_in(
    alloc: Global,
    programs: &[Program],
    order: &[u32],
    tree: &Tree,
) -> Result<Seq<u8>, NoMemory>
    requires { AllByRecursion (λ i. i < length programs.now) order.now }
    ensures { IfOk result (λ bytes. bytes ≡ outcome_line (outcome (map program_of programs.now) order.now tree.now)) }
{
    let ended = replay(alloc, programs, order, tree)?;
    let mut bytes = Vec::new(alloc);
    push_outcome(alloc, &ended, &mut bytes)?;
    Ok(Seq::from_vec(bytes))
}

/// The outcome of programs on a tree, in the order that a text names.
pub fn replayed(
    alloc: Global,
    text: Option<&[u8]>,
    tree: &Tree,
    made: &Modelled,
) -> Result<Seq<u8>, Fault>
    requires order { IsInOrder made.now.catalog made.now.graph (map program_of made.now.programs) }
    requires apart { AreToldApart made.now.catalog made.now.graph.plain }
    ensures told { IfOk result
        (IsReplayed (option_map (λ b. b.now) text.entry) tree.now made.now.catalog made.now.graph
        (map program_of made.now.programs)) }
    ensures refused { IfErr result
        (λ e. IfRefused e (HasNoOrder (option_map (λ b. b.now) text.entry) made.now.catalog made.now.graph)) }
{
    let order = order_for(alloc, text, &made.catalog, &made.graph)?;
    let turns = order.as_slice();
    let programs = made.programs.as_slice();
    Ok(replayed_in(alloc, programs, turns, tree)?)
}
