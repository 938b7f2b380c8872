//! What is told of two manifests or two compiled catalogs that are compared.

ghost use Rattle.std.specs.Prelude.{◌≡◌, ◌<◌, ◌^◌, length, map, IfOk, IfErr};
ghost use Rattle.rh_base.specs.Refused.{IfRefused};
ghost use Rattle.fs_lang.specs.Meaning.{program_of};
ghost use Rattle.command_line.specs.declared.table.Role.TheVariants as role;
ghost use Rattle.known_inputs.specs.Inputs.{bytes_of, bytes_or_none, input_of, IsCompiledOf, HasNoCompiled, IsKnown};
ghost use Rattle.given_equal.specs.Sizes.{IsTooLargeJoined};
ghost use Rattle.equal_report.specs.Told.{IsComparedTold};
ghost use Rattle.reports.specs.Stages.{IsModelled, IsInOrder, ProgramsRefusal};
ghost use Rattle.reports.specs.Questions.{names_in};
ghost use Rattle.reports.specs.Sides.{IfUntold};
ghost use Rattle.reports.specs.Comparisons.{other_inputs, IsComparison, ComparisonRefusal};

use crate::compiling::node_name;
use crate::modelling::{Modelled, model_source};
use crate::sides::{Side, Untold, refused_in};
use crate::terms::{Asked, asked_on};
use crate::verdicts::names_of;
use command_line::Role;
use compiled_text::CompiledCatalog;
use equal_report::told;
use known_inputs::{Inputs, Known, compiled_of, known_inputs};
use plans::Plan;
use rh_base::Fault;
use std::alloc::Global;
use verdict_report::{NamedPlan, Report};

/// What is told of both.
fn told_of_both(
    alloc: Global,
    asked: &Asked,
    other_asked: &Asked,
    left: &Modelled,
    right: &Modelled,
) -> Result<Report, Fault>
    requires left { IsInOrder left.now.catalog left.now.graph (map program_of left.now.programs) }
    requires right { IsInOrder right.now.catalog right.now.graph (map program_of right.now.programs) }
    ensures told { IfOk result
        (IsComparedTold asked.now.terms asked.now.notes other_asked.now.notes
        (names_in left.now.catalog left.now.graph.plain) (map program_of left.now.programs) left.now.graph.order
        (names_in right.now.catalog right.now.graph.plain) (map program_of right.now.programs) right.now.graph.order) }
    ensures refused { IfErr result
        (λ e. IfRefused e (IsTooLargeJoined asked.now.terms.limits asked.now.terms.given
        (map program_of left.now.programs) (map program_of right.now.programs))) }
{
    let names = names_of(alloc, left)?;
    let others = names_of(alloc, right)?;
    let first = Plan {
        programs: left.programs.as_slice(),
        order: &left.graph.order,
    };
    let other = Plan {
        programs: right.programs.as_slice(),
        order: &right.graph.order,
    };
    let one = NamedPlan {
        plan: &first,
        names: names.as_slice(),
        notes: asked.notes.as_str().as_bytes(),
    };
    let second = NamedPlan {
        plan: &other,
        names: others.as_slice(),
        notes: other_asked.notes.as_str().as_bytes(),
    };
    told(alloc, &asked.terms, &one, &second)
}

/// The bytes of the file with which the input or the compiled catalog is compared; none where it isn't named.
fn other_bytes(inputs: &Inputs) -> &[u8]
    ensures { result.now ≡ bytes_or_none (bytes_of role.Other inputs.now) }
{
    match inputs.bytes(Role::Other) {
        Some(bytes) => bytes,
        None => &[],
    }
}

/// The bytes of the manifest with which the input is compared; those of the input, where compiled catalogs are compared.
fn other_text(inputs: &Inputs) -> &[u8]
    ensures { result.now ≡ input_of (other_inputs inputs.now) }
{
    match inputs.bytes(Role::Compiled) {
        Some(_) => inputs.input(),
        None => other_bytes(inputs),
    }
}

/// The compiled catalog with which a compiled catalog is compared.
fn other_source(alloc: Global, inputs: &Inputs) -> Result<Option<CompiledCatalog>, Fault>
    ensures compiled { IfOk result (IsCompiledOf (bytes_of role.Compiled (other_inputs inputs.now))) }
    ensures refused { IfErr result (λ e. IfRefused e (HasNoCompiled (bytes_of role.Compiled (other_inputs inputs.now)))) }
{
    match inputs.bytes(Role::Compiled) {
        Some(_) => compiled_of(alloc, Some(other_bytes(inputs))),
        None => Ok(None),
    }
}

/// What is told of both, once both have programs.
fn told_of(
    alloc: Global,
    conflicts: Option<u64>,
    inputs: &Inputs,
    known: &Known,
    left: &Modelled,
    right: &Modelled,
) -> Result<Report, Untold>
    requires left { IsModelled inputs.now known.now left.now.source left.now.catalog left.now.graph (map program_of left.now.programs) }
    requires right { IsModelled (other_inputs inputs.now) known.now right.now.source right.now.catalog right.now.graph
        (map program_of right.now.programs) }
    ensures report { IfOk result (IsComparison conflicts inputs.now) }
    ensures refused { IfErr result (λ e. IfUntold e (ComparisonRefusal inputs.now)) }
{
    let asked = asked_on(alloc, inputs, known, conflicts, left)?;
    let other_asked = asked_on(alloc, inputs, known, conflicts, right)?;
    let report = told_of_both(alloc, &asked, &other_asked, left, right)?;
    Ok(report)
}

/// The other compiled catalog or the other manifest, with its programs.
fn model_other(alloc: Global, inputs: &Inputs, known: &Known) -> Result<Modelled, Fault>
    requires small { length (input_of (other_inputs inputs.now)) < 2 ^ 32 }
    requires known { IsKnown inputs.now known.now }
    ensures modelled { IfOk result
        (λ m. IsModelled (other_inputs inputs.now) known.now m.source m.catalog m.graph (map program_of m.programs)) }
    ensures refused { IfErr result (λ e. IfRefused e (ProgramsRefusal (other_inputs inputs.now))) }
{
    let source = other_source(alloc, inputs)?;
    let text = other_text(inputs);
    model_source(
        alloc,
        source,
        text,
        node_name(&inputs.node),
        inputs.limits,
        known,
    )
}

/// What is told of both, once the input has programs.
fn compare_with(
    alloc: Global,
    conflicts: Option<u64>,
    inputs: &Inputs,
    known: &Known,
    left: &Modelled,
) -> Result<Report, Untold>
    requires small { length (input_of (other_inputs inputs.now)) < 2 ^ 32 }
    requires known { IsKnown inputs.now known.now }
    requires left { IsModelled inputs.now known.now left.now.source left.now.catalog left.now.graph (map program_of left.now.programs) }
    ensures report { IfOk result (IsComparison conflicts inputs.now) }
    ensures refused { IfErr result (λ e. IfUntold e (ComparisonRefusal inputs.now)) }
{
    match model_other(alloc, inputs, known) {
        Ok(right) => told_of(alloc, conflicts, inputs, known, left, &right),
        Err(fault) => Err(refused_in(Side::Other, fault)),
    }
}

/// What is told of both, under what the files beside them say.
fn compare_known(
    alloc: Global,
    conflicts: Option<u64>,
    inputs: &Inputs,
    known: &Known,
    source: Option<CompiledCatalog>,
) -> Result<Report, Untold>
    requires small { length (input_of inputs.now) < 2 ^ 32 }
    requires other_small { length (input_of (other_inputs inputs.now)) < 2 ^ 32 }
    requires known { IsKnown inputs.now known.now }
    requires source { IsCompiledOf (bytes_of role.Compiled inputs.now) source }
    ensures report { IfOk result (IsComparison conflicts inputs.now) }
    ensures refused { IfErr result (λ e. IfUntold e (ComparisonRefusal inputs.now)) }
{
    let text = inputs.input();
    let name = node_name(&inputs.node);
    let left = model_source(alloc, source, text, name, inputs.limits, known)?;
    compare_with(alloc, conflicts, inputs, known, &left)
}

/// Whether the input or the compiled catalog does the same as the one with which it is compared; or the first refusal. Each question has
/// so many conflicts, if a number is given.
pub fn comparison_on(
    alloc: Global,
    conflicts: Option<u64>,
    inputs: &Inputs,
) -> Result<Report, Untold>
    requires small { length (input_of inputs.now) < 2 ^ 32 }
    requires other_small { length (input_of (other_inputs inputs.now)) < 2 ^ 32 }
    ensures report { IfOk result (IsComparison conflicts inputs.now) }
    ensures refused { IfErr result (λ e. IfUntold e (ComparisonRefusal inputs.now)) }
{
    let (known, source) = known_inputs(alloc, inputs)?;
    compare_known(alloc, conflicts, inputs, &known, source)
}
