//! The stages from the files of a request to what is told of its programs, each lent what those before it gave.

ghost use Rattle.std.specs.Prelude.{◌<◌, ◌^◌, length, map, IfOk, IfErr};
ghost use Rattle.rh_base.specs.Refused.{IfRefused};
ghost use Rattle.fs_lang.specs.Meaning.{program_of};
ghost use Rattle.command_line.specs.declared.table.Role.TheVariants as role;
ghost use Rattle.known_inputs.specs.Inputs.{bytes_of, input_of, IsCompiledOf, IsKnown};
ghost use Rattle.reports.specs.Stages.{IsModelled};
ghost use Rattle.reports.specs.Questions.{IsToldOf, HasNoAnswer, IsReport, ReportRefusal};

use crate::apart::resources_are_told_apart;
use crate::compiling::node_name;
use crate::entries::ensured;
use crate::explanations::explained;
use crate::modelling::{Modelled, model_source};
use crate::programs::program_lines;
use crate::question::Question;
use crate::repairs::repaired;
use crate::replays::replayed;
use crate::terms::{asked_on, wanted_in};
use crate::verdicts::judged;
use command_line::Role;
use compiled_text::CompiledCatalog;
use known_inputs::{Inputs, Known, known_inputs};
use rh_base::Fault;
use std::alloc::Global;
use verdict_report::{Report, printed};

/// What is told of the programs of resources.
fn told_of(
    alloc: Global,
    question: Question,
    inputs: &Inputs,
    known: &Known,
    made: &Modelled,
) -> Result<Report, Fault>
    requires small { length (input_of inputs.now) < 2 ^ 32 }
    requires modelled { IsModelled inputs.now known.now made.now.source made.now.catalog made.now.graph
        (map program_of made.now.programs) }
    ensures told { IfOk result
        (IsToldOf question inputs.now known.now made.now.source made.now.catalog made.now.graph
        (map program_of made.now.programs)) }
    ensures refused { IfErr result
        (λ e. IfRefused e (HasNoAnswer question inputs.now known.now made.now.source made.now.catalog made.now.graph
        (map program_of made.now.programs))) }
{
    resources_are_told_apart();
    match question {
        Question::Programs => Ok(printed(program_lines(alloc, known, made)?)),
        Question::Verdict(form, conflicts) => {
            let asked = asked_on(alloc, inputs, known, conflicts, made)?;
            judged(alloc, form, &asked, made)
        }
        Question::Replay => {
            let text = inputs.bytes(Role::Order);
            Ok(printed(replayed(alloc, text, &known.tree, made)?))
        }
        Question::Repair(conflicts) => {
            let asked = asked_on(alloc, inputs, known, conflicts, made)?;
            repaired(alloc, &asked, made)
        }
        Question::Explain(conflicts) => {
            let asked = asked_on(alloc, inputs, known, conflicts, made)?;
            explained(alloc, &asked, inputs, known, made)
        }
        Question::Ensures(conflicts) => {
            let asked = asked_on(alloc, inputs, known, conflicts, made)?;
            let wanted = wanted_in(alloc, inputs, known)?;
            ensured(alloc, &asked, &wanted, made)
        }
    }
}

/// The report on what the resources do.
fn report_on_programs(
    alloc: Global,
    question: Question,
    inputs: &Inputs,
    known: &Known,
    made: &Modelled,
) -> Result<Report, Fault>
    requires small { length (input_of inputs.now) < 2 ^ 32 }
    requires modelled { IsModelled inputs.now known.now made.now.source made.now.catalog made.now.graph
        (map program_of made.now.programs) }
    ensures report { IfOk result (IsReport question inputs.now) }
    ensures refused { IfErr result (λ e. IfRefused e (ReportRefusal question inputs.now)) }
{
    told_of(alloc, question, inputs, known, made)
}

/// The report on a compiled catalog or on a manifest, under what the files beside it say.
fn report_on_known(
    alloc: Global,
    question: Question,
    inputs: &Inputs,
    known: &Known,
    source: Option<CompiledCatalog>,
) -> Result<Report, Fault>
    requires small { length (input_of inputs.now) < 2 ^ 32 }
    requires known { IsKnown inputs.now known.now }
    requires source { IsCompiledOf (bytes_of role.Compiled inputs.now) source }
    ensures report { IfOk result (IsReport question inputs.now) }
    ensures refused { IfErr result (λ e. IfRefused e (ReportRefusal question inputs.now)) }
{
    let text = inputs.input();
    let name = node_name(&inputs.node);
    let made = model_source(alloc, source, text, name, inputs.limits, known)?;
    report_on_programs(alloc, question, inputs, known, &made)
}

/// What is asked about the programs of the resources of a manifest or a compiled catalog; or the first refusal.
pub fn report_on(alloc: Global, question: Question, inputs: &Inputs) -> Result<Report, Fault>
    requires { length (input_of inputs.now) < 2 ^ 32 }
    ensures report { IfOk result (IsReport question inputs.now) }
    ensures refused { IfErr result (λ e. IfRefused e (ReportRefusal question inputs.now)) }
{
    let (known, source) = known_inputs(alloc, inputs)?;
    report_on_known(alloc, question, inputs, &known, source)
}
