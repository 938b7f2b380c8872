//! One run of the program: from the words to the status.

ghost use Rattle.std.specs.Prelude.{◌≡◌, ◌≢◌, ◌↔◌, ◌<◌, ◌^◌, length, IsTrue, IfOk, IfErr};
ghost use Rattle.rh_base.specs.Refused.{IfRefused};
ghost use Rattle.rehearsal_core.specs.Verified.{AreVerified, BreaksProofRule};
ghost use Rattle.rehearsal_core.specs.Migrated.{IsMigrated, BreaksListingRule};
ghost use Rattle.rehearsal_core.specs.Inputs.{IsPrinted, IsAnswer, IsAnswerTo, Breaks, BreaksFor, workload_inputs};
ghost use Rattle.known_inputs.specs.Inputs.{input_of};
ghost use Rattle.request_files.specs.Files.{AreShort};
ghost use Rattle.command_line.specs.declared.table.Ask.TheVariants.{Equal};
ghost use Rattle.command_line.specs.Table.{input_kind};
ghost use Rattle.reports.specs.declared.sides.Side.TheVariants.{Input};
ghost use Rattle.reports.specs.Sides.{IfUntold};
ghost use Rattle.reports.specs.Comparisons.{other_inputs};
ghost use Rattle.rehearsal_core.specs.Runs.{put_of, run_of};
ghost use Rattle.rehearsal_core.specs.Headline.{Headline};
ghost use Rattle.rehearsal_core.specs.Answers.{Tells, Owes};
ghost use Rattle.rehearsal_core.specs.Steps.{request_about, concluded, Says, SaysOf, Ended};

use crate::checking::verified;
use crate::inputs::{Loaded, Names};
use crate::migrating::migrated;
use crate::tell::{out_of_memory, tell_read_fault, tell_refusal, tell_usage, write_report};
use crate::workloads::workload_inputs;
use command_line::{
    Ask, ByRole, InputKind, Request, Size, Source, WordsFault, input_kind, one_request,
    read_request,
};
use given_links::program_readings;
use known_inputs::Inputs;
use proof_check::{accepted_logs_have_no_fault, one_list_of_proofs};
use reports::{
    Question, Side, Untold, catalog_report, comparison_on, graph_report, report_on,
    reports_exclude_refusals,
};
use request_files::{FilesFault, read_files};
use rh_base::{Fault, Refusal, Shelf, Sink, Text};
use std::alloc::Global;
use verdict_report::{Form, Report, printed};

/// What the program has to say.
#[derive(Drop)]
pub enum Ending {
    Report(Report),
    Refused(Side, Refusal),
    BadWords,
    ReadFault(Text),
    Memory,
}

/// What is said of a text of proofs.
fn checked(alloc: Global, inputs: &Inputs) -> Result<Report, Fault>
    ensures report { IfOk result (IsPrinted (AreVerified (input_of inputs.now))) }
    ensures refused { IfErr result (λ e. IfRefused e (BreaksProofRule (input_of inputs.now))) }
{
    let text = inputs.input();
    let told = verified(alloc, text)?;
    Ok(printed(told))
}

/// A listing in its newest form.
fn listed(alloc: Global, inputs: &Inputs) -> Result<Report, Fault>
    ensures report { IfOk result (IsPrinted (IsMigrated (input_of inputs.now))) }
    ensures refused { IfErr result (λ e. IfRefused e (BreaksListingRule (input_of inputs.now))) }
{
    let text = inputs.input();
    let told = migrated(alloc, text)?;
    Ok(printed(told))
}

/// What is said of one manifest, of one compiled catalog, or of a text that is neither, or the first rule that it breaks.
fn answer_one(
    alloc: Global,
    ask: Ask,
    conflicts: Option<u64>,
    inputs: &Inputs,
) -> Result<Report, Fault>
    requires one { ask ≢ Equal }
    requires small { length (input_of inputs.now) < 2 ^ 32 }
    ensures report { IfOk result (IsAnswerTo ask conflicts inputs.now) }
    ensures refused { IfErr result (λ e. IfRefused e (BreaksFor ask conflicts inputs.now Input)) }
{
    match ask {
        Ask::Verify => report_on(alloc, Question::Verdict(Form::Lines, conflicts), inputs),
        Ask::Proof => report_on(alloc, Question::Verdict(Form::Proofs, conflicts), inputs),
        Ask::Catalog => Ok(printed(catalog_report(alloc, inputs)?)),
        Ask::Graph => Ok(printed(graph_report(alloc, inputs)?)),
        Ask::Programs => report_on(alloc, Question::Programs, inputs),
        Ask::Replay => report_on(alloc, Question::Replay, inputs),
        Ask::Check => checked(alloc, inputs),
        Ask::Migrate => listed(alloc, inputs),
        Ask::Repair => report_on(alloc, Question::Repair(conflicts), inputs),
        Ask::Ensures => report_on(alloc, Question::Ensures(conflicts), inputs),
        Ask::Explain => report_on(alloc, Question::Explain(conflicts), inputs),
        Ask::Equal => unreachable!(),
    }
}

/// Whether two manifests or two compiled catalogs are to be compared.
fn is_equal(ask: Ask) -> bool
    ensures { IsTrue result ↔ (ask ≡ Equal) }
{
    match ask {
        Ask::Equal => true,
        Ask::Verify | Ask::Proof | Ask::Explain | Ask::Repair | Ask::Ensures => false,
        Ask::Catalog | Ask::Graph | Ask::Programs | Ask::Replay => false,
        Ask::Check | Ask::Migrate => false,
    }
}

/// What is said of the files of a request, or the first rule that they break.
fn answer(
    alloc: Global,
    ask: Ask,
    conflicts: Option<u64>,
    inputs: &Inputs,
) -> Result<Report, Untold>
    requires small { length (input_of inputs.now) < 2 ^ 32 }
    requires other_small { length (input_of (other_inputs inputs.now)) < 2 ^ 32 }
    ensures report { IfOk result (IsAnswerTo ask conflicts inputs.now) }
    ensures refused { IfErr result (λ e. IfUntold e (BreaksFor ask conflicts inputs.now)) }
{
    let compares = is_equal(ask);
    if compares {
        return comparison_on(alloc, conflicts, inputs);
    }
    let report = answer_one(alloc, ask, conflicts, inputs)?;
    Ok(report)
}

/// What is said of a request with the bytes of its files.
#[tactic(auto, using(crate::proofs::LoadLaws::input_is_short, crate::proofs::LoadLaws::other_is_short))]
fn answer_read(alloc: Global, loaded: Loaded) -> Result<Report, Untold>
    requires { AreShort loaded.inputs.files }
    ensures report { IfOk result (IsAnswer loaded) }
    ensures refused { IfErr result (λ e. IfUntold e (Breaks loaded)) }
{
    answer(alloc, loaded.ask, loaded.conflicts, &loaded.inputs)
}

/// What is said of a workload.
fn answer_workload(
    alloc: Global,
    ask: Ask,
    conflicts: Option<u64>,
    size: &Size,
) -> Result<Report, Untold>
    ensures report { IfOk result (IsAnswerTo ask conflicts (workload_inputs size.now)) }
    ensures refused { IfErr result (λ e. IfUntold e (BreaksFor ask conflicts (workload_inputs size.now))) }
{
    let inputs = workload_inputs(alloc, size)?;
    answer(alloc, ask, conflicts, &inputs)
}

/// What there is to say of an answer.
fn concluded(said: Result<Report, Untold>) -> Ending
    ensures { result ≡ concluded said }
{
    match said {
        Ok(report) => Ending::Report(report),
        Err(Untold::Refused(side, refusal)) => Ending::Refused(side, refusal),
        Err(Untold::Memory(_)) => Ending::Memory,
    }
}

/// What the input is, of a question about files of these names.
fn kind_of(ask: Ask, files: &ByRole<Text>) -> InputKind
    ensures { result ≡ input_kind ask files.now }
{
    let names = files.as_slice();
    input_kind(ask, names)
}

/// Reads the files of these names and answers what is asked.
#[tactic(auto, using(crate::proofs::LoadLaws::says, crate::proofs::LoadLaws::says_long))]
fn read<S: Shelf>(alloc: Global, names: Names, shelf: &mut S) -> Ending
    ensures held { S.holds shelf.new ≡ S.holds shelf.old }
    ensures says { SaysOf (request_about names) (S.holds shelf.old) (S.faults shelf.old) (S.faults shelf.new) result }
{
    let Names {
        ask,
        conflicts,
        node,
        limits,
        wanted,
        files,
    } = names;
    let kind = kind_of(ask, &files);
    match read_files(alloc, kind, files, shelf) {
        Ok(files) => {
            let loaded = Loaded {
                ask,
                conflicts,
                inputs: Inputs {
                    node,
                    limits,
                    wanted,
                    files,
                },
            };
            concluded(answer_read(alloc, loaded))
        },
        Err(FilesFault::Long(refusal)) => Ending::Refused(Side::Input, refusal),
        Err(FilesFault::Failed(name)) => Ending::ReadFault(name),
        Err(FilesFault::Memory(_)) => Ending::Memory,
    }
}

/// Answers what is asked of the files that a request names, or of its workload.
fn respond<S: Shelf>(alloc: Global, request: Request, shelf: &mut S) -> Ending
    ensures held { S.holds shelf.new ≡ S.holds shelf.old }
    ensures says { SaysOf request (S.holds shelf.old) (S.faults shelf.old) (S.faults shelf.new) result }
{
    let Request {
        ask,
        node,
        conflicts,
        limits,
        wanted,
        source,
    } = request;
    match source {
        Source::Files(files) => read(
            alloc,
            Names {
                ask,
                conflicts,
                node,
                limits,
                wanted,
                files,
            },
            shelf,
        ),
        Source::Workload(size) => concluded(answer_workload(alloc, ask, conflicts, &size)),
    }
}

/// What the words ask for.
#[tactic(auto, using(crate::proofs::Endings::says_of_words))]
fn decide<S: Shelf>(alloc: Global, words: &[String], shelf: &mut S) -> Ending
    ensures held { S.holds shelf.new ≡ S.holds shelf.old }
    ensures says { Says words.now (S.holds shelf.old) (S.faults shelf.old) (S.faults shelf.new) result }
{
    match read_request(alloc, words) {
        Ok(request) => respond(alloc, request, shelf),
        Err(WordsFault::Refused) => Ending::BadWords,
        Err(WordsFault::Memory(_)) => Ending::Memory,
    }
}

/// Answers what the words ask for, and tells it.
fn answered<S: Shelf, O: Sink, E: Sink>(
    alloc: Global,
    words: &[String],
    shelf: &mut S,
    out: &mut O,
    err: &mut E,
) -> u8
    ensures { Ended (run_of words.now S.holds S.faults shelf.old shelf.new (put_of O.written O.faults out.old out.new)
        (put_of E.written E.faults err.old err.new)) result }
{
    one_request();
    match decide(alloc, words, shelf) {
        Ending::Report(report) => write_report(&report, out, err),
        Ending::Refused(side, refusal) => tell_refusal(alloc, side, &refusal, err),
        Ending::BadWords => tell_usage(err),
        Ending::ReadFault(name) => tell_read_fault(alloc, &name, err),
        Ending::Memory => out_of_memory(err),
    }
}

/// Answers what the words ask for, and tells it. Gives the status.
pub fn rehearse<S: Shelf, O: Sink, E: Sink>(
    alloc: Global,
    words: &[String],
    shelf: &mut S,
    out: &mut O,
    err: &mut E,
) -> u8
    // what each status promises of a manifest or a compiled catalog
    ensures headline { Headline
        (run_of words.now S.holds S.faults shelf.old shelf.new (put_of O.written O.faults out.old out.new)
        (put_of E.written E.faults err.old err.new)) result }
    // what each status tells, and where
    ensures tells { Tells (run_of words.now S.holds S.faults shelf.old shelf.new
        (put_of O.written O.faults out.old out.new) (put_of E.written E.faults err.old err.new)) result }
    // which statuses there are
    ensures owes { Owes (run_of words.now S.holds S.faults shelf.old shelf.new
        (put_of O.written O.faults out.old out.new) (put_of E.written E.faults err.old err.new)) result }
{
    one_request();
    reports_exclude_refusals();
    program_readings();
    one_list_of_proofs();
    accepted_logs_have_no_fault();
    answered(alloc, words, shelf, out, err)
}
