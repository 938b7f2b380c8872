//! Telling the outcome on the sinks.

ghost use Rattle.std.specs.Prelude.{◌≡◌, IfOk};
ghost use Rattle.command_line.specs.Table.{usage_line};
ghost use Rattle.rehearsal_core.specs.Runs.{put_of, AppendsFront};
ghost use Rattle.rehearsal_core.specs.Answers.{in_other, refusal_line, read_fault_line, write_fault_line, memory_line};
ghost use Rattle.rehearsal_core.specs.Steps.{TellsLine, TellsReport};

use command_line::usage_line;
use printed_names::printed;
use reports::Side;
use rh_base::{NoMemory, Refusal, Sink, SinkFault, Text};
use std::alloc::Global;
use verdict_report::Report;

/// Tells that memory was refused; a failure of that is ignored.
#[tactic(auto, using(crate::proofs::Telling::put_front))]
pub fn out_of_memory<E: Sink>(err: &mut E) -> u8
    ensures status { result ≡ 8 }
    ensures front { AppendsFront memory_line (put_of E.written E.faults err.old err.new) }
{
    let _ = err.put(b"out of memory\n");
    8
}

/// Tells that a write failed; a failure of that is ignored.
#[tactic(auto, using(crate::proofs::Telling::put_front))]
fn write_fault<E: Sink>(err: &mut E) -> u8
    ensures status { result ≡ 7 }
    ensures front { AppendsFront write_fault_line (put_of E.written E.faults err.old err.new) }
{
    let _ = err.put(b"write fault\n");
    7
}

/// Tells a line, and answers the status that goes with it, or that of a fault.
fn tell<E: Sink>(err: &mut E, status: u8, line: &[u8]) -> u8
    ensures { TellsLine status line.now (put_of E.written E.faults err.old err.new) result }
{
    match err.put(line) {
        Ok(()) => status,
        Err(SinkFault::Failed) => 7,
        Err(SinkFault::Memory(_)) => out_of_memory(err),
    }
}

/// Tells how the program is called, where the words are refused.
pub fn tell_usage<E: Sink>(err: &mut E) -> u8
    ensures { TellsLine 5 usage_line (put_of E.written E.faults err.old err.new) result }
{
    tell(err, 5, usage_line())
}

/// Writes a report, and answers the status that goes with it, or that of a fault.
pub fn write_report<O: Sink, E: Sink>(report: &Report, out: &mut O, err: &mut E) -> u8
    ensures { TellsReport report.now (put_of O.written O.faults out.old out.new) (put_of E.written E.faults err.old err.new) result }
{
    match out.put(report.text.as_slice()) {
        Ok(()) => report.status,
        Err(SinkFault::Failed) => write_fault(err),
        Err(SinkFault::Memory(_)) => out_of_memory(err),
    }
}

/// How a refusal of the other manifest, or the other compiled catalog, is told apart.
fn in_other(side: Side) -> &'static str
    ensures { result.now ≡ in_other side }
{
    match side {
        Side::Input => "",
        Side::Other => " in other",
    }
}

fn refusal_line(alloc: Global, side: Side, r: &Refusal) -> Result<Text, NoMemory>
    ensures { IfOk result (λ line. line ≡ refusal_line side r.now) }
{
    let which = in_other(side);
    let shown = printed(alloc, r.name.as_str())?;
    let name = shown.as_str();
    let number = r.number;
    let at = r.at;
    Ok(Text::from_string(format!(in alloc; "refused {number} at {at}{which}: {name}\n")?))
}

fn read_fault_line(alloc: Global, name: &Text) -> Result<Text, NoMemory>
    ensures { IfOk result (λ line. line ≡ read_fault_line name.now) }
{
    let shown = printed(alloc, name.as_str())?;
    let name = shown.as_str();
    Ok(Text::from_string(format!(in alloc; "read fault: {name}\n")?))
}

/// Tells a refusal.
pub fn tell_refusal<E: Sink>(alloc: Global, side: Side, refusal: &Refusal, err: &mut E) -> u8
    ensures { TellsLine 4 (refusal_line side refusal.now) (put_of E.written E.faults err.old err.new) result }
{
    match refusal_line(alloc, side, refusal) {
        Ok(line) => tell(err, 4, line.as_str().as_bytes()),
        Err(_) => out_of_memory(err),
    }
}

/// Tells that a file couldn't be read.
pub fn tell_read_fault<E: Sink>(alloc: Global, name: &Text, err: &mut E) -> u8
    ensures { TellsLine 6 (read_fault_line name.now) (put_of E.written E.faults err.old err.new) result }
{
    match read_fault_line(alloc, name) {
        Ok(line) => tell(err, 6, line.as_str().as_bytes()),
        Err(_) => out_of_memory(err),
    }
}
