//! Services.

ghost use Rattle.std.specs.Prelude.{◌≡◌, ◌++◌, ◌∷◌, [], true, codes, map, IfOk, OnOk};
ghost use Rattle.fs_lang.specs.Meaning.{test_of, program_of};
ghost use Rattle.fs_semantics.specs.Programs.{Err, If, Or, IsFile};
ghost use Rattle.model_semantics.specs.Words.{sequence, drop_file, mark};
ghost use Rattle.model_semantics.specs.Rows.{is_installed, switched, run_part, enable_part, service_row};
ghost use Rattle.model_semantics.specs.Names.{Meets, unit_name, unit_file, units_at, units_of};
ghost use Rattle.model_semantics.specs.Models.{service_model};
ghost use Rattle.model_names.specs.Seen.{seen};

use catalog_semantics::Resource;
use fs_lang::{Path, Program, Test};
use model_names::{Model, below, mark_named, name_of, named, top};
use model_semantics::{Ensure, ModelFault, States, Units};
use model_words::{branching, drop_file, either, is_file, push, push_mark, sequence};
use rh_base::{Boxed, NoMemory, Seq, Text};
use std::alloc::Global;

/// The name without a trailing `.service`.
fn unit_name(name: &str) -> &str
    ensures { result.now ≡ unit_name name.now }
{
    match name.strip_suffix(".service") {
        Some(front) => front,
        None => name,
    }
}

/// A path of three segments.
fn three(alloc: Global, a: &str, b: &str, c: &str) -> Result<Path, NoMemory>
    ensures { IfOk result (λ p. p ≡ a.now ∷ b.now ∷ c.now ∷ []) }
{
    let first = top(alloc, a)?;
    let second = below(alloc, &first, b)?;
    below(alloc, &second, c)
}

/// A path of four segments.
fn four(alloc: Global, a: &str, b: &str, c: &str, d: &str) -> Result<Path, NoMemory>
    ensures { IfOk result (λ p. p ≡ a.now ∷ b.now ∷ c.now ∷ d.now ∷ []) }
{
    let above = three(alloc, a, b, c)?;
    below(alloc, &above, d)
}

/// The name of the file of a service.
fn unit_file(alloc: Global, s: &str) -> Result<Text, NoMemory>
    ensures { IfOk result (λ t. t ≡ unit_file s.now) }
{
    let mut file = Text::new(alloc);
    file.push(s)?;
    file.push(".service")?;
    Ok(file)
}

/// The file of this name among those of the system under `/usr`.
fn usr_unit(alloc: Global, file: &str) -> Result<Path, NoMemory>
    ensures { IfOk result (λ p. p ≡ codes "usr" ∷ codes "lib" ∷ codes "systemd" ∷ codes "system" ∷ file.now ∷ []) }
{
    let above = four(alloc, "usr", "lib", "systemd", "system")?;
    below(alloc, &above, file)
}

fn units_at(alloc: Global, s: &str) -> Result<Units, NoMemory>
    ensures { IfOk result (λ u. u ≡ units_at s.now) }
{
    let file = unit_file(alloc, s)?;
    let own = four(alloc, "etc", "systemd", "system", file.as_str())?;
    let lib = four(alloc, "lib", "systemd", "system", file.as_str())?;
    let usr = usr_unit(alloc, file.as_str())?;
    let init = three(alloc, "etc", "init.d", s)?;
    Ok(Units {
        own,
        lib,
        usr,
        init,
    })
}

fn units_of(alloc: Global, name: &str) -> Result<Units, ModelFault>
    ensures { Meets (λ u. u) (units_of name.now) result }
{
    let s = named(alloc, unit_name(name))?;
    Ok(units_at(alloc, s.as_str())?)
}

/// Whether a test holds or a file stands at a path.
fn or_file(alloc: Global, a: Test, p: &Path) -> Result<Test, NoMemory>
    ensures { IfOk result (λ t. test_of t ≡ Or (test_of a) (IsFile p.now)) }
{
    let file = is_file(alloc, p)?;
    either(alloc, a, file)
}

fn is_installed(alloc: Global, u: &Units) -> Result<Test, NoMemory>
    ensures { IfOk result (λ t. test_of t ≡ is_installed u.now) }
{
    let own = is_file(alloc, &u.own)?;
    let two = or_file(alloc, own, &u.lib)?;
    let three = or_file(alloc, two, &u.usr)?;
    or_file(alloc, three, &u.init)
}

fn marking(alloc: Global, m: &Path) -> Result<Program, NoMemory>
    ensures { IfOk result (λ e. program_of e ≡ sequence (mark m.now)) }
{
    let mut steps = Seq::new(alloc);
    push_mark(alloc, m, &mut steps)?;
    Ok(sequence(steps))
}

/// Marks a service as on, and fails where it isn't installed.
fn turned_on(alloc: Global, u: &Units, m: &Path) -> Result<Program, NoMemory>
    ensures { IfOk result (λ e. program_of e ≡ If (is_installed u.now) (sequence (mark m.now)) Err) }
{
    let marked = Boxed::new(alloc, marking(alloc, m)?)?;
    let missing = Boxed::new(alloc, Program::Err)?;
    let test = is_installed(alloc, u)?;
    Ok(branching(test, marked, missing))
}

/// Adds the step that marks a service as on.
fn push_on(alloc: Global, u: &Units, m: &Path, steps: &mut Seq<Program>) -> Result<(), NoMemory>
    ensures { OnOk result (map program_of steps.new ≡ map program_of steps.old ++ switched u.now m.now true) }
{
    let step = turned_on(alloc, u, m)?;
    push(steps, step)
}

fn push_off(alloc: Global, m: &Path, steps: &mut Seq<Program>) -> Result<(), NoMemory>
    ensures { OnOk result (map program_of steps.new ≡ map program_of steps.old ++ drop_file m.now ∷ []) }
{
    let step = drop_file(alloc, m)?;
    push(steps, step)
}

fn push_run_part(
    alloc: Global,
    u: &Units,
    m: &Path,
    e: Ensure,
    steps: &mut Seq<Program>,
) -> Result<(), NoMemory>
    ensures { OnOk result (map program_of steps.new ≡ map program_of steps.old ++ run_part u.now m.now e) }
{
    match e {
        Ensure::Running => push_on(alloc, u, m, steps),
        Ensure::Stopped => push_off(alloc, m, steps),
        Ensure::Unsaid
        | Ensure::Present
        | Ensure::File
        | Ensure::Directory
        | Ensure::Link
        | Ensure::Absent => Ok(()),
    }
}

fn push_enable_part(
    alloc: Global,
    u: &Units,
    m: &Path,
    enable: Option<bool>,
    steps: &mut Seq<Program>,
) -> Result<(), NoMemory>
    ensures { OnOk result (map program_of steps.new ≡ map program_of steps.old ++ enable_part u.now m.now enable) }
{
    match enable {
        Some(true) => push_on(alloc, u, m, steps),
        Some(false) => push_off(alloc, m, steps),
        None => Ok(()),
    }
}

fn service_row(
    alloc: Global,
    u: &Units,
    running: &Path,
    enabled: &Path,
    s: States,
) -> Result<Seq<Program>, NoMemory>
    ensures { IfOk result (λ es. map program_of es ≡ service_row u.now running.now enabled.now s) }
{
    let mut steps = Seq::new(alloc);
    push_run_part(alloc, u, running, s.ensure, &mut steps)?;
    push_enable_part(alloc, u, enabled, s.enable, &mut steps)?;
    Ok(steps)
}

/// The model of a service, whose place is the mark that it runs.
pub fn service_model(alloc: Global, s: States, r: &Resource) -> Result<Model, ModelFault>
    ensures { Meets seen (service_model s r.now) result }
{
    let name = name_of(r);
    let place = mark_named(alloc, "running", name)?;
    let enabled = mark_named(alloc, "enabled", name)?;
    let units = units_of(alloc, name)?;
    let steps = service_row(alloc, &units, &place, &enabled, s)?;
    Ok(Model { place, steps })
}
