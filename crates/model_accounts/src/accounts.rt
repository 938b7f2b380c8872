//! Groups and users.

ghost use Rattle.std.specs.Prelude.{◌≡◌, ◌++◌, ◌∷◌, [], map, IfOk, OnOk, option_map};
ghost use Rattle.fs_semantics.specs.Programs.{If, IsFile, Id, Creat};
ghost use Rattle.model_semantics.specs.declared.states.Ensure.TheVariants as ensure;
ghost use Rattle.std.specs.List.{list_all, flat_map};
ghost use Rattle.fs_lang.specs.Meaning.{program_of};
ghost use Rattle.model_semantics.specs.Words.{sequence, dirs, dir, mark, need};
ghost use Rattle.model_semantics.specs.Attributes.{is_digit};
ghost use Rattle.model_semantics.specs.Rows.{group_row, user_row};
ghost use Rattle.model_semantics.specs.Names.{Meets, names_nobody, group_in, groups_in, groups_of_gid, groups_of_groups, group_names, group_marks, is_true, truth_in, manages_home, home_with, home_of, is_reserved_home};
ghost use Rattle.model_semantics.specs.Models.{group_model, user_present, user_at, user_model};
ghost use Rattle.model_names.specs.Seen.{seen};
ghost use Rattle.model_accounts.specs.Marks.{AddsMarks};

use catalog_semantics::Resource;
use fs_lang::{Path, Program};
use model_attributes::{is_digit, text_at, truth_of};
use model_names::{
    Model, below, is_reserved, mark_named, name_of, named, spelled, top, unless_reserved,
};
use model_semantics::{Ensure, ModelFault};
use model_words::{
    branching, creation, drop_file, is_file, need, push, push_dir, push_dirs, push_mark, sequence,
};
use pp_value::{Pairs, Value};
use rh_base::{Boxed, NoMemory, Seq, Text};
use std::alloc::Global;

fn are_digits(text: &[u8]) -> bool
    ensures { result ≡ list_all is_digit text.now }
{
    for b in text {
        if !is_digit(*b) {
            return false;
        }
    }
    true
}

/// Whether a text is of digits only, which names nobody.
fn names_nobody(text: &str) -> bool
    ensures { result ≡ names_nobody text.now }
{
    let is_there = !text.is_empty();
    let digits = are_digits(text.as_bytes());
    is_there && digits
}

/// Adds the mark of a group.
fn push_named(alloc: Global, name: &str, marks: &mut Seq<Path>) -> Result<(), ModelFault>
    ensures { AddsMarks (name.now ∷ []) result marks.old marks.new }
{
    let m = mark_named(alloc, "group", name)?;
    marks.push(m)?;
    Ok(())
}

/// Adds the mark of the group that a value names, if it names one.
fn push_group(alloc: Global, x: &Value, marks: &mut Seq<Path>) -> Result<(), ModelFault>
    ensures { AddsMarks (group_in x.now) result marks.old marks.new }
{
    match x {
        Value::Str(text) => {
            if names_nobody(text.as_str()) {
                return Ok(());
            }
            push_named(alloc, text.as_str(), marks)
        }
        _ => Ok(()),
    }
}

fn push_each(alloc: Global, items: &[Value], marks: &mut Seq<Path>) -> Result<(), ModelFault>
    ensures { AddsMarks (flat_map group_in items.now) result marks.old marks.new }
{
    for item in items {
        push_group(alloc, item, marks)?;
    }
    Ok(())
}

/// Adds the marks of the groups that a value names.
fn push_groups(alloc: Global, x: &Value, marks: &mut Seq<Path>) -> Result<(), ModelFault>
    ensures { AddsMarks (groups_in x.now) result marks.old marks.new }
{
    match x {
        Value::List(items) => push_each(alloc, items.as_slice(), marks),
        _ => push_group(alloc, x, marks),
    }
}

fn push_gid(alloc: Global, x: Option<&Value>, marks: &mut Seq<Path>) -> Result<(), ModelFault>
    ensures { AddsMarks (groups_of_gid (option_map (λ x. x.now) x.entry)) result marks.old marks.new }
{
    match x {
        Some(x) => push_group(alloc, x, marks),
        None => Ok(()),
    }
}

fn push_members(alloc: Global, x: Option<&Value>, marks: &mut Seq<Path>) -> Result<(), ModelFault>
    ensures { AddsMarks (groups_of_groups (option_map (λ x. x.now) x.entry)) result marks.old marks.new }
{
    match x {
        Some(x) => push_groups(alloc, x, marks),
        None => Ok(()),
    }
}

/// The marks of the groups that a user needs.
fn group_marks(alloc: Global, attrs: &Pairs) -> Result<Seq<Path>, ModelFault>
    ensures { Meets (λ ms. ms) (group_marks (group_names attrs.now)) result }
{
    let mut marks = Seq::new(alloc);
    push_gid(alloc, attrs.find("gid"), &mut marks)?;
    push_members(alloc, attrs.find("groups"), &mut marks)?;
    Ok(marks)
}

fn is_true(truth: Option<bool>) -> bool
    ensures { result ≡ is_true truth }
{
    truth.unwrap_or(false)
}

fn truth_in(x: Option<&Value>) -> Option<bool>
    ensures { result ≡ truth_in (option_map (λ x. x.now) x.entry) }
{
    match x {
        Some(x) => truth_of(x),
        None => None,
    }
}

fn manages_home(attrs: &Pairs) -> bool
    ensures { result ≡ manages_home attrs.now }
{
    is_true(truth_in(attrs.find("managehome")))
}

fn home_with(alloc: Global, name: &str, home: Option<&Text>) -> Result<Path, ModelFault>
    ensures { Meets (λ p. p) (home_with name.now (option_map (λ t. t.now) home.entry)) result }
{
    match home {
        Some(text) => spelled(alloc, text.as_str()),
        None => {
            let s = named(alloc, name)?;
            let above = top(alloc, "home")?;
            Ok(below(alloc, &above, s.as_str())?)
        }
    }
}

/// The home that a user manages.
fn home_of(alloc: Global, name: &str, attrs: &Pairs) -> Result<Option<Path>, ModelFault>
    ensures { Meets (λ h. h) (home_of name.now attrs.now) result }
{
    if !manages_home(attrs) {
        return Ok(None);
    }
    let home = home_with(alloc, name, text_at(attrs, "home"))?;
    Ok(Some(home))
}

fn is_reserved_home(home: &Option<Path>) -> bool
    ensures { result ≡ is_reserved_home home.now }
{
    match home {
        Some(p) => is_reserved(p),
        None => false,
    }
}

/// The step that drops a mark.
fn dropped(alloc: Global, m: &Path) -> Result<Seq<Program>, NoMemory>
    ensures { IfOk result (λ es. map program_of es ≡ group_row m.now ensure.Absent) }
{
    let mut steps = Seq::new(alloc);
    let step = drop_file(alloc, m)?;
    push(&mut steps, step)?;
    Ok(steps)
}

fn marked(alloc: Global, m: &Path) -> Result<Seq<Program>, NoMemory>
    ensures { IfOk result (λ es. map program_of es ≡ mark m.now) }
{
    let mut steps = Seq::new(alloc);
    push_mark(alloc, m, &mut steps)?;
    Ok(steps)
}

fn group_row(alloc: Global, m: &Path, e: Ensure) -> Result<Seq<Program>, NoMemory>
    ensures { IfOk result (λ es. map program_of es ≡ group_row m.now e) }
{
    match e {
        Ensure::Absent => dropped(alloc, m),
        Ensure::Unsaid
        | Ensure::Present
        | Ensure::File
        | Ensure::Directory
        | Ensure::Link
        | Ensure::Running
        | Ensure::Stopped => marked(alloc, m),
    }
}

/// The model of a group, whose place is the mark of its name.
pub fn group_model(alloc: Global, e: Ensure, r: &Resource) -> Result<Model, ModelFault>
    ensures { Meets seen (group_model e r.now) result }
{
    let place = mark_named(alloc, "group", name_of(r))?;
    let steps = group_row(alloc, &place, e)?;
    Ok(Model { place, steps })
}

fn push_needs(alloc: Global, marks: &[Path], steps: &mut Seq<Program>) -> Result<(), NoMemory>
    ensures { OnOk result (map program_of steps.new ≡ map program_of steps.old ++ map need marks.now) }
{
    for m in marks {
        let step = need(alloc, m)?;
        push(steps, step)?;
    }
    Ok(())
}

/// Makes the home of a user, and then the mark.
fn home_made(alloc: Global, m: &Path, home: &Path) -> Result<Program, NoMemory>
    ensures { IfOk result (λ e. program_of e ≡ sequence (dirs home.now ++ (dir home.now ∷ Creat m.now [] ∷ []))) }
{
    let mut steps = Seq::new(alloc);
    push_dirs(alloc, home, &mut steps)?;
    push_dir(alloc, home, &mut steps)?;
    let last = creation(alloc, m, "")?;
    push(&mut steps, last)?;
    Ok(sequence(steps))
}

/// Makes the home of a user and then the mark, unless the mark is there.
fn unless_marked(alloc: Global, m: &Path, home: &Path) -> Result<Program, NoMemory>
    ensures { IfOk result (λ e. program_of e ≡ If (IsFile m.now) Id (sequence (dirs home.now ++ (dir home.now ∷ Creat m.now [] ∷ [])))) }
{
    let nothing = Boxed::new(alloc, Program::Id)?;
    let made = Boxed::new(alloc, home_made(alloc, m, home)?)?;
    let test = is_file(alloc, m)?;
    Ok(branching(test, nothing, made))
}

/// Adds the mark of a user whose home is made with it.
fn push_home(alloc: Global, m: &Path, home: &Path, steps: &mut Seq<Program>) -> Result<(), NoMemory>
    ensures { OnOk result (map program_of steps.new ≡ map program_of steps.old ++
        (dirs m.now ++ If (IsFile m.now) Id (sequence (dirs home.now ++ (dir home.now ∷ Creat m.now [] ∷ []))) ∷ [])) }
{
    push_dirs(alloc, m, steps)?;
    let step = unless_marked(alloc, m, home)?;
    push(steps, step)
}

fn user_row(
    alloc: Global,
    groups: &[Path],
    m: &Path,
    home: &Option<Path>,
) -> Result<Seq<Program>, NoMemory>
    ensures { IfOk result (λ es. map program_of es ≡ user_row groups.now m.now home.now) }
{
    let mut steps = Seq::new(alloc);
    push_needs(alloc, groups, &mut steps)?;
    match home {
        Some(home) => push_home(alloc, m, home, &mut steps)?,
        None => push_mark(alloc, m, &mut steps)?,
    }
    Ok(steps)
}

fn user_present(alloc: Global, place: Path, r: &Resource) -> Result<Model, ModelFault>
    ensures { Meets seen (user_present place r.now) result }
{
    let groups = group_marks(alloc, &r.attrs)?;
    let home = home_of(alloc, name_of(r), &r.attrs)?;
    unless_reserved(is_reserved_home(&home))?;
    let steps = user_row(alloc, groups.as_slice(), &place, &home)?;
    Ok(Model { place, steps })
}

fn user_absent(alloc: Global, place: Path, r: &Resource) -> Result<Model, ModelFault>
    ensures { Meets seen (user_at ensure.Absent r.now place) result }
{
    let steps = dropped(alloc, &place)?;
    Ok(Model { place, steps })
}

/// The model of a user, whose place is the mark of its name.
pub fn user_model(alloc: Global, e: Ensure, r: &Resource) -> Result<Model, ModelFault>
    ensures { Meets seen (user_model e r.now) result }
{
    let place = mark_named(alloc, "user", name_of(r))?;
    match e {
        Ensure::Absent => user_absent(alloc, place, r),
        Ensure::Unsaid
        | Ensure::Present
        | Ensure::File
        | Ensure::Directory
        | Ensure::Link
        | Ensure::Running
        | Ensure::Stopped => user_present(alloc, place, r),
    }
}
