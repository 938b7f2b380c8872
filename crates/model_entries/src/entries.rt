//! Cron jobs and keys of ssh.

ghost use Rattle.std.specs.Prelude.{◌≡◌, ◌++◌, ◌∷◌, [], codes, map, IfOk, OnOk, option_map};
ghost use Rattle.fs_lang.specs.Meaning.{program_of};
ghost use Rattle.model_semantics.specs.declared.states.Ensure.TheVariants as ensure;
ghost use Rattle.model_semantics.specs.Rows.{user_need, entry_row};
ghost use Rattle.model_semantics.specs.Words.{drop_file};
ghost use Rattle.model_semantics.specs.Names.{Meets};
ghost use Rattle.model_semantics.specs.Models.{time_in, more_times, times_in, time_shown, time_line, cron_content, cron_user, entry_model, key_content, key_user};
ghost use Rattle.pp_value.specs.Shown.{shown_int};
ghost use Rattle.model_names.specs.Seen.{seen};

use catalog_semantics::Resource;
use fs_lang::{Path, Program};
use model_names::{Model, mark_needed, mark_of_user, name_of, text_or};
use model_semantics::{Ensure, ModelFault};
use model_words::{drop_file, need, push, push_dirs, put};
use pp_value::{Pairs, Value};
use rh_base::{NoMemory, Seq, Text};
use std::alloc::Global;

fn push_int(alloc: Global, n: i64, into: &mut Text) -> Result<(), NoMemory>
    ensures { OnOk result (into.new ≡ into.old ++ shown_int n) }
{
    let digits = format!(in alloc; "{n}")?;
    into.push(digits.as_str())
}

fn push_time(alloc: Global, x: &Value, into: &mut Text) -> Result<(), NoMemory>
    ensures { OnOk result (into.new ≡ into.old ++ time_in x.now) }
{
    match x {
        Value::Str(text) => into.push(text.as_str()),
        Value::Int(n) => push_int(alloc, *n, into),
        _ => Ok(()),
    }
}

/// Adds times, each behind a comma.
fn push_more(alloc: Global, items: &[Value], into: &mut Text) -> Result<(), NoMemory>
    ensures { OnOk result (into.new ≡ into.old ++ more_times items.now) }
{
    for item in items {
        into.push(",")?;
        push_time(alloc, item, into)?;
    }
    Ok(())
}

fn push_times(alloc: Global, items: &[Value], into: &mut Text) -> Result<(), NoMemory>
    ensures { OnOk result (into.new ≡ into.old ++ times_in items.now) }
{
    let Some((first, more)) = items.split_first() else {
        return Ok(());
    };
    push_time(alloc, first, into)?;
    push_more(alloc, more, into)
}

fn push_shown(alloc: Global, x: Option<&Value>, into: &mut Text) -> Result<(), NoMemory>
    ensures { OnOk result (into.new ≡ into.old ++ time_shown (option_map (λ x. x.now) x.entry)) }
{
    match x {
        None => into.push("*"),
        Some(Value::List(items)) => push_times(alloc, items.as_slice(), into),
        Some(x) => push_time(alloc, x, into),
    }
}

/// Adds the line of a time.
fn push_line(alloc: Global, attrs: &Pairs, name: &str, into: &mut Text) -> Result<(), NoMemory>
    ensures { OnOk result (into.new ≡ into.old ++ time_line name.now attrs.now) }
{
    push_shown(alloc, attrs.find(name), into)?;
    into.push("\n")
}

/// What stands for a cron job: the command, the times and the special one.
fn cron_content(alloc: Global, attrs: &Pairs) -> Result<Text, NoMemory>
    ensures { IfOk result (λ t. t ≡ cron_content attrs.now) }
{
    let mut text = Text::new(alloc);
    text.push("cron:")?;
    text.push(text_or(attrs, "command", ""))?;
    text.push("\n")?;
    push_line(alloc, attrs, "minute", &mut text)?;
    push_line(alloc, attrs, "hour", &mut text)?;
    push_line(alloc, attrs, "monthday", &mut text)?;
    push_line(alloc, attrs, "month", &mut text)?;
    push_line(alloc, attrs, "weekday", &mut text)?;
    text.push(text_or(attrs, "special", ""))?;
    Ok(text)
}

/// What stands for a key: its type and itself.
fn key_content(alloc: Global, attrs: &Pairs) -> Result<Text, NoMemory>
    ensures { IfOk result (λ t. t ≡ key_content attrs.now) }
{
    let mut text = Text::new(alloc);
    text.push("key:")?;
    text.push(text_or(attrs, "type", ""))?;
    text.push(" ")?;
    text.push(text_or(attrs, "key", ""))?;
    Ok(text)
}

fn cron_user(r: &Resource) -> &str
    ensures { result.now ≡ cron_user r.now }
{
    text_or(&r.attrs, "user", "root")
}

fn key_user(r: &Resource) -> &str
    ensures { result.now ≡ key_user r.now }
{
    text_or(&r.attrs, "user", "")
}

fn user_need(alloc: Global, user: &Option<Path>) -> Result<Program, NoMemory>
    ensures { IfOk result (λ e. program_of e ≡ user_need user.now) }
{
    match user {
        Some(m) => need(alloc, m),
        None => Ok(Program::Id),
    }
}

fn written(
    alloc: Global,
    user: &Option<Path>,
    q: &Path,
    content: &str,
) -> Result<Seq<Program>, NoMemory>
    ensures { IfOk result (λ es. map program_of es ≡ entry_row user.now q.now content.now ensure.Present) }
{
    let mut steps = Seq::new(alloc);
    let needed = user_need(alloc, user)?;
    push(&mut steps, needed)?;
    push_dirs(alloc, q, &mut steps)?;
    let last = put(alloc, q, content)?;
    push(&mut steps, last)?;
    Ok(steps)
}

fn removed(alloc: Global, q: &Path) -> Result<Seq<Program>, NoMemory>
    ensures { IfOk result (λ es. map program_of es ≡ drop_file q.now ∷ []) }
{
    let mut steps = Seq::new(alloc);
    let step = drop_file(alloc, q)?;
    push(&mut steps, step)?;
    Ok(steps)
}

fn entry_row(
    alloc: Global,
    user: &Option<Path>,
    q: &Path,
    content: &str,
    e: Ensure,
) -> Result<Seq<Program>, NoMemory>
    ensures { IfOk result (λ es. map program_of es ≡ entry_row user.now q.now content.now e) }
{
    match e {
        Ensure::Absent => removed(alloc, q),
        Ensure::Unsaid
        | Ensure::Present
        | Ensure::File
        | Ensure::Directory
        | Ensure::Link
        | Ensure::Running
        | Ensure::Stopped => written(alloc, user, q, content),
    }
}

/// The model of an entry of a user, which is kept under this word.
fn entry_model(
    alloc: Global,
    word: &str,
    user: &str,
    content: &Text,
    e: Ensure,
    r: &Resource,
) -> Result<Model, ModelFault>
    ensures { Meets seen (entry_model word.now user.now content.now e r.now) result }
{
    let place = mark_of_user(alloc, word, user, name_of(r))?;
    let needed = mark_needed(alloc, user)?;
    let steps = entry_row(alloc, &needed, &place, content.as_str(), e)?;
    Ok(Model { place, steps })
}

/// The model of a cron job, whose place is the mark of its name among those of its user.
pub fn cron_model(alloc: Global, e: Ensure, r: &Resource) -> Result<Model, ModelFault>
    ensures { Meets seen (entry_model (codes "cron") (cron_user r.now) (cron_content r.now.attrs) e r.now) result }
{
    let content = cron_content(alloc, &r.attrs)?;
    entry_model(alloc, "cron", cron_user(r), &content, e, r)
}

/// The model of a key of ssh, whose place is the mark of its name among those of its user.
pub fn key_model(alloc: Global, e: Ensure, r: &Resource) -> Result<Model, ModelFault>
    ensures { Meets seen (entry_model (codes "ssh") (key_user r.now) (key_content r.now.attrs) e r.now) result }
{
    let content = key_content(alloc, &r.attrs)?;
    entry_model(alloc, "ssh", key_user(r), &content, e, r)
}
