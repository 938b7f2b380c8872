//! The words of searches.
ghost use Rattle.std.specs.Prelude.{◌≡◌, ◌++◌, OnOk};
ghost use Rattle.std.specs.List.{join_by};
ghost use Rattle.pp_print.specs.Words.{keyword, in_parens};
ghost use Rattle.pp_print.specs.Statements.{sought, sought_at, compared, maybe_search};

use crate::expression::at_level;
use crate::words::Words;
use pp_syntax::{Expr, Search};
use rh_base::NoMemory;

/// 0 for `or`, 1 for `and`, 2 for a comparison.
#[tactic(auto, using(crate::proofs::Blocks::searches))]
fn level(s: &Search) -> u32
    ensures { result ≡ (sought s.now).level }
{
    match s {
        Search::Or(_) => 0,
        Search::And(_) => 1,
        Search::Equal(_, _) | Search::Differ(_, _) => 2,
    }
}

fn compared(words: &mut Words, name: &str, mark: &str, value: &Expr) -> Result<(), NoMemory>
    ensures { OnOk result (words.new ≡ words.old ++ compared name.now mark.now value.now) }
{
    words.named(name)?;
    words.sign(mark)?;
    at_level(words, 8, value)
}

/// A search, without brackets round it.
#[cycle(search)]
#[tactic(auto, using(crate::proofs::Blocks::searches))]
fn search(words: &mut Words, s: &Search) -> Result<(), NoMemory>
    ensures { OnOk result (words.new ≡ words.old ++ (sought s.now).words) }
{
    match s {
        Search::Or(all) => searches(words, 1, "or", all.as_slice()),
        Search::And(all) => searches(words, 2, "and", all.as_slice()),
        Search::Equal(name, value) => compared(words, name.as_str(), "==", value),
        Search::Differ(name, value) => compared(words, name.as_str(), "!=", value),
    }
}

#[cycle(search)]
fn enclosed(words: &mut Words, s: &Search) -> Result<(), NoMemory>
    ensures { OnOk result (words.new ≡ words.old ++ in_parens (sought s.now).words) }
{
    words.sign("(")?;
    search(words, s)?;
    words.sign(")")
}

/// A search where those of this level and above need no brackets.
#[cycle(search)]
fn sought_at(words: &mut Words, least: u32, s: &Search) -> Result<(), NoMemory>
    ensures { OnOk result (words.new ≡ words.old ++ sought_at least (sought s.now)) }
{
    if least <= level(s) {
        search(words, s)
    } else {
        enclosed(words, s)
    }
}

/// Searches of at least this level, with a keyword between them.
#[cycle(search)]
fn searches(words: &mut Words, least: u32, between: &str, all: &[Search]) -> Result<(), NoMemory>
    ensures { OnOk result (words.new ≡ words.old ++ join_by (λ s. sought_at least (sought s)) (keyword between.now) all.now) }
{
    let Some((first, more)) = all.split_first() else {
        return Ok(());
    };
    sought_at(words, least, first)?;
    for s in more {
        words.keyword(between)?;
        sought_at(words, least, s)?;
    }
    Ok(())
}

/// The search of a collector, if it has one.
pub fn maybe_search(words: &mut Words, s: &Option<Search>) -> Result<(), NoMemory>
    ensures { OnOk result (words.new ≡ words.old ++ maybe_search s.now) }
{
    match s {
        None => Ok(()),
        Some(s) => search(words, s),
    }
}
