//! Titles of resources.

ghost use Rattle.std.specs.Prelude.{◌≡◌, IfOk};
ghost use Rattle.std.specs.List.{list_any};
ghost use Rattle.std.specs.Option.{option_and_then};
ghost use Rattle.pp_eval.specs.Evaluating.{AnswersBy};
ghost use Rattle.pp_eval.specs.Evaluation.{texts_of, titles_of};
ghost use Rattle.catalog_semantics.specs.Attributes.{is_empty_text, nonempty, titles_at};

use pp_eval::{Scopes, eval, no_result};
use pp_syntax::Expr;
use pp_value::Value;
use rh_base::{Fault, NoMemory, Seq, Text};
use std::alloc::Global;

/// All of these, where each is a text.
#[tactic(auto, using(crate::proofs::Steps::next_text))]
fn texts_of(alloc: Global, items: &[Value]) -> Result<Option<Seq<Text>>, NoMemory>
    ensures { IfOk result (λ texts. texts ≡ texts_of items.now) }
{
    let mut texts = Seq::new(alloc);
    for item in items {
        let Value::Str(text) = item else {
            return Ok(None);
        };
        texts.push(text.copy(alloc)?)?;
    }
    Ok(Some(texts))
}

/// A text, or a list of texts.
fn titles_of(alloc: Global, value: &Value) -> Result<Option<Seq<Text>>, NoMemory>
    ensures { IfOk result (λ texts. texts ≡ titles_of value.now) }
{
    match value {
        Value::Str(text) => {
            let mut texts = Seq::new(alloc);
            texts.push(text.copy(alloc)?)?;
            Ok(Some(texts))
        }
        Value::List(items) => texts_of(alloc, items.as_slice()),
        _ => Ok(None),
    }
}

fn is_empty_text(text: &Text) -> bool
    ensures { result ≡ is_empty_text text.now }
{
    text.is_empty()
}

fn has_empty(titles: &[Text]) -> bool
    ensures { result ≡ list_any is_empty_text titles.now }
{
    for title in titles {
        if is_empty_text(title) {
            return true;
        }
    }
    false
}

/// Titles none of which is empty.
fn nonempty(titles: Option<Seq<Text>>) -> Option<Seq<Text>>
    ensures { result ≡ option_and_then nonempty titles }
{
    let titles = titles?;
    if has_empty(titles.as_slice()) {
        return None;
    }
    Some(titles)
}

/// A nonempty text or a list of them.
pub fn titles_at(alloc: Global, e: &Expr, scopes: &Scopes) -> Result<Seq<Text>, Fault>
    ensures { AnswersBy (λ titles. titles) (titles_at scopes.now e.now) result }
{
    let value = eval(alloc, e, scopes)?;
    match nonempty(titles_of(alloc, &value)?) {
        Some(titles) => Ok(titles),
        None => Err(no_result(alloc, e.at)),
    }
}
