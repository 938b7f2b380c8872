//! References to resources and classes.

ghost use Rattle.std.specs.Prelude.{◌≡◌, [], ◌∷◌, ◌++◌, false, if◌then◌else◌, Ok, MatchOption, IfOk, OnOk};
ghost use Rattle.pp_eval.specs.Names.{unrooted};
ghost use Rattle.pp_eval.specs.References.{begins_with_colon, plain_name, ref_of};
ghost use Rattle.pp_eval.specs.Evaluating.{AnswersBy, if_there};
ghost use Rattle.pp_eval.specs.Evaluation.{texts_of, titles_of, refer_to, with_references, one_or_list};

use crate::answers::no_result;
use pp_value::{Ref, Value};
use rh_base::{Fault, NoMemory, Seq, Text};
use std::alloc::Global;

fn behind_colon(text: &str) -> Option<&str>
    ensures { MatchOption result (begins_with_colon text.now ≡ false) (λ x. text.now ≡ 58 ∷ x.now) }
{
    text.strip_prefix(':')
}

/// A name without the two colons in front.
#[tactic(auto, using(crate::proofs::RootLaws::no_colon, crate::proofs::RootLaws::one_colon, crate::proofs::RootLaws::two_colons))]
fn unrooted(name: &str) -> &str
    ensures { result.now ≡ unrooted name.now }
{
    let Some(one) = behind_colon(name) else {
        return name;
    };
    let Some(rest) = behind_colon(one) else {
        return name;
    };
    rest
}

/// A name without a leading `::`, lowered in ASCII.
pub fn plain_name(alloc: Global, name: &str) -> Result<Text, NoMemory>
    ensures { IfOk result (λ text. text ≡ plain_name name.now) }
{
    let lower = unrooted(name).to_ascii_lowercase(alloc)?;
    Ok(Text::from_string(lower))
}

/// A reference of a kind and a title as they are spelled.
pub fn ref_of(alloc: Global, kind: &str, title: &str) -> Result<Ref, NoMemory>
    ensures { IfOk result (λ r. r ≡ ref_of kind.now title.now) }
{
    let kind = plain_name(alloc, kind)?;
    let is_class = kind.as_str() == "class";
    let title = title_of(alloc, is_class, title)?;
    Ok(Ref { kind, title })
}

/// A title, which of a class is a plain name.
fn title_of(alloc: Global, is_class: bool, title: &str) -> Result<Text, NoMemory>
    ensures { IfOk result (λ text. text ≡ (if is_class then plain_name title.now else title.now)) }
{
    if is_class {
        return plain_name(alloc, title);
    }
    Ok(Text::from_string(String::from_str(alloc, title)?))
}

/// Appends the reference to a resource or class.
fn add_reference(
    alloc: Global,
    kind: &str,
    title: &str,
    references: &mut Seq<Value>,
) -> Result<(), NoMemory>
    ensures { OnOk result (references.new ≡ references.old ++ refer_to kind.now title.now ∷ []) }
{
    references.push(Value::Refer(ref_of(alloc, kind, title)?))
}

/// Appends the references to the titles that a list has.
#[tactic(auto, using(crate::proofs::Steps::next_text))]
fn add_listed(
    alloc: Global,
    at: u32,
    kind: &str,
    titles: &[Value],
    references: &mut Seq<Value>,
) -> Result<(), Fault>
    ensures { AnswersBy (λ done. references.new) (with_references kind.now references.old (if_there at (texts_of titles.now))) result }
{
    for title in titles {
        let Value::Str(title) = title else {
            return Err(no_result(alloc, at));
        };
        add_reference(alloc, kind, title.as_str(), references)?;
    }
    Ok(())
}

/// Appends the references to a title, or to those of a list.
pub fn add_references(
    alloc: Global,
    at: u32,
    kind: &str,
    title: &Value,
    references: &mut Seq<Value>,
) -> Result<(), Fault>
    ensures { AnswersBy (λ done. references.new) (with_references kind.now references.old (if_there at (titles_of title.now))) result }
{
    match title {
        Value::Str(title) => Ok(add_reference(alloc, kind, title.as_str(), references)?),
        Value::List(titles) => add_listed(alloc, at, kind, titles.as_slice(), references),
        _ => Err(no_result(alloc, at)),
    }
}

/// One reference, or a list of any other number of them.
pub fn one_or_list(alloc: Global, references: Seq<Value>) -> Result<Value, NoMemory>
    ensures { IfOk result (λ x. x ≡ one_or_list references) }
{
    if references.len() != 1 {
        return Value::list(alloc, references);
    }
    let mut references = references.into_vec();
    match references.pop() {
        Some(reference) => Ok(reference),
        None => Value::list(alloc, Seq::from_vec(references)),
    }
}
