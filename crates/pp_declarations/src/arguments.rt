//! The classes that an argument names.

ghost use Rattle.pp_eval.specs.Evaluating.{AnswersBy, if_there};
ghost use Rattle.catalog_semantics.specs.Functions.{class_names};

use pp_declared_values::class_names;
use pp_eval::no_result;
use pp_value::Value;
use rh_base::{Fault, Seq, Text};
use std::alloc::Global;

/// The names of one class or of a list of them, which stand at a place.
pub fn classes_at(alloc: Global, at: u32, value: &Value) -> Result<Seq<Text>, Fault>
    ensures { AnswersBy (λ names. names) (if_there at (class_names value.now)) result }
{
    match class_names(alloc, value)? {
        Some(names) => Ok(names),
        None => Err(no_result(alloc, at)),
    }
}
