//! What is assumed of resources.

ghost use Rattle.std.specs.Prelude.{◌≡◌, [], IfOk, OnOk, option_map, slice_get};
ghost use Rattle.std.specs.List.{AllByRecursion};
ghost use Rattle.assumed_text.specs.Assumptions.{IsSoundAssumption, assumed_of_type};
ghost use Rattle.assumed_text.specs.Reading.{AreFirst, with_first};

use fs_lang::Path;
use pp_value::{Keyed, Ref};
use rh_base::{NoMemory, Seq, Text};
use std::alloc::Global;
use std::marker::Model;

/// The most paths that a behavior may have, `creates` aside.
pub(crate) const BEHAVIOR_PATHS: usize = 64;

/// What a resource does, as it is assumed.
#[derive(Drop)]
pub struct Behavior {
    /// files without which it fails
    pub needs: Seq<Path>,
    /// folders that it makes, with those above them
    pub folders: Seq<Path>,
    /// files that it writes whole
    pub makes: Seq<Path>,
    /// files of which it changes a part of its own
    pub edits: Seq<Path>,
    /// what it removes
    pub removes: Seq<Path>,
    /// where something stands there, it does nothing
    pub creates: Option<Path>,
}

/// What is assumed of a resource.
#[derive(Drop)]
pub enum Assumed {
    /// It does nothing, whatever its attributes are.
    Nothing,
    /// As if nothing were assumed.
    Refused,
    Does(Behavior),
}

/// Of what something is assumed.
#[derive(Drop)]
pub enum Subject {
    /// a resource
    One(Ref),
    /// each resource of a type, in lower case
    EachOf(Text),
}

/// An assumption.
#[derive(Drop)]
pub struct Assumption {
    pub subject: Subject,
    pub assumed: Assumed,
}

/// Assumptions in the order of the bytes of their keys, of which the first counts where two speak of one resource or type.
#[derive(Drop)]
pub struct Assumptions {
    rows: Seq<Assumption>,
    /// for each type the place of the first assumption of it
    types: Keyed<usize>,
}

impl Model for Assumptions {
    ghost use Rattle.std.specs.Prelude.{List};
    ghost use Rattle.std.specs.Coded.{coded_list};
    ghost use Rattle.std.specs.List.{AllByRecursion};
    ghost use Rattle.assumed_text.specs.declared.assumed.Assumption.{Assumption};
    ghost use Rattle.assumed_text.specs.contracts.assumed.Assumption as stored;
    ghost use Rattle.assumed_text.specs.Assumptions.{IsSoundAssumption};
    ghost use Rattle.assumed_text.specs.Reading.{AreFirst};

    ghost Value = { List Assumption };

    ghost coded = { coded_list stored.the_row.coded };

    ghost view = { λ a. a.rows };

    ghost invariant = { λ a. AllByRecursion IsSoundAssumption a.rows × AreFirst a.types a.rows };
}

/// What is assumed at a place.
fn assumed_at(rows: &[Assumption], place: usize) -> Option<&Assumed>
    ensures { option_map (λ x. x.now) result ≡ option_map (λ a. a.assumed) (slice_get rows.now place) }
{
    match rows.get(place) {
        Some(row) => Some(&row.assumed),
        None => None,
    }
}

/// Notes the place of an assumption of a type, unless one of the type stands before it.
fn note(
    alloc: Global,
    subject: &Subject,
    place: usize,
    types: &mut Keyed<usize>,
) -> Result<(), NoMemory>
    ensures { OnOk result (types.new ≡ with_first subject.now place types.old) }
{
    let Subject::EachOf(kind) = subject else {
        return Ok(());
    };
    if types.find(kind.as_str()).is_some() {
        return Ok(());
    }
    let name = kind.copy(alloc)?;
    types.push(name, place)
}

/// For each type the place of the first assumption of it.
fn types_of(alloc: Global, rows: &[Assumption]) -> Result<Keyed<usize>, NoMemory>
    ensures { IfOk result (λ types. AreFirst types rows.now) }
{
    let mut types = Keyed::new(alloc);
    let mut place = 0;
    for row in rows {
        note(alloc, &row.subject, place, &mut types)?;
        place += 1;
    }
    Ok(types)
}

impl Assumptions {
    /// Nothing is assumed.
    pub fn none(alloc: Global) -> Assumptions
        ensures { result ≡ [] }
    {
        Assumptions {
            rows: Seq::new(alloc),
            types: Keyed::new(alloc),
        }
    }

    /// Assumptions in this order.
    pub(crate) fn of(alloc: Global, rows: Seq<Assumption>) -> Result<Assumptions, NoMemory>
        requires { AllByRecursion IsSoundAssumption rows }
        ensures { IfOk result (λ a. a ≡ rows) }
    {
        let types = types_of(alloc, rows.as_slice())?;
        Ok(Assumptions { rows, types })
    }

    /// The assumptions in order.
    pub fn rows(&self) -> &[Assumption]
        ensures rows { result.now ≡ self.now }
        ensures sound { AllByRecursion IsSoundAssumption self.now }
    {
        self.rows.as_slice()
    }

    /// What is assumed of a type, in lower case, found by its hash.
    pub fn of_type(&self, kind: &str) -> Option<&Assumed>
        ensures { option_map (λ x. x.now) result ≡ assumed_of_type kind.now self.now }
    {
        match self.types.find(kind) {
            Some(place) => assumed_at(self.rows.as_slice(), *place),
            None => None,
        }
    }
}
