//! Edits of files by resources, found by the hashes of their paths.

ghost use Rattle.std.specs.Prelude.{◌≡◌, ◌++◌, ◌∷◌, [], map, option_map, slice_get, IfOk, OnOk};
ghost use Rattle.fs_lang.specs.Meaning.{program_of};
ghost use Rattle.assumed_models.specs.Edits.{edits_beside, marks_in, marks_of, or_none, AreFound, with_noted, if_any, edits_at};
ghost use Rattle.assumed_models.specs.LostEdits.{drops};

use fs_lang::{Path, Program, path_texts};
use fs_semantics::paths;
use model_words::{drop_file, push};
use pp_value::Keyed;
use rh_base::{NoMemory, Seq};
use std::alloc::Global;
use std::marker::Model;

/// An edit of a file by the resource at a place: the file's path, and the file that stands for the edit.
#[derive(Drop)]
pub struct Edit {
    pub place: usize,
    pub path: Path,
    pub mark: Path,
}

/// Edits in order.
#[derive(Drop)]
pub struct Edits {
    edits: Seq<Edit>,
    /// for the text of each path the places of its edits
    found: Keyed<Seq<usize>>,
}

impl Model for Edits {
    ghost use Rattle.std.specs.Prelude.{List};
    ghost use Rattle.std.specs.Coded.{coded_list};
    ghost use Rattle.assumed_models.specs.declared.edits.Edit.{Edit};
    ghost use Rattle.assumed_models.specs.contracts.edits.Edit as stored;
    ghost use Rattle.assumed_models.specs.Edits.{AreFound};

    ghost Value = { List Edit };

    ghost coded = { coded_list stored.the_row.coded };

    ghost view = { λ e. e.edits };

    ghost invariant = { λ e. AreFound e.found e.edits };
}

/// The places that are found, and one more.
fn with_place(
    alloc: Global,
    places: Option<&Seq<usize>>,
    place: usize,
) -> Result<Seq<usize>, NoMemory>
    ensures { IfOk result (λ more. more ≡ or_none (option_map (λ l. l.now) places.entry) ++ place ∷ []) }
{
    let mut more = Seq::new(alloc);
    if let Some(places) = places {
        for p in places.as_slice() {
            more.push(*p)?;
        }
    }
    more.push(place)?;
    Ok(more)
}

/// Notes the place of an edit of a path.
fn note(
    alloc: Global,
    path: &Path,
    place: usize,
    found: &mut Keyed<Seq<usize>>,
) -> Result<(), NoMemory>
    ensures { OnOk result (found.new ≡ with_noted path.now place found.old) }
{
    let text = path.text(alloc)?;
    let places = with_place(alloc, found.find(text.as_str()), place)?;
    found.put(text, places)
}

/// For the text of each path the places of its edits.
fn found_in(alloc: Global, edits: &[Edit]) -> Result<Keyed<Seq<usize>>, NoMemory>
    ensures { IfOk result (λ found. AreFound found edits.now) }
{
    path_texts();
    paths();
    let mut found = Keyed::new(alloc);
    let mut place = 0;
    for edit in edits {
        edit.path.segments();
        note(alloc, &edit.path, place, &mut found)?;
        place += 1;
    }
    Ok(found)
}

/// Adds the step that drops the mark of an edit, unless it is by the resource at a place.
fn push_drop(
    alloc: Global,
    edit: &Edit,
    place: usize,
    steps: &mut Seq<Program>,
) -> Result<(), NoMemory>
    ensures { OnOk result (map program_of steps.new ≡ map program_of steps.old ++ drops (marks_in (edits_beside place (edit.now ∷ [])))) }
{
    if edit.place == place {
        return Ok(());
    }
    let step = drop_file(alloc, &edit.mark)?;
    push(steps, step)
}

/// Adds that of the edit at a place among all.
fn push_drop_at(
    alloc: Global,
    edits: &[Edit],
    i: usize,
    place: usize,
    steps: &mut Seq<Program>,
) -> Result<(), NoMemory>
    ensures { OnOk result (map program_of steps.new ≡ map program_of steps.old ++ drops
        (marks_in (edits_beside place (if_any (slice_get edits.now i) [])))) }
{
    match edits.get(i) {
        Some(edit) => push_drop(alloc, edit, place, steps),
        None => Ok(()),
    }
}

/// Those of the edits at these places.
fn drops_at(
    alloc: Global,
    edits: &[Edit],
    places: &[usize],
    place: usize,
) -> Result<Seq<Program>, NoMemory>
    ensures { IfOk result (λ steps. map program_of steps ≡ drops (marks_in (edits_beside place (edits_at edits.now places.now)))) }
{
    let mut steps = Seq::new(alloc);
    for i in places {
        push_drop_at(alloc, edits, *i, place, &mut steps)?;
    }
    Ok(steps)
}

impl Edits {
    /// Edits in this order.
    pub fn of(alloc: Global, edits: Seq<Edit>) -> Result<Edits, NoMemory>
        ensures { IfOk result (λ e. e ≡ edits) }
    {
        let found = found_in(alloc, edits.as_slice())?;
        Ok(Edits { edits, found })
    }

    /// Edits in order.
    pub fn as_slice(&self) -> &[Edit]
        ensures { result.now ≡ self.now }
    {
        self.edits.as_slice()
    }

    /// The steps that drop the marks of the edits of a path by other resources than the one at a place.
    pub(crate) fn drops(
        &self,
        alloc: Global,
        place: usize,
        p: &Path,
    ) -> Result<Seq<Program>, NoMemory>
        ensures { IfOk result (λ steps. map program_of steps ≡ drops (marks_of (edits_beside place self.now) p.now)) }
    {
        p.segments();
        let text = p.text(alloc)?;
        match self.found.find(text.as_str()) {
            Some(places) => drops_at(alloc, self.edits.as_slice(), places.as_slice(), place),
            None => Ok(Seq::new(alloc)),
        }
    }
}
