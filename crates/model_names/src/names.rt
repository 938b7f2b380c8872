//! Names and paths of resources, and the marks that stand for names.

ghost use Rattle.std.specs.Prelude.{◌≡◌, ◌++◌, ◌∷◌, [], IfOk};
ghost use Rattle.model_semantics.specs.Words.{mark_path};
ghost use Rattle.model_semantics.specs.Names.{Meets, text_or, name_of, named, mark_named, mark_of_user, spelled, is_reserved, unless_reserved, mark_needed};

use catalog_semantics::Resource;
use fs_lang::{Path, PathFault, segment};
use model_attributes::text_at;
use model_semantics::{Cause, ModelFault};
use pp_value::Pairs;
use rh_base::{NoMemory, Text};
use std::alloc::Global;

/// The text of an attribute, or else another.
pub fn text_or<'p>(attrs: &'p Pairs, name: &str, other: &'p str) -> &'p str
    ensures { result.now ≡ text_or name.now other.now attrs.now }
{
    match text_at(attrs, name) {
        Some(text) => text.as_str(),
        None => other,
    }
}

/// The modelled name of a resource that isn't a file.
pub fn name_of(r: &Resource) -> &str
    ensures { result.now ≡ name_of r.now }
{
    text_or(&r.attrs, "name", r.id.title.as_str())
}

/// The segment of a name.
pub fn named(alloc: Global, name: &str) -> Result<Text, ModelFault>
    ensures { Meets (λ s. s) (named name.now) result }
{
    match segment(alloc, name) {
        Ok(s) => Ok(s),
        Err(PathFault::Bad) => Err(ModelFault::Because(Cause::Name)),
        Err(PathFault::Memory(m)) => Err(ModelFault::Memory(m)),
    }
}

/// The path one segment further down. Callers give segments alone: for another text the answer is that memory was refused.
pub fn below(alloc: Global, p: &Path, segment: &str) -> Result<Path, NoMemory>
    ensures { IfOk result (λ q. q ≡ p.now ++ segment.now ∷ []) }
{
    match p.child(alloc, segment) {
        Ok(path) => Ok(path),
        Err(PathFault::Bad) => Err(NoMemory),
        Err(PathFault::Memory(m)) => Err(m),
    }
}

/// The path of a segment below the root.
pub fn top(alloc: Global, segment: &str) -> Result<Path, NoMemory>
    ensures { IfOk result (λ p. p ≡ segment.now ∷ []) }
{
    let root = Path::root(alloc)?;
    below(alloc, &root, segment)
}

/// The mark of a segment.
fn marked(alloc: Global, word: &str, s: &str) -> Result<Path, NoMemory>
    ensures { IfOk result (λ p. p ≡ mark_path word.now (s.now ∷ [])) }
{
    let marks = top(alloc, ".rehearsal")?;
    let kind = below(alloc, &marks, word)?;
    below(alloc, &kind, s)
}

/// The mark of a name.
pub fn mark_named(alloc: Global, word: &str, name: &str) -> Result<Path, ModelFault>
    ensures { Meets (λ p. p) (mark_named word.now name.now) result }
{
    let s = named(alloc, name)?;
    Ok(marked(alloc, word, s.as_str())?)
}

/// The mark of a name of a user.
pub fn mark_of_user(alloc: Global, word: &str, user: &str, name: &str) -> Result<Path, ModelFault>
    ensures { Meets (λ p. p) (mark_of_user word.now user.now name.now) result }
{
    let u = named(alloc, user)?;
    let s = named(alloc, name)?;
    let above = marked(alloc, word, u.as_str())?;
    Ok(below(alloc, &above, s.as_str())?)
}

/// The mark that is needed of a user, if it isn't root.
pub fn mark_needed(alloc: Global, user: &str) -> Result<Option<Path>, ModelFault>
    ensures { Meets (λ m. m) (mark_needed user.now) result }
{
    if user == "root" {
        return Ok(None);
    }
    let m = mark_named(alloc, "user", user)?;
    Ok(Some(m))
}

/// The path that a text spells.
pub fn spelled(alloc: Global, text: &str) -> Result<Path, ModelFault>
    ensures { Meets (λ p. p) (spelled text.now) result }
{
    match Path::read(alloc, text) {
        Ok(path) => Ok(path),
        Err(PathFault::Bad) => Err(ModelFault::Because(Cause::Name)),
        Err(PathFault::Memory(m)) => Err(ModelFault::Memory(m)),
    }
}

/// Whether a path is at or under `/.rehearsal`.
pub fn is_reserved(p: &Path) -> bool
    ensures { result ≡ is_reserved p.now }
{
    p.is_reserved()
}

/// Refuses what is reserved.
pub fn unless_reserved(reserved: bool) -> Result<(), ModelFault>
    ensures { Meets (λ done. done) (unless_reserved reserved) result }
{
    if reserved {
        return Err(ModelFault::Because(Cause::Reserved));
    }
    Ok(())
}
