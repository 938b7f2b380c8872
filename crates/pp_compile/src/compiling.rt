//! The catalog of a manifest, and that of a text.

ghost use Rattle.std.specs.Prelude.{◌≡◌, ◌<◌, ◌^◌, [], length, Result, Ok, IfOk, IfErr};
ghost use Rattle.rh_base.specs.declared.fault.Refusal.{Refusal};
ghost use Rattle.rh_base.specs.Refused.{IfRefused};
ghost use Rattle.host_limits.specs.declared.limits.Limits.TheVariants.{Usual};
ghost use Rattle.pp_value.specs.Shown.{shown_ref};
ghost use Rattle.pp_eval.specs.Evaluating.{AnswersBy, refusal};
ghost use Rattle.catalog_semantics.specs.States.{is_declared, references_of};
ghost use Rattle.catalog_semantics.specs.Frames.{StandOnce, AreSound};
ghost use Rattle.catalog_semantics.specs.Catalogs.{Catalog as C, all_there, round_limit, catalog_from, catalog_of};
ghost use Rattle.catalog_laws.specs.Containers.{AreHeld, HoldClasses};
ghost use Rattle.pp_compile.specs.Rounds.{run_all, may_stand, catalog_after};
ghost use Rattle.pp_compile.specs.Sources.{IsCatalogOf, IsSettledCatalog, IsSourceRefusal, IsCatalogRefusal};

use crate::items::main_code;
use crate::laws::one_reading;
use crate::running::rounds;
use crate::source::manifest_of;
use catalog::Catalog;
use catalog_laws::holders_are_containers;
use catalog_semantics::{catalogs_are_sound, references_stand_once, rounds_end};
use host_limits::Limits;
use pp_data::Data;
use pp_declaration_state::State;
use pp_declared_catalog::{catalog_in, few_enough};
use pp_definitions::Site;
use pp_eval::refusal;
use pp_syntax::Manifest;
use pp_value::{Ref, Value, shown_ref};
use rh_base::Fault;
use std::alloc::Global;

/// A reference that is to be realized isn't in the catalog.
fn missing(alloc: Global, at: u32, r: &Ref) -> Fault
    ensures { IfRefused result (λ x. x ≡ refusal 40 at (shown_ref r.now)) }
{
    match shown_ref(alloc, r) {
        Ok(text) => refusal(alloc, 40, at, text.as_str()),
        Err(m) => Fault::Memory(m),
    }
}

#[tactic(auto, using(pp_declared_bodies::proofs::BeginningLaws::declared_at))]
fn is_declared(state: &State, r: &Ref) -> bool
    ensures { result ≡ is_declared r.now state.now }
{
    state.place_of(r).is_some()
}

/// Each reference that is to be realized must be in the catalog.
fn all_there(alloc: Global, state: &State) -> Result<(), Fault>
    ensures { AnswersBy (λ done. state.now) (all_there state.now.pending state.now) result }
{
    for p in state.pending().as_slice() {
        if !is_declared(state, &p.target) {
            return Err(missing(alloc, p.at, &p.target));
        }
    }
    Ok(())
}

/// The main code, and so many rounds.
fn run_all(
    alloc: Global,
    site: &Site<'_>,
    turns: u32,
    manifest: &Manifest,
    state: &mut State,
) -> Result<(), Fault>
    ensures { AnswersBy (λ done. state.new) (run_all turns site.now manifest.now.items state.old) result }
{
    main_code(alloc, site, manifest, state)?;
    rounds(alloc, site, turns, state)
}

/// What is asked after the rounds.
fn may_stand(alloc: Global, state: &State) -> Result<(), Fault>
    ensures { AnswersBy (λ done. state.now) (may_stand state.now) result }
{
    all_there(alloc, state)?;
    few_enough(alloc, state)
}

/// The catalog after so many rounds, of a manifest whose definitions are gathered.
fn catalog_after(
    alloc: Global,
    site: &Site<'_>,
    turns: u32,
    manifest: &Manifest,
    facts: &Value,
    limits: Limits,
) -> Result<Catalog, Fault>
    ensures { AnswersBy (λ c. c) (catalog_after turns site.now manifest.now.items facts.now limits) result }
{
    let mut state = State::new(alloc, facts, limits)?;
    run_all(alloc, site, turns, manifest, &mut state)?;
    may_stand(alloc, &state)?;
    Ok(catalog_in(alloc, state)?)
}

/// As many rounds as resources may be declared, and one more.
#[tactic(auto, using(catalog_semantics::proofs::Ending::under_bound))]
fn round_limit(limits: Limits) -> u32
    ensures { result ≡ round_limit limits }
{
    limits.declared() + 1
}

/// The catalog of a manifest whose definitions are gathered.
fn catalog_from(
    alloc: Global,
    site: &Site<'_>,
    manifest: &Manifest,
    facts: &Value,
    limits: Limits,
) -> Result<Catalog, Fault>
    ensures { AnswersBy (λ c. c) (catalog_from site.now manifest.now.items facts.now limits) result }
{
    catalog_after(alloc, site, round_limit(limits), manifest, facts, limits)
}

/// The catalog of a manifest for a node, under facts and class data and within limits.
fn catalog_of(
    alloc: Global,
    manifest: &Manifest,
    facts: &Value,
    node: &str,
    levels: &Data,
    limits: Limits,
) -> Result<Catalog, Fault>
    ensures { AnswersBy (λ c. c) (catalog_of manifest.now facts.now node.now levels.now limits) result }
{
    let site = Site::of(alloc, manifest, levels, facts, node)?;
    catalog_from(alloc, &site, manifest, facts, limits)
}

/// The catalog of a text for a node, under facts and class data and within limits, or the first refusal.
fn compiled(
    alloc: Global,
    text: &[u8],
    facts: &Value,
    node: &str,
    levels: &Data,
    limits: Limits,
) -> Result<Catalog, Fault>
    requires { length text.now < 2 ^ 32 }
    ensures catalog { IfOk result (λ c. IsCatalogOf text.now facts.now node.now levels.now limits (Ok c)) }
    ensures refused { IfErr result (λ e. IfRefused e (IsCatalogRefusal text.now facts.now node.now levels.now limits)) }
{
    let manifest = manifest_of(alloc, text)?;
    catalog_of(alloc, &manifest, facts, node, levels, limits)
}

/// The catalog of a text for a node, under facts and class data and within limits, or the first refusal.
pub fn compile_with(
    alloc: Global,
    text: &[u8],
    facts: &Value,
    node: &str,
    levels: &Data,
    limits: Limits,
) -> Result<Catalog, Fault>
    requires { length text.now < 2 ^ 32 }
    ensures catalog { IfOk result (λ c. IsCatalogOf text.now facts.now node.now levels.now limits (Ok c)) }
    ensures refused { IfErr result (λ e. IfRefused e (IsCatalogRefusal text.now facts.now node.now levels.now limits)) }
    // One manifest at most is run, with one catalog or one refusal, and where one is, the text itself isn't refused.
    ensures one { (v w : Result C Refusal) → IsCatalogOf text.now facts.now node.now levels.now limits v
        → IsCatalogOf text.now facts.now node.now levels.now limits w → v ≡ w }
    ensures read { (v : Result C Refusal) (r : Refusal) → IsCatalogOf text.now facts.now node.now levels.now limits v
        → IsSourceRefusal text.now r → ⊥ }
    // No opaque value is an attribute, a plain resource is of a built-in type, and what a metaparameter has are references.
    ensures sound { IfOk result (λ c. AreSound c.resources) }
    // Each reference stands once, and what holds or contains something is a class or a defined resource.
    ensures once { IfOk result (λ c. StandOnce (references_of c.resources)) }
    ensures held { IfOk result (λ c. AreHeld c.resources) }
    ensures contained { IfOk result (λ c. HoldClasses c.resources c.holdings) }
    // Rounds went on until another one changes nothing.
    ensures settled { IfOk result (IsSettledCatalog text.now facts.now node.now levels.now limits) }
{
    one_reading();
    catalogs_are_sound();
    references_stand_once();
    holders_are_containers();
    rounds_end();
    compiled(alloc, text, facts, node, levels, limits)
}

/// The catalog of a text for a node, under facts, with no class data, within the usual limits.
pub fn compile(alloc: Global, text: &[u8], facts: &Value, node: &str) -> Result<Catalog, Fault>
    requires { length text.now < 2 ^ 32 }
    ensures catalog { IfOk result (λ c. IsCatalogOf text.now facts.now node.now [] Usual (Ok c)) }
    ensures refused { IfErr result (λ e. IfRefused e (IsCatalogRefusal text.now facts.now node.now [] Usual)) }
    ensures one { (v w : Result C Refusal) → IsCatalogOf text.now facts.now node.now [] Usual v
        → IsCatalogOf text.now facts.now node.now [] Usual w → v ≡ w }
    ensures read { (v : Result C Refusal) (r : Refusal) → IsCatalogOf text.now facts.now node.now [] Usual v
        → IsSourceRefusal text.now r → ⊥ }
    ensures sound { IfOk result (λ c. AreSound c.resources) }
    ensures once { IfOk result (λ c. StandOnce (references_of c.resources)) }
    ensures held { IfOk result (λ c. AreHeld c.resources) }
    ensures contained { IfOk result (λ c. HoldClasses c.resources c.holdings) }
    ensures settled { IfOk result (IsSettledCatalog text.now facts.now node.now [] Usual) }
{
    compile_with(alloc, text, facts, node, &Data::empty(alloc), Limits::Usual)
}
