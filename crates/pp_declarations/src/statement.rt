//! Statements, and the bodies of classes that they run. An `if` or a `case` first chooses a block, which changes no state, and
//! then runs it; so choosing stands apart from this cycle of functions (`conditions`, `cases`).

ghost use Rattle.std.specs.Prelude.{◌≡◌, ◌++◌, map, OnOk};
ghost use Rattle.pp_eval.specs.Evaluating.{AnswersBy};
ghost use Rattle.pp_eval.specs.References.{plain_name};
ghost use Rattle.catalog_semantics.specs.Rooms.{in_block};
ghost use Rattle.catalog_semantics.specs.States.{in_turn};
ghost use Rattle.catalog_semantics.specs.Declaring.{body_in, class_ref, class_resource, class_runs, class_declared, body_declared, classes_declared};
ghost use Rattle.catalog_semantics.specs.Functions.{placed, each_class};
ghost use Rattle.catalog_semantics.specs.Effects.{effect_at, effect_of, side_of, sides_of, chained, called, declared_by};
ghost use Rattle.pp_declared_bodies.specs.Bodies.{declared_behind};
ghost use Rattle.pp_declarations.specs.Frames.{bodies_in, includes};
ghost use Rattle.pp_declarations.specs.Classes.{IsOwn, parents_run, plain_class, plain_class_ref};

use crate::arguments::classes_at;
use crate::cases::chosen_option;
use crate::conditions::chosen_arm;
use crate::fitting::has_room_for;
use crate::frame::{Call, Frame};
use crate::simple::{after_include, assign, class_resource};
use crate::ties::tie_all;
use catalog_semantics::{Room, Side};
use pp_declaration_state::State;
use pp_declared_bodies::{
    Declaration, begin_class, class_named, class_ref, collector_of, declare_resources, fail_with,
    is_declared, nearest_first, no_circle, realize_all,
};
use pp_declared_values::{attributes_at, named_refs, test_of, titles_at};
use pp_definitions::{Definition, Site};
use pp_eval::{eval_all, plain_name};
use pp_syntax::{Arrow, Body, Expr, Func, Operand, Stmt};
use pp_value::{Pairs, Ref, Value};
use rh_base::{Fault, NoMemory, Seq, Text};
use std::alloc::Global;

/// A statement, where there is so much room for open bodies and blocks.
#[cycle(statement)]
#[tactic(auto, using(crate::proofs::StatementLaws::chain_is, crate::proofs::StatementLaws::assign_is, crate::proofs::StatementLaws::call_is, crate::proofs::StatementLaws::if_is, crate::proofs::StatementLaws::unless_is, crate::proofs::StatementLaws::case_is))]
fn statement(alloc: Global, frame: &Frame<'_, '_>, s: &Stmt, state: &mut State) -> Result<(), Fault>
    ensures { AnswersBy (λ done. state.new) (effect_at frame.now.left frame.now.site.now s.now state.old) result }
{
    match s {
        Stmt::Chain { at, sides, arrows } => {
            let operands = sides.as_slice();
            chain(alloc, frame, *at, operands, arrows.as_slice(), state)
        }
        Stmt::Assign { at, name, value } => assign(alloc, *at, name.as_str(), value, state),
        Stmt::Call { at, func, args } => {
            let call = Call {
                at: *at,
                func: *func,
                args: args.as_slice(),
            };
            run_call(alloc, frame, &call, state)
        }
        Stmt::If { at: _, arms, other } => {
            let body = chosen_arm(alloc, arms.as_slice(), other.as_slice(), state.scopes())?;
            inner(alloc, frame, body, state)
        }
        Stmt::Unless {
            at: _,
            test,
            body,
            other,
        } => {
            if test_of(alloc, test, state.scopes())? {
                inner(alloc, frame, other.as_slice(), state)
            } else {
                inner(alloc, frame, body.as_slice(), state)
            }
        }
        Stmt::Case { at: _, value, arms } => {
            match chosen_option(alloc, value, arms.as_slice(), state.scopes())? {
                Some(body) => inner(alloc, frame, body, state),
                None => Ok(()),
            }
        }
    }
}

/// The statements of a block, which is one further in.
#[cycle(statement)]
fn inner(
    alloc: Global,
    frame: &Frame<'_, '_>,
    body: &[Stmt],
    state: &mut State,
) -> Result<(), Fault>
    ensures { AnswersBy (λ done. state.new)
        (in_turn (map (effect_at (in_block frame.now.left) frame.now.site.now) body.now) state.old) result }
{
    let within = Frame {
        site: frame.site,
        left: frame.left.in_block(),
    };
    block(alloc, &within, body, state)
}

/// Statements, one after the other.
#[cycle(statement)]
fn block(
    alloc: Global,
    frame: &Frame<'_, '_>,
    body: &[Stmt],
    state: &mut State,
) -> Result<(), Fault>
    ensures { AnswersBy (λ done. state.new) (in_turn (map (effect_at frame.now.left frame.now.site.now) body.now) state.old) result }
{
    for s in body {
        match statement(alloc, frame, s, state) {
            Ok(()) => {}
            Err(fault) => return Err(fault),
        }
    }
    Ok(())
}

// ---- chains

/// The operands of a chain, and the ties between them.
#[cycle(statement)]
fn chain(
    alloc: Global,
    frame: &Frame<'_, '_>,
    at: u32,
    operands: &[Operand],
    arrows: &[Arrow],
    state: &mut State,
) -> Result<(), Fault>
    ensures { AnswersBy (λ done. state.new) (chained frame.now.site.now (bodies_in frame.now) at operands.now arrows.now state.old) result }
{
    let sides = all_sides(alloc, frame, operands, state)?;
    tie_all(alloc, at, sides.as_slice(), arrows, state)?;
    Ok(())
}

/// The sides of the arrows of a chain, from the left.
#[cycle(statement)]
#[tactic(auto, using(crate::proofs::SideLaws::no_sides, crate::proofs::SideLaws::next_side, crate::proofs::SideLaws::side_refused))]
fn all_sides(
    alloc: Global,
    frame: &Frame<'_, '_>,
    operands: &[Operand],
    state: &mut State,
) -> Result<Seq<Side>, Fault>
    ensures { AnswersBy (λ sides. (sides, state.new)) (sides_of frame.now.site.now (bodies_in frame.now) operands.now state.old) result }
{
    let mut sides = Seq::new(alloc);
    for x in operands {
        let one = one_side(alloc, frame, x, state)?;
        sides.push(one)?;
    }
    Ok(sides)
}

/// One side: resources that are declared or named, or a collector.
#[cycle(statement)]
fn one_side(
    alloc: Global,
    frame: &Frame<'_, '_>,
    x: &Operand,
    state: &mut State,
) -> Result<Side, Fault>
    ensures { AnswersBy (λ side. (side, state.new)) (side_of frame.now.site.now (bodies_in frame.now) x.now state.old) result }
{
    match x {
        Operand::Declare {
            at,
            is_virtual,
            kind,
            bodies,
        } => {
            let declaration = Declaration {
                at: *at,
                is_virtual: *is_virtual,
                kind: kind.as_str(),
                bodies: bodies.as_slice(),
            };
            let refs = declare(alloc, frame, &declaration, state)?;
            Ok(Side::Named(refs))
        }
        Operand::Collect { at, kind, search } => {
            let c = collector_of(alloc, frame.site, *at, kind.as_str(), search, state)?;
            let place = state.collectors().len() as u64;
            state.collect(c)?;
            Ok(Side::Matched(place))
        }
        Operand::Named(es) => {
            let refs = named_refs(alloc, es.as_slice(), state.scopes())?;
            Ok(Side::Named(refs))
        }
    }
}

/// Declares resources, or classes where the type is `class`.
#[cycle(statement)]
fn declare(
    alloc: Global,
    frame: &Frame<'_, '_>,
    declaration: &Declaration<'_>,
    state: &mut State,
) -> Result<Seq<Ref>, Fault>
    ensures { AnswersBy (λ refs. (refs, state.new))
        (declared_by frame.now.site.now (bodies_in frame.now) declaration.now.at declaration.now.is_virtual
        declaration.now.kind.now declaration.now.bodies.now state.old) result }
{
    if declaration.kind == "class" {
        return declare_classes(alloc, frame, declaration.bodies, state);
    }
    declare_resources(alloc, frame.site, declaration, state)
}

// ---- classes

/// Declares the classes of some bodies.
#[cycle(statement)]
#[tactic(auto, using(pp_declared_bodies::proofs::BodyLaws::nothing_declared, pp_declared_bodies::proofs::BodyLaws::next_body, pp_declared_bodies::proofs::BodyLaws::body_refused))]
fn declare_classes(
    alloc: Global,
    frame: &Frame<'_, '_>,
    bodies: &[Body],
    state: &mut State,
) -> Result<Seq<Ref>, Fault>
    ensures { AnswersBy (λ refs. (refs, state.new))
        (classes_declared frame.now.site.now (bodies_in frame.now) bodies.now state.old) result }
{
    let mut refs = Seq::new(alloc);
    for b in bodies {
        match class_body(alloc, frame, b, &mut refs, state) {
            Ok(()) => {}
            Err(fault) => return Err(fault),
        }
    }
    Ok(refs)
}

/// Appends the references to classes.
fn push_refs(alloc: Global, titles: &[Text], refs: &mut Seq<Ref>) -> Result<(), NoMemory>
    ensures { OnOk result (refs.new ≡ refs.old ++ map plain_class_ref titles.now) }
{
    for title in titles {
        let name = plain_name(alloc, title.as_str())?;
        refs.push(class_ref(alloc, name.as_str())?)?;
    }
    Ok(())
}

/// Declares the classes of one body, and appends their references.
#[cycle(statement)]
fn class_body(
    alloc: Global,
    frame: &Frame<'_, '_>,
    b: &Body,
    refs: &mut Seq<Ref>,
    state: &mut State,
) -> Result<(), Fault>
    ensures { AnswersBy (λ done. (refs.new, state.new))
        (declared_behind refs.old
        (body_declared (plain_class frame.now.site.now (bodies_in frame.now)) plain_class_ref b.now state.old)) result }
{
    let titles = titles_at(alloc, &b.title, state.scopes())?;
    let attributes = attributes_at(alloc, b.attrs.as_slice(), state.scopes())?;
    let names = titles.as_slice();
    class_titles(alloc, frame, b.title.at, &attributes, names, state)?;
    push_refs(alloc, names, refs)?;
    Ok(())
}

/// Declares a class for each title.
#[cycle(statement)]
fn class_titles(
    alloc: Global,
    frame: &Frame<'_, '_>,
    at: u32,
    attributes: &Pairs,
    titles: &[Text],
    state: &mut State,
) -> Result<(), Fault>
    ensures { AnswersBy (λ done. state.new)
        (in_turn (map (plain_class frame.now.site.now (bodies_in frame.now) at attributes.now) titles.now) state.old) result }
{
    for title in titles {
        let name = plain_name(alloc, title.as_str())?;
        match declare_class(alloc, frame, at, attributes, name.as_str(), state) {
            Ok(()) => {}
            Err(fault) => return Err(fault),
        }
    }
    Ok(())
}

/// A class with these attributes, behind its parents.
#[cycle(statement)]
#[tactic(auto, using(crate::proofs::BodyLaws::declared_is, crate::proofs::OwnLaws::class_is_own))]
fn declare_class(
    alloc: Global,
    frame: &Frame<'_, '_>,
    at: u32,
    attributes: &Pairs,
    name: &str,
    state: &mut State,
) -> Result<(), Fault>
    ensures { AnswersBy (λ done. state.new)
        (class_declared frame.now.site.now (bodies_in frame.now) at attributes.now name.now state.old) result }
{
    let d = class_named(alloc, frame.site, at, name)?;
    no_circle(alloc, frame.site, d)?;
    run_parents(alloc, frame, at, d, state)?;
    run_class(alloc, frame, at, d, attributes, state)
}

/// The parents of a class that aren't declared yet, the topmost first.
#[cycle(statement)]
#[tactic(auto, using(crate::proofs::BodyLaws::line_runs, crate::proofs::BodyLaws::line_refused, crate::proofs::BodyLaws::next_parent, crate::proofs::BodyLaws::parent_refused))]
fn run_parents<'m>(
    alloc: Global,
    frame: &Frame<'_, 'm>,
    at: u32,
    d: &Definition<'m>,
    state: &mut State,
) -> Result<(), Fault>
    ensures { AnswersBy (λ done. state.new) (parents_run frame.now.site.now (bodies_in frame.now) at d.now state.old) result }
{
    let none = Pairs::new(alloc);
    let mut parents = nearest_first(alloc, frame.site, d, state)?;
    while let Some(p) = parents.pop() {
        match run_class(alloc, frame, at, p, &none, state) {
            Ok(()) => {}
            Err(fault) => return Err(fault),
        }
    }
    Ok(())
}

/// One class alone: it becomes a resource, and its body runs at once, where there is room for it.
#[cycle(statement)]
#[tactic(auto, using(crate::proofs::BodyLaws::not_begun, crate::proofs::BodyLaws::body_refused, crate::proofs::BodyLaws::body_ended, crate::proofs::BodyLaws::never_begins, crate::proofs::BodyLaws::inner_begun, crate::proofs::BodyLaws::inner_still))]
fn run_class<'m>(
    alloc: Global,
    frame: &Frame<'_, 'm>,
    at: u32,
    d: &Definition<'m>,
    attributes: &Pairs,
    state: &mut State,
) -> Result<(), Fault>
    requires { IsOwn frame.now.site.now d.now }
    ensures { AnswersBy (λ done. state.new)
        (class_runs (body_in (bodies_in frame.now) d.now.body) d.now (class_resource at d.now.name attributes.now) state.old) result }
{
    let r = class_resource(alloc, at, d.name().as_str(), attributes)?;
    let before = state.running();
    let body = d.body();
    let may_run = has_room_for(frame.left, body);
    begin_class(alloc, d, &r, may_run, state)?;
    if may_run {
        let within = Frame {
            site: frame.site,
            left: frame.left.in_body(),
        };
        block(alloc, &within, body, state)?;
        state.end_body(before);
    }
    Ok(())
}

// ---- functions

/// A function with its arguments.
#[cycle(statement)]
fn run_call(
    alloc: Global,
    frame: &Frame<'_, '_>,
    call: &Call<'_>,
    state: &mut State,
) -> Result<(), Fault>
    ensures { AnswersBy (λ done. state.new)
        (called frame.now.site.now (bodies_in frame.now) call.now.at call.now.func call.now.args.now state.old) result }
{
    let all = eval_all(alloc, call.args, state.scopes())?;
    let values = all.as_slice();
    match call.func {
        Func::Include | Func::Contain | Func::Require => {
            include_all(alloc, frame, call, values, state)
        }
        Func::Realize => realize_all(alloc, call.at, call.args, values, state),
        Func::Fail => fail_with(alloc, call.at, call.args, values, state),
        Func::Notice | Func::Warning => Ok(()),
    }
}

/// Includes the classes of all arguments.
#[cycle(statement)]
fn include_all(
    alloc: Global,
    frame: &Frame<'_, '_>,
    call: &Call<'_>,
    values: &[Value],
    state: &mut State,
) -> Result<(), Fault>
    ensures { AnswersBy (λ done. state.new)
        (in_turn (map (each_class (includes frame.now call.now)) (placed call.now.args.now values.now)) state.old) result }
{
    let mut rest = values;
    for arg in call.args {
        let Some((value, more)) = rest.split_first() else {
            return Ok(());
        };
        let names = classes_at(alloc, arg.at, value)?;
        match include_each(alloc, frame, call, names.as_slice(), state) {
            Ok(()) => {}
            Err(fault) => return Err(fault),
        }
        rest = more;
    }
    Ok(())
}

/// Includes some classes.
#[cycle(statement)]
fn include_each(
    alloc: Global,
    frame: &Frame<'_, '_>,
    call: &Call<'_>,
    names: &[Text],
    state: &mut State,
) -> Result<(), Fault>
    ensures { AnswersBy (λ done. state.new) (in_turn (map (includes frame.now call.now) names.now) state.old) result }
{
    for name in names {
        match include(alloc, frame, call, name.as_str(), state) {
            Ok(()) => {}
            Err(fault) => return Err(fault),
        }
    }
    Ok(())
}

/// Includes a class, which stays as it is where it is declared already.
#[cycle(statement)]
fn include(
    alloc: Global,
    frame: &Frame<'_, '_>,
    call: &Call<'_>,
    name: &str,
    state: &mut State,
) -> Result<(), Fault>
    ensures { AnswersBy (λ done. state.new) (includes frame.now call.now name.now state.old) result }
{
    if !is_declared(alloc, name, state)? {
        let none = Pairs::new(alloc);
        declare_class(alloc, frame, call.at, &none, name, state)?;
    }
    after_include(alloc, call.func, call.at, name, state)?;
    Ok(())
}

// ---- from outside

/// A statement, where no body of a class and no block is open.
#[tactic(auto, using(crate::proofs::StatementLaws::whole_statement))]
pub fn run_statement(
    alloc: Global,
    site: &Site<'_>,
    s: &Stmt,
    state: &mut State,
) -> Result<(), Fault>
    ensures { AnswersBy (λ done. state.new) (effect_of site.now s.now state.old) result }
{
    let frame = Frame {
        site,
        left: Room::whole(),
    };
    statement(alloc, &frame, s, state)
}

/// Statements, one after the other, where no body of a class and no block is open.
#[tactic(auto, using(crate::proofs::StatementLaws::whole_block))]
pub fn run_block(
    alloc: Global,
    site: &Site<'_>,
    body: &[Stmt],
    state: &mut State,
) -> Result<(), Fault>
    ensures { AnswersBy (λ done. state.new) (in_turn (map (effect_of site.now) body.now) state.old) result }
{
    let frame = Frame {
        site,
        left: Room::whole(),
    };
    block(alloc, &frame, body, state)
}
