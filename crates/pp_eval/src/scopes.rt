//! The scopes in which expressions are evaluated.

ghost use Rattle.std.specs.Prelude.{◌≡◌, ◌<◌, ◌∷◌, ◌++◌, [], length, None, IfOk, OnOk, OnErr, option_map, option_and_then};
ghost use Rattle.pp_value.specs.Texts.{lowered};
ghost use Rattle.pp_eval.specs.ClassNames.{place_among};
ghost use Rattle.pp_eval.specs.Evaluating.{AnswersBy};
ghost use Rattle.pp_eval.specs.Scoping.{Binds, BindsAt, BindsNow, bound, place_now, at_start, class_scope, defined_scope, node_scope_new, entered, left, current_scope, IsInner};

use crate::answers::bound_again;
use crate::classes::Classes;
use crate::scope::{Scope, Sort};
use crate::start::top_of;
use pp_value::{Pairs, Value};
use rh_base::{Fault, NoMemory, Text};
use std::alloc::Global;
use std::marker::Model;

/// Why a name isn't bound.
#[derive(Clone, Copy, Debug, PartialEq, Eq)]
pub enum BindFault {
    /// The current scope has a binding of it.
    Again,
    Memory(NoMemory),
}

impl From<NoMemory> for BindFault {
    ghost use Rattle.pp_eval.specs.declared.scopes.BindFault.TheVariants as fault;

    ghost from_gives = { λ m e. e ≡ fault.Memory m };

    fn from(m: NoMemory) -> Self {
        BindFault::Memory(m)
    }
}

/// All scopes in the order in which they were entered, the top first, and the places of those that are open, the current
/// one last.
#[derive(Drop)]
pub struct Scopes {
    pub(crate) scopes: Vec<Scope>,
    /// The places of the classes' scopes.
    pub(crate) classes: Classes,
    pub(crate) open: Vec<usize>,
    pub(crate) alloc: Global,
}

impl Model for Scopes {
    ghost use Rattle.std.specs.Prelude.{List, ℕ};
    ghost use Rattle.std.specs.Coded.{coded_list, coded×, coded_ℕ};
    ghost use Rattle.pp_eval.specs.declared.scope.Scope.{Scope};
    ghost use Rattle.pp_eval.specs.contracts.scope.Scope as scope;

    ghost Value = { List Scope × List ℕ };

    ghost coded = { coded× (coded_list scope.the_row.coded) (coded_list coded_ℕ) };

    ghost use Rattle.pp_eval.specs.Scoping.{AreScopes};

    ghost view = { λ s. (s.scopes.items, s.open.items) };

    ghost use Rattle.pp_eval.specs.ClassNames.{AreKept};

    ghost invariant = { λ s. AreScopes s.scopes.items s.open.items × AreKept s.classes s.scopes.items };
}

/// A copy of a name.
fn owned(alloc: Global, name: &str) -> Result<Text, NoMemory>
    ensures { IfOk result (λ text. text ≡ name.now) }
{
    Ok(Text::from_string(String::from_str(alloc, name)?))
}

/// Binds a name, unless it has a binding there.
fn bind_in(alloc: Global, bindings: &mut Pairs, name: &str, value: Value) -> Result<(), BindFault>
    ensures { Binds bindings.old name.now value bindings.new result }
{
    if bindings.find(name).is_some() {
        return Err(BindFault::Again);
    }
    let name = owned(alloc, name)?;
    bindings.push(name, value)?;
    Ok(())
}

/// Binds a name in the scope at a place.
fn bind_at(
    alloc: Global,
    scopes: &mut Vec<Scope>,
    place: usize,
    name: &str,
    value: Value,
) -> Result<(), BindFault>
    requires { place < length scopes.old.items }
    ensures { BindsAt place scopes.old.items name.now value scopes.new.items result }
{
    let scope = &mut scopes[place];
    bind_in(alloc, &mut scope.bindings, name, value)
}

/// The current scope's place.
fn place_now(opened: &[usize]) -> usize
    ensures { result ≡ place_now opened.now }
{
    match opened.last() {
        Some(place) => *place,
        None => 0,
    }
}

/// Adds a scope, which is the current one from then on.
fn enter(scopes: &mut Vec<Scope>, opened: &mut Vec<usize>, scope: Scope) -> Result<(), NoMemory>
    ensures scopes_ok { OnOk result (scopes.new.items ≡ scopes.old.items ++ scope ∷ []) }
    ensures open_ok { OnOk result (opened.new.items ≡ opened.old.items ++ length scopes.old.items ∷ []) }
    ensures scopes_err { OnErr result (scopes.new.items ≡ scopes.old.items) }
    ensures open_err { OnErr result (opened.new.items ≡ opened.old.items) }
{
    let place = scopes.len();
    scopes.push(scope)?;
    match opened.push(place) {
        Ok(()) => Ok(()),
        Err(_) => {
            drop(scopes.pop());
            Err(NoMemory)
        }
    }
}

/// Adds the scope of a class, which is the current one from then on.
fn enter_named(
    scopes: &mut Vec<Scope>,
    opened: &mut Vec<usize>,
    classes: &mut Classes,
    scope: Scope,
    name: &str,
) -> Result<(), NoMemory>
    requires { place_among name.now classes.old ≡ None }
    ensures scopes_ok { OnOk result (scopes.new.items ≡ scopes.old.items ++ scope ∷ []) }
    ensures open_ok { OnOk result (opened.new.items ≡ opened.old.items ++ length scopes.old.items ∷ []) }
    ensures classes_ok { OnOk result (classes.new ≡ classes.old ++ (lowered name.now, length scopes.old.items) ∷ []) }
    ensures scopes_err { OnErr result (scopes.new.items ≡ scopes.old.items) }
    ensures open_err { OnErr result (opened.new.items ≡ opened.old.items) }
    ensures classes_err { OnErr result (classes.new ≡ classes.old) }
{
    let place = scopes.len();
    enter(scopes, opened, scope)?;
    match classes.add(name.as_bytes(), place) {
        Ok(()) => Ok(()),
        Err(m) => {
            drop(scopes.pop());
            drop(opened.pop());
            Err(m)
        }
    }
}

/// The place of a parent's scope.
fn place_of_parent(classes: &Classes, parent: Option<&str>) -> Option<usize>
    ensures { result ≡ option_and_then (λ p. place_among p classes.now) (option_map (λ p. p.now) parent.entry) }
{
    match parent {
        Some(parent) => classes.find(parent.as_bytes()),
        None => None,
    }
}

impl Scopes {
    /// Scopes with the top alone, where the facts stand.
    pub fn new(alloc: Global, facts: &Value) -> Result<Scopes, NoMemory>
        ensures { IfOk result (λ s. s ≡ at_start facts.now) }
    {
        let bindings = top_of(alloc, facts)?;
        let top = Scope {
            sort: Sort::Top,
            parent: None,
            bindings,
        };
        let mut scopes = Vec::new(alloc);
        scopes.push(top)?;
        let mut open = Vec::new(alloc);
        open.push(0usize)?;
        Ok(Scopes {
            scopes,
            classes: Classes::new(alloc),
            open,
            alloc,
        })
    }

    /// Binds a name, without `$`, in the current scope.
    pub fn bind(&mut self, name: &str, value: Value) -> Result<(), BindFault>
        ensures { BindsNow self.old name.now value self.new result }
    {
        let place = place_now(self.open.as_slice());
        bind_at(self.alloc, &mut self.scopes, place, name, value)
    }

    /// Binds a name, without `$`, that stands at a place, in the current scope.
    pub fn bind_or_refuse(&mut self, at: u32, name: &str, value: Value) -> Result<(), Fault>
        ensures answers { AnswersBy (λ done. self.new) (bound at name.now value self.old) result }
        ensures err { OnErr result (self.new ≡ self.old) }
    {
        match self.bind(name, value) {
            Ok(()) => Ok(()),
            Err(BindFault::Again) => Err(bound_again(self.alloc, at, name)),
            Err(BindFault::Memory(m)) => Err(Fault::Memory(m)),
        }
    }

    /// Enters the scope of a class, which inherits the parent's, if that has one.
    pub fn enter_class(&mut self, name: &str, parent: Option<&str>) -> Result<(), NoMemory>
        ensures ok { OnOk result (self.new ≡ entered self.old (class_scope self.old.0 name.now (option_map (λ p. p.now) parent.entry))) }
        ensures err { OnErr result (self.new ≡ self.old) }
    {
        let parent = place_of_parent(&self.classes, parent);
        let class = owned(self.alloc, name)?;
        let scope = Scope {
            sort: Sort::Class(class),
            parent,
            bindings: Pairs::new(self.alloc),
        };
        if self.classes.find(name.as_bytes()).is_some() {
            return enter(&mut self.scopes, &mut self.open, scope);
        }
        enter_named(
            &mut self.scopes,
            &mut self.open,
            &mut self.classes,
            scope,
            name,
        )
    }

    /// Enters the scope of a defined resource.
    pub fn enter_defined(&mut self) -> Result<(), NoMemory>
        ensures ok { OnOk result (self.new ≡ entered self.old defined_scope) }
        ensures err { OnErr result (self.new ≡ self.old) }
    {
        let scope = Scope {
            sort: Sort::Defined,
            parent: None,
            bindings: Pairs::new(self.alloc),
        };
        enter(&mut self.scopes, &mut self.open, scope)
    }

    /// Enters the scope of a node, which stays open.
    pub fn enter_node(&mut self) -> Result<(), NoMemory>
        ensures ok { OnOk result (self.new ≡ entered self.old node_scope_new) }
        ensures err { OnErr result (self.new ≡ self.old) }
    {
        let scope = Scope {
            sort: Sort::Node,
            parent: None,
            bindings: Pairs::new(self.alloc),
        };
        enter(&mut self.scopes, &mut self.open, scope)
    }

    /// Goes back to the scope that was current before.
    pub fn leave(&mut self)
        requires { IsInner (current_scope self.old) }
        ensures { self.new ≡ left self.old }
    {
        drop(self.open.pop());
    }
}
