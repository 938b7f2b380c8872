//! The solver, and its search by conflict-driven clause learning: propagate, then learn from a conflict or decide, until all variables
//! are set or the empty clause is derived. A budget bounds the learned clauses: once it is spent, the log so far is the answer, each
//! step of which is right and new. That each is new, so that there are fewer than 3^v, is also why the search ends, whatever is
//! decided and whenever it restarts.

ghost use Rattle.std.specs.Prelude.{◌≡◌, ℕ, ◌+◌, ◌-◌, ◌*◌, ◌<◌, ◌≤◌, ◌^◌, true, false, [], length, IfOk, OnOk, None, Some, slice_index_or};
ghost use Rattle.cnf.specs.Formulas.{Satisfies, valuation_of};
ghost use Rattle.cnf.specs.Proofs.{IsAccepted};
ghost use Rattle.unit_propagation.specs.Literals.{has};
ghost use Rattle.sat_solver.specs.Meaning.{IsBlank};
ghost use Rattle.sat_solver.specs.Solving.{IsLoaded};
ghost use Rattle.sat_solver.specs.Turning.{IsState, InConflict, IsAtRest, IsUnsatisfied, Propagates, IsSameTask, Turns, Finds};
ghost use Rattle.unit_propagation.specs.Trails.{IsFull};

use crate::analyze::Resolvent;
use crate::learn::{assert_learned, restart};
use crate::load::load;
use crate::restarts::Restarts;
use cnf::{Cnf, Lit, Log, Step};
use decision_order::{Activity, next_literal};
use rh_base::{NoMemory, Seq};
use std::alloc::Global;
use unit_propagation::{Propagator, Store, Trail, Watches};

/// What the search finds.
#[derive(Debug, Drop)]
pub enum Found {
    /// The values of the variables, in their order.
    Model(Seq<bool>),
    /// A log that ends in the empty clause.
    Refuted(Log),
    /// A log of as many steps as the budget allows.
    Spent(Log),
}

/// How a turn of the search ends.
#[derive(Clone, Copy)]
pub(crate) enum Turn {
    Goes,
    /// Each variable is set, and no clause is false.
    Full,
    /// The log ends in the empty clause.
    Refuted,
    Spent,
}

/// The formula, which is lent, and how many clauses may be learned; the clause database, the trail and the watch lists, which
/// propagation works on; the resolvent of conflict analysis; what decisions and restarts go by; and the log of what was learned.
#[derive(Drop)]
pub(crate) struct Solver<'f> {
    formula: &'f Cnf,
    budget: u64,
    propagator: Propagator,
    resolvent: Resolvent,
    activity: Activity,
    restarts: Restarts,
    steps: Seq<Step>,
}

/// The values of the variables.
fn values(alloc: Global, trail: &Trail, vars: usize) -> Result<Seq<bool>, NoMemory>
    requires vars { vars ≡ trail.now.vars }
    requires small { vars ≤ 2 ^ 31 }
    ensures long { IfOk result (λ m. length m ≡ vars) }
    ensures is { IfOk result (λ m. (i : ℕ) → i < vars → slice_index_or m i false ≡ has trail.now.literals (2 * i)) }
{
    let mut values = Vec::new(alloc);
    'vars: for var in 0..vars {
        let holds = trail.holds((2 * var) as u32);
        values.push(holds)?;
    }
    Ok(Seq::from_vec(values))
}

impl<'f> Solver<'f> {
    /// No clause is taken in, and nothing is set.
    fn new(
        alloc: Global,
        formula: &'f Cnf,
        firsts: &[Lit],
        budget: u64,
    ) -> Result<Solver<'f>, NoMemory>
        ensures formula { IfOk result (λ s. s.formula.now ≡ formula.now) }
        ensures budget { IfOk result (λ s. s.budget ≡ budget) }
        ensures loaded { IfOk result (λ s. IsLoaded formula.now 0 s.propagator.store s.propagator.trail s.propagator.watches) }
        ensures blank { IfOk result (λ s. IsBlank formula.now.vars s.resolvent.seen.items) }
        ensures steps { IfOk result (λ s. s.steps ≡ []) }
    {
        let vars = formula.vars() as usize;
        let store = Store::new(alloc)?;
        let trail = Trail::new(alloc, vars)?;
        let watches = Watches::new(alloc, 2 * vars)?;
        let resolvent = Resolvent::new(alloc, vars)?;
        let activity = Activity::new(alloc, vars, firsts)?;
        Ok(Solver {
            formula,
            budget,
            propagator: Propagator {
                store,
                trail,
                watches,
            },
            resolvent,
            activity,
            restarts: Restarts::new(),
            steps: Seq::new(alloc),
        })
    }

    /// Sets what follows, until nothing more does or all literals of some clause are false.
    fn propagate(&mut self) -> Result<Option<u32>, NoMemory>
        requires state { IsState self.old }
        ensures task { OnOk result (IsSameTask self.old self.new) }
        ensures propagates { IfOk result (Propagates self.new) }
        ensures steps { OnOk result (self.new.steps ≡ self.old.steps) }
        ensures long { OnOk result (length self.old.propagator.trail.literals ≤ length self.new.propagator.trail.literals) }
    {
        self.propagator.propagate()
    }

    /// Learns from a clause that is false.
    fn learn(&mut self, alloc: Global, conflict: u32) -> Result<(), NoMemory>
        requires conflict { InConflict self.old conflict }
        requires decided { 0 < length self.old.propagator.trail.starts }
        ensures task { OnOk result (IsSameTask self.old self.new) }
        ensures state { OnOk result (IsState self.new) }
        ensures more { OnOk result (length self.new.steps ≡ length self.old.steps + 1) }
    {
        let (literals, step) = self.resolvent.derive(alloc, &self.propagator, conflict)?;
        assert_learned(
            &mut self.propagator.store,
            &mut self.propagator.trail,
            &mut self.propagator.watches,
            &literals,
            conflict,
        )?;
        self.steps.push(step)?;
        Ok(())
    }

    /// Ends the log with the empty clause, which follows from a clause that is false ahead of all decisions.
    fn refute(&mut self, alloc: Global, conflict: u32) -> Result<(), NoMemory>
        requires conflict { InConflict self.old conflict }
        requires level { self.old.propagator.trail.starts ≡ [] }
        ensures task { OnOk result (IsSameTask self.old self.new) }
        ensures accepted { OnOk result (IsAccepted self.new.formula.now self.new.steps) }
        ensures more { OnOk result (length self.new.steps ≡ length self.old.steps + 1) }
    {
        let step = self
            .resolvent
            .derive_empty(alloc, &self.propagator, conflict)?;
        self.steps.push(step)?;
        Ok(())
    }

    /// Whether there are no decisions.
    fn is_ground(&self) -> bool
        ensures yes { result ≡ true → self.now.propagator.trail.starts ≡ [] }
        ensures not { result ≡ false → 0 < length self.now.propagator.trail.starts }
    {
        self.propagator.trail.level() == 0
    }

    /// After a clause was learned: restarts, where that is due, and gives the variables that are unassigned again to the heap.
    fn restart(&mut self) -> Result<(), NoMemory>
        requires state { IsState self.old }
        ensures task { OnOk result (IsSameTask self.old self.new) }
        ensures state { OnOk result (IsState self.new) }
        ensures steps { OnOk result (self.new.steps ≡ self.old.steps) }
    {
        let due = self.restarts.is_due();
        restart(
            &self.propagator.store,
            &mut self.propagator.trail,
            &self.propagator.watches,
            due,
        );
        self.activity.release(self.propagator.trail.dropped())?;
        self.activity.look_again();
        self.propagator.trail.forget_dropped();
        Ok(())
    }

    /// After a clause became false: learns from it, or ends.
    fn resolve(&mut self, alloc: Global, conflict: u32) -> Result<Turn, NoMemory>
        requires conflict { InConflict self.old conflict }
        requires below { length self.old.steps < self.old.budget }
        ensures task { OnOk result (IsSameTask self.old self.new) }
        ensures turns { IfOk result (Turns self.old self.new) }
    {
        let _long = self.propagator.trail.len();
        let ground = self.is_ground();
        if ground {
            self.refute(alloc, conflict)?;
            return Ok(Turn::Refuted);
        }
        self.learn(alloc, conflict)?;
        self.activity.raise(self.resolvent.met());
        if (self.steps.len() as u64) < self.budget {
            self.restart()?;
            return Ok(Turn::Goes);
        }
        if self.budget == u64::MAX {
            return Err(NoMemory);
        }
        Ok(Turn::Spent)
    }

    /// Decides, where propagation has come to its end; whether there was something to decide.
    fn decide(&mut self) -> Result<bool, NoMemory>
        requires rest { IsAtRest self.old }
        ensures task { OnOk result (IsSameTask self.old self.new) }
        ensures steps { OnOk result (self.new.steps ≡ self.old.steps) }
        ensures state { OnOk result (IsState self.new) }
        ensures more { IfOk result (λ b. b ≡ true
            → length self.new.propagator.trail.literals ≡ length self.old.propagator.trail.literals + 1) }
        ensures full { IfOk result (λ b. b ≡ false → IsAtRest self.new × IsFull self.new.propagator.trail) }
    {
        let vars = self.formula.vars() as usize;
        match next_literal(&self.propagator.trail, vars, &mut self.activity) {
            Some(literal) => {
                self.propagator.trail.decide(literal)?;
                Ok(true)
            }
            None => Ok(false),
        }
    }

    /// One turn: propagates, and then learns or decides.
    fn turn(&mut self, alloc: Global) -> Result<Turn, NoMemory>
        requires state { IsState self.old }
        requires below { length self.old.steps < self.old.budget }
        ensures task { OnOk result (IsSameTask self.old self.new) }
        ensures turns { IfOk result (Turns self.old self.new) }
    {
        let _long = self.propagator.trail.len();
        match self.propagate()? {
            Some(conflict) => self.resolve(alloc, conflict),
            None => {
                let decided = self.decide()?;
                if decided {
                    return Ok(Turn::Goes);
                }
                Ok(Turn::Full)
            }
        }
    }

    /// The log so far.
    fn into_log(self) -> Log
        ensures { result.steps ≡ self.entry.steps }
    {
        let Solver {
            formula: _,
            budget: _,
            propagator: _,
            resolvent: _,
            activity: _,
            restarts: _,
            steps,
        } = self;
        Log { steps }
    }

    /// The values of the variables, once each has one.
    fn model(&self, alloc: Global) -> Result<Seq<bool>, NoMemory>
        requires rest { IsAtRest self.now }
        requires full { IsFull self.now.propagator.trail }
        ensures long { IfOk result (λ m. length m ≡ self.now.formula.now.vars) }
        ensures satisfies { IfOk result (λ m. Satisfies (valuation_of m) self.now.formula.now.clauses) }
    {
        let model = values(alloc, &self.propagator.trail, self.formula.vars() as usize)?;
        Ok(model)
    }

    /// Turns, until something is found.
    fn search(mut self, alloc: Global) -> Result<Found, NoMemory>
        requires state { IsState self }
        requires below { length self.steps < self.budget }
        ensures { IfOk result (Finds self.entry.formula.now self.entry.budget) }
    {
        let _vars = self.formula.vars();
        'turns: loop {
            match self.turn(alloc)? {
                Turn::Goes => {}
                Turn::Full => return Ok(Found::Model(self.model(alloc)?)),
                Turn::Refuted => return Ok(Found::Refuted(self.into_log())),
                Turn::Spent => return Ok(Found::Spent(self.into_log())),
            }
        }
    }

    /// Takes the formula in; the clause that is false ahead of all decisions, if one is.
    fn load(&mut self, alloc: Global) -> Result<Option<u32>, NoMemory>
        requires loaded { IsLoaded self.old.formula.now 0 self.old.propagator.store self.old.propagator.trail self.old.propagator.watches }
        requires blank { IsBlank self.old.formula.now.vars self.old.resolvent.seen.items }
        requires steps { self.old.steps ≡ [] }
        ensures task { OnOk result (IsSameTask self.old self.new) }
        ensures steps { OnOk result (self.new.steps ≡ []) }
        ensures state { IfOk result (λ r. r ≡ None → IsState self.new) }
        ensures broken { IfOk result (λ r. (m : ℕ) → r ≡ Some m → IsUnsatisfied self.new m) }
    {
        load(
            alloc,
            self.formula,
            &mut self.propagator.store,
            &mut self.propagator.trail,
            &mut self.propagator.watches,
        )
    }

    /// Begins the log with the empty clause, which follows from a clause of the formula that is false ahead of all decisions.
    fn refute_at_once(&mut self, alloc: Global, conflict: u32) -> Result<(), NoMemory>
        requires unsatisfied { IsUnsatisfied self.old conflict }
        requires steps { self.old.steps ≡ [] }
        ensures task { OnOk result (IsSameTask self.old self.new) }
        ensures accepted { OnOk result (IsAccepted self.new.formula.now self.new.steps) }
        ensures one { OnOk result (length self.new.steps ≡ 1) }
    {
        let step = self
            .resolvent
            .derive_empty(alloc, &self.propagator, conflict)?;
        self.steps.push(step)?;
        Ok(())
    }
}

/// Searches for a model of the formula. It is found, or the formula is refuted by a log that is accepted, or the log has as
/// many steps as the budget allows; a budget of `u64::MAX` stands for none.
pub fn solve(alloc: Global, cnf: &Cnf, budget: u64) -> Result<Found, NoMemory>
    requires { 1 ≤ budget }
    ensures { IfOk result (Finds cnf.now budget) }
{
    solve_by(alloc, cnf, &[], budget)
}

/// The same, where these literals are tried ahead of the others, one after the other. Only how long it takes depends on them.
pub fn solve_by(alloc: Global, cnf: &Cnf, firsts: &[Lit], budget: u64) -> Result<Found, NoMemory>
    requires { 1 ≤ budget }
    ensures { IfOk result (Finds cnf.now budget) }
{
    let mut solver = Solver::new(alloc, cnf, firsts, budget)?;
    match solver.load(alloc)? {
        Some(conflict) => {
            solver.refute_at_once(alloc, conflict)?;
            Ok(Found::Refuted(solver.into_log()))
        }
        None => solver.search(alloc),
    }
}
