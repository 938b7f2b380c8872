//! A question, and what comes of it.

ghost use Rattle.std.specs.Prelude.{◌≡◌, ◌≤◌, length, IfOk};
ghost use Rattle.cnf.specs.Formulas.{Satisfies, valuation_of};
ghost use Rattle.cnf.specs.Proofs.{IsAccepted};
ghost use Rattle.answering.specs.Answers.{Answers, IsReadFrom, IsRefuted};

use crate::refuting::verified;
use cnf::{Cnf, Log};
use order_encode::{Question, Witness};
use proof_check::Verified;
use rh_base::NoMemory;
use sat_solver::{Found, solve_by};
use std::alloc::Global;

/// What comes of a question.
#[derive(Drop)]
pub enum Answer {
    /// The formula has no model.
    Refuted(Verified),
    /// A model shows this.
    Shown(Witness),
    /// The budget was spent on this formula, with this log.
    Spent(Cnf, Log),
}

/// What a model tells.
fn read(alloc: Global, question: &Question, model: &[bool]) -> Result<Answer, NoMemory>
    requires long { length model.now ≡ question.now.formula.vars }
    requires model { Satisfies (valuation_of model.now) question.now.formula.clauses }
    ensures { IfOk result (IsReadFrom question.now) }
{
    let witness = question.read(alloc, model)?;
    Ok(Answer::Shown(witness))
}

/// The formula with its log, which is accepted.
fn refute(alloc: Global, cnf: Cnf, log: Log) -> Result<Answer, NoMemory>
    requires { IsAccepted cnf log.steps }
    ensures { IfOk result (IsRefuted cnf) }
{
    Ok(Answer::Refuted(verified(alloc, cnf, log)?))
}

/// Answers a question. A budget of `u64::MAX` stands for none.
pub fn answer_to(alloc: Global, question: Question, budget: u64) -> Result<Answer, NoMemory>
    requires budget { 1 ≤ budget }
    ensures { IfOk result (Answers question budget) }
{
    let found = solve_by(alloc, question.cnf(), question.firsts(), budget)?;
    match found {
        Found::Model(model) => read(alloc, &question, model.as_slice()),
        Found::Refuted(log) => refute(alloc, question.into_cnf(), log),
        Found::Spent(log) => Ok(Answer::Spent(question.into_cnf(), log)),
    }
}
