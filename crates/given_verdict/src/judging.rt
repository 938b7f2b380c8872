//! Answering the three questions.

ghost use Rattle.std.specs.Prelude.{IfOk, IfErr};
ghost use Rattle.rh_base.specs.Refused.{IfRefused};
ghost use Rattle.plans.specs.Plans.{meant_by};
ghost use Rattle.determinism.specs.declared.first.First.TheVariants as first;
ghost use Rattle.question_terms.specs.Terms.{budget_of};
ghost use Rattle.given_verdict.specs.Limits.{HasFewPathsWith, IsLightWith, IsTooLargeWith};
ghost use Rattle.given_verdict.specs.Answers.{IsVerdictFrom};
ghost use Rattle.given_verdict.specs.Asks.{IsIdempotentOn, IsJudgedOn, IsSecondProofOn, IsVerdictOn};

use crate::again::ask_again_from;
use crate::asking::Asking;
use crate::ends::{ask_end_from, run_of};
use crate::first::first_from;
use crate::limits::check_size_with;
use crate::refuted::{order_proofs, two_proofs};
use answering::Answer;
use determinism::{First, Sure};
use plans::Plan;
use proof_check::Verified;
use question_terms::Terms;
use rh_base::{Fault, NoMemory, Seq};
use std::alloc::Global;
use verdict::{Asked, Ends, Second, Verdict};

/// Asks whether the graph succeeds, where no second run changes anything.
fn judge_same(
    alloc: Global,
    asked: &Asking<'_>,
    pruned: u32,
    sure: Sure,
    same: Verified,
) -> Result<Verdict, NoMemory>
    requires judged { IsJudgedOn asked.now (first.Sure pruned sure) }
    requires idempotent { IsIdempotentOn asked.now }
    requires same { IsSecondProofOn asked.now same.formula }
    ensures { IfOk result (IsVerdictOn asked.now) }
{
    let end = ask_end_from(alloc, asked)?;
    match end {
        Answer::Shown(witness) => Ok(Verdict::Judged {
            pruned,
            sure,
            second: Second::Same(same),
            ends: Ends::From(witness),
        }),
        Answer::Refuted(verified) => Ok(Verdict::Judged {
            pruned,
            sure,
            second: Second::Same(same),
            ends: Ends::Never(verified),
        }),
        Answer::Spent(cnf, log) => {
            let proofs = two_proofs(alloc, sure, same)?;
            Ok(Verdict::Spent {
                pruned,
                asked: Asked::Succeeds,
                cnf,
                log,
                proofs,
            })
        }
    }
}

/// Asks about second runs of a deterministic graph.
fn judge_sure(
    alloc: Global,
    asked: &Asking<'_>,
    pruned: u32,
    sure: Sure,
) -> Result<Verdict, NoMemory>
    requires judged { IsJudgedOn asked.now (first.Sure pruned sure) }
    ensures { IfOk result (IsVerdictOn asked.now) }
{
    let again = ask_again_from(alloc, asked)?;
    match again {
        Answer::Refuted(same) => judge_same(alloc, asked, pruned, sure, same),
        Answer::Shown(witness) => {
            let end = run_of(alloc, asked.plan.order, &witness)?;
            Ok(Verdict::Judged {
                pruned,
                sure,
                second: Second::Differs(witness),
                ends: Ends::From(end),
            })
        }
        Answer::Spent(cnf, log) => {
            let proofs = order_proofs(alloc, sure)?;
            Ok(Verdict::Spent {
                pruned,
                asked: Asked::Idempotent,
                cnf,
                log,
                proofs,
            })
        }
    }
}

/// Goes on from the answer to the first question.
fn judge_on(alloc: Global, asked: &Asking<'_>, answered: First) -> Result<Verdict, NoMemory>
    requires judged { IsJudgedOn asked.now answered }
    ensures { IfOk result (IsVerdictOn asked.now) }
{
    match answered {
        First::Sure { pruned, sure } => { judge_sure(alloc, asked, pruned, sure) }
        First::Differs { pruned, witness } => Ok(Verdict::NotDeterministic { pruned, witness }),
        First::Spent { pruned, cnf, log } => Ok(Verdict::Spent {
            pruned,
            asked: Asked::Deterministic,
            cnf,
            log,
            proofs: Seq::new(alloc),
        }),
    }
}

/// The verdict on a graph, however large it is.
fn judged_from(alloc: Global, asked: &Asking<'_>) -> Result<Verdict, NoMemory>
    ensures { IfOk result (IsVerdictOn asked.now) }
{
    let answered = first_from(alloc, asked)?;
    judge_on(alloc, asked, answered)
}

/// Whether the programs are deterministic from the trees in which the given folders stand; where they are, whether a second run
/// changes anything, and whether they succeed from such a tree. Each question has the whole budget. The second run begins in what
/// the first left, where a given folder may be missing. Where it changes something the first one ends in a tree, and the last question
/// isn't asked.
pub fn judge_from(alloc: Global, plan: &Plan<'_>, terms: &Terms) -> Result<Verdict, Fault>
    // It is refused exactly where the graph is too large to be asked about.
    ensures paths { IfOk result (λ judged. HasFewPathsWith terms.now.limits terms.now.given (meant_by plan.now)) }
    ensures weight { IfOk result (λ judged. IsLightWith terms.now.limits (meant_by plan.now)) }
    ensures refused { IfErr result (λ e. IfRefused e (IsTooLargeWith terms.now.limits terms.now.given (meant_by plan.now))) }
    ensures only { HasFewPathsWith terms.now.limits terms.now.given (meant_by plan.now)
        → IsLightWith terms.now.limits (meant_by plan.now) → IfErr result (λ e. IfRefused e (λ r. ⊥)) }
    ensures judged { IfOk result (IsVerdictFrom terms.now.given (meant_by plan.now) plan.now.order.now (budget_of terms.now.conflicts)) }
{
    let given = terms.given.as_slice();
    check_size_with(alloc, plan.programs, given, terms.limits)?;
    let budget = terms.budget();
    let asked = Asking {
        plan,
        given,
        budget,
    };
    let verdict = judged_from(alloc, &asked)?;
    Ok(verdict)
}
