//! Printing what the solver answers, as solvers in competitions do: an `s` line, and a `v` line for each variable with its value.
//! Where a proof is asked for, a refutation is printed as a proof text instead.

ghost use Rattle.std.specs.Prelude.{◌≡◌, ◌<◌, ◌++◌, false, length, slice_index_or, IfOk, OnOk};
ghost use Rattle.dimacs.specs.Dimacs.{value_line, value_lines, model_text, refutation_text, IsAnswer};

use cnf::{Cnf, Log, write_proof};
use rh_base::{NoMemory, Seq};
use sat_solver::{Found, solve};
use std::alloc::Global;

/// Appends the line of a variable with its value.
fn push_value(alloc: Global, out: &mut Vec<u8>, var: u64, value: bool) -> Result<(), NoMemory>
    ensures { OnOk result (out.new.items ≡ out.old.items ++ value_line var value) }
{
    let line = if value {
        format!(in alloc; "v {var}\n")?
    } else {
        format!(in alloc; "v -{var}\n")?
    };
    out.extend_from_slice(line.as_bytes())?;
    Ok(())
}

/// The value at a place.
fn value_at(values: &[bool], i: usize) -> bool
    requires { i < length values.now }
    ensures { result ≡ slice_index_or values.now i false }
{
    values[i]
}

/// Appends the lines of all variables, and the last line.
#[tactic(auto, using(crate::proofs::Lines::values_more, crate::proofs::Lines::values_end))]
fn push_values(alloc: Global, out: &mut Vec<u8>, values: &[bool]) -> Result<(), NoMemory>
    ensures { OnOk result (out.new.items ≡ out.old.items ++ value_lines 1 values.now) }
{
    for i in 0..values.len() {
        push_value(alloc, out, i as u64 + 1, value_at(values, i))?;
    }
    out.extend_from_slice(b"v 0\n")?;
    Ok(())
}

/// What is printed of a model.
fn model_text(alloc: Global, values: &[bool]) -> Result<Vec<u8>, NoMemory>
    ensures { IfOk result (λ v. v.items ≡ model_text values.now) }
{
    let mut out = Vec::new(alloc);
    out.extend_from_slice(b"s SATISFIABLE\n")?;
    push_values(alloc, &mut out, values)?;
    Ok(out)
}

/// What is printed of a refutation.
fn refutation_text(
    alloc: Global,
    cnf: &Cnf,
    log: &Log,
    with_proof: bool,
) -> Result<Vec<u8>, NoMemory>
    ensures { IfOk result (λ v. v.items ≡ refutation_text cnf.now log.now.steps with_proof) }
{
    let mut out = Vec::new(alloc);
    if with_proof {
        out.extend_from_slice(b"proofs 1\n")?;
        write_proof(cnf, log, &mut out)?;
    } else {
        out.extend_from_slice(b"s UNSATISFIABLE\n")?;
    }
    Ok(out)
}

/// What is printed about a formula.
pub fn answer(alloc: Global, cnf: &Cnf, with_proof: bool) -> Result<Seq<u8>, NoMemory>
    ensures { IfOk result (IsAnswer cnf.now with_proof) }
{
    match solve(alloc, cnf, u64::MAX)? {
        Found::Model(values) => Ok(Seq::from_vec(model_text(alloc, values.as_slice())?)),
        Found::Refuted(log) => Ok(Seq::from_vec(refutation_text(alloc, cnf, &log, with_proof)?)),
        Found::Spent(_) => unreachable!(),
    }
}
