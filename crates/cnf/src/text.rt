//! The text of a formula and its log: the formula in DIMACS form (`p cnf`), and behind it a line for each step, its clause up to a 0
//! and its chain up to a 0. That is TraceCheck's format without a step's own number, and with a pivot behind each number of the
//! chain but the first.

ghost use Rattle.std.specs.Prelude.{◌≡◌, ◌+◌, ◌≤◌, [], ◌∷◌, ◌++◌, length, decimal, OnOk, OnErr};
ghost use Rattle.std.specs.List.{flat_map};
ghost use Rattle.cnf.specs.Formulas.{clause_at};
ghost use Rattle.cnf.specs.ProofText.{lit_word, clause_words, step_words, line_text, formula_lines, log_lines, proof_text};

use crate::formula::Cnf;
use crate::lit::Lit;
use crate::log::{Link, Log, Step};
use itoa::Buffer;
use rh_base::NoMemory;

/// Appends a number.
fn push_number(out: &mut Vec<u8>, n: u64) -> Result<(), NoMemory>
    ensures { OnOk result (out.new.items ≡ out.old.items ++ decimal n) }
{
    let mut buffer = Buffer::new();
    out.extend_from_slice(buffer.format(n).as_bytes())?;
    Ok(())
}

/// Appends a literal and a space.
fn push_lit(out: &mut Vec<u8>, lit: Lit) -> Result<(), NoMemory>
    ensures { OnOk result (out.new.items ≡ out.old.items ++ (lit_word lit ++ 32 ∷ [])) }
{
    if !lit.positive {
        out.push(b'-')?;
    }
    push_number(out, lit.var)?;
    out.push(b' ')?;
    Ok(())
}

/// Appends literals, each with a space.
fn push_lits(out: &mut Vec<u8>, lits: &[Lit]) -> Result<(), NoMemory>
    ensures { OnOk result (out.new.items ≡ out.old.items ++ flat_map (λ l. lit_word l ++ 32 ∷ []) lits.now) }
{
    for lit in lits {
        push_lit(out, *lit)?;
    }
    Ok(())
}

/// Appends links, each with a space.
fn push_links(out: &mut Vec<u8>, links: &[Link]) -> Result<(), NoMemory>
    ensures { OnOk result (out.new.items ≡ out.old.items ++ flat_map
        (λ k. decimal k.number ++ (32 ∷ (lit_word k.pivot ++ 32 ∷ []))) links.now) }
{
    for link in links {
        push_number(out, link.number)?;
        out.push(b' ')?;
        push_lit(out, link.pivot)?;
    }
    Ok(())
}

/// Appends the line of a step.
#[tactic(auto, using(crate::proofs::TextLaws::step_line))]
fn push_step(out: &mut Vec<u8>, step: &Step) -> Result<(), NoMemory>
    ensures { OnOk result (out.new.items ≡ out.old.items ++ line_text (step_words step.now)) }
{
    push_lits(out, step.clause.lits())?;
    out.extend_from_slice(b"0 ")?;
    push_number(out, step.start)?;
    out.push(b' ')?;
    push_links(out, step.chain.as_slice())?;
    out.extend_from_slice(b"0\n")?;
    Ok(())
}

/// Appends the line of a clause of a formula.
#[tactic(auto, using(crate::proofs::TextLaws::clause_line))]
fn push_clause(out: &mut Vec<u8>, cnf: &Cnf, i: u64) -> Result<(), NoMemory>
    requires low { 1 ≤ i }
    requires high { i ≤ length cnf.now.clauses }
    ensures { OnOk result (out.new.items ≡ out.old.items ++ line_text (clause_words (clause_at cnf.now i))) }
{
    for k in 0..cnf.length(i) {
        push_lit(out, cnf.lit(i, k))?;
    }
    out.extend_from_slice(b"0\n")?;
    Ok(())
}

/// Appends the lines of a formula.
fn push_formula(out: &mut Vec<u8>, cnf: &Cnf) -> Result<(), NoMemory>
    ensures { OnOk result (out.new.items ≡ out.old.items ++ flat_map line_text (formula_lines cnf.now.vars cnf.now.clauses)) }
{
    out.extend_from_slice(b"p cnf ")?;
    push_number(out, cnf.vars())?;
    out.push(b' ')?;
    push_number(out, cnf.count())?;
    out.push(b'\n')?;
    for i in 0..cnf.count() {
        push_clause(out, cnf, i + 1)?;
    }
    Ok(())
}

/// Appends the lines of a log.
fn push_log(out: &mut Vec<u8>, steps: &[Step]) -> Result<(), NoMemory>
    ensures { OnOk result (out.new.items ≡ out.old.items ++ flat_map line_text (log_lines steps.now)) }
{
    out.extend_from_slice(b"log ")?;
    push_number(out, steps.len() as u64)?;
    out.push(b'\n')?;
    for step in steps {
        push_step(out, step)?;
    }
    Ok(())
}

/// Appends the text of a formula and its log. Where memory is refused, nothing is appended.
pub fn write_proof(cnf: &Cnf, log: &Log, into: &mut Vec<u8>) -> Result<(), NoMemory>
    ensures ok { OnOk result (into.new.items ≡ into.old.items ++ proof_text cnf.now log.now.steps) }
    ensures err { OnErr result (into.new.items ≡ into.old.items) }
{
    let mut text = Vec::new(*into.allocator());
    push_formula(&mut text, cnf)?;
    push_log(&mut text, log.steps.as_slice())?;
    into.extend_from_slice(&text)?;
    Ok(())
}
