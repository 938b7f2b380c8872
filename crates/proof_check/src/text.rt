//! The texts of proofs, read: formulas in DIMACS form, each with its log (what `write_proof` of `cnf` writes). A text is words with
//! blanks between them, and a line whose first word is `c` is a comment. Reading is recursive descent without backtracking: each
//! function takes what it reads from the front of the words that are left.

ghost use Rattle.std.specs.Prelude.{◌≡◌, ◌≢◌, ◌≤◌, ◌<◌, ◌+◌, ◌^◌, ◌++◌, ◌∷◌, [], ℕ, List, Some, slice_get, true, false, take, drop, length, map, codes, OnOk, IfOk, IfErr, MatchResult};
ghost use Rattle.std.specs.Bool.{OnTrue, OnFalse};
ghost use Rattle.std.specs.List.{AllByRecursion, flat_map};
ghost use Rattle.proof_check.specs.WordsLeft.{other_lines, line_words, words_left, is_inner, EndsWord};
ghost use Rattle.proof_check.specs.Refuted.{Refutation, refutation};
ghost use Rattle.proof_check.specs.Reading.{digits_behind, number_in};
ghost use Rattle.proof_check.specs.WordReading.{Takes, word_is, count_in, within, plain, unsigned_in, negative_in, signed, literal_in, pivot_in, lits_in, links_in, formula_of, formula_in, step_in, steps_in, log_in, block_in, blocks_in, proofs_in};
ghost use Rattle.rh_base.specs.Reading.{Gives};
ghost use Rattle.proof_check.specs.ProofWords.{IsProofText};
ghost use Rattle.rh_base.specs.Refused.{IfRefused, IsRefusal};

use cnf::{Clause, Cnf, Link, Lit, Log, Step};
use rh_base::{Fault, Misread, NoMemory, Seq};
use std::alloc::Global;
use std::marker::Model;

/// Whether a byte stands in a word.
fn is_inner(b: u8) -> bool
    ensures { result ≡ is_inner b }
{
    !(b == b' ' || b == b'\t' || b == b'\r' || b == b'\n')
}

/// The words that are left of a text, of which `fresh` says that no word of its first line was read.
#[derive(Drop)]
struct Words<'t> {
    rest: &'t [u8],
    fresh: bool,
}

impl<'t> Model for Words<'t> {
    ghost use Rattle.std.specs.Prelude.{List};
    ghost use Rattle.cnf.specs.ProofText.{Word};
    ghost use Rattle.proof_check.specs.WordsLeft.{words_left};

    ghost Value = { List Word };

    ghost view = { λ w. words_left w.fresh w.rest.now };
}

/// What is behind the first line.
#[tactic(auto, using(crate::proofs::WordLaws::past_feed))]
fn past_line(text: &[u8]) -> &[u8]
    ensures words { words_left true result.now ≡ flat_map line_words (other_lines text.now) }
    ensures shorter { length result.now ≤ length text.now }
{
    let mut rest = text;
    while let Some((b, tail)) = rest.split_first() {
        rest = tail;
        if *b == b'\n' {
            return rest;
        }
    }
    rest
}

/// How many bytes a word has with which the text begins.
fn word_length(text: &[u8]) -> usize
    ensures within { result ≤ length text.now }
    ensures inner { AllByRecursion (λ b. is_inner b ≡ true) (take result text.now) }
    ensures ends { EndsWord (drop result text.now) }
{
    for (n, b) in text.iter().enumerate() {
        if !is_inner(*b) {
            return n;
        }
    }
    text.len()
}

/// The word with which the text begins, and what is behind it.
fn cut_word(text: &[u8]) -> (&[u8], &[u8])
    requires { (b : ℕ) → slice_get text.now 0 ≡ Some b → is_inner b ≡ true }
    ensures parts { text.now ≡ result.0.now ++ result.1.now }
    ensures some { 0 < length text.now → 0 < length result.0.now }
    ensures inner { AllByRecursion (λ b. is_inner b ≡ true) result.0.now }
    ensures ends { EndsWord result.1.now }
{
    text.split_at(word_length(text))
}

/// Whether a word begins a line that doesn't count.
fn is_comment(word: &[u8]) -> bool
    ensures yes { OnTrue result (word.now ≡ 99 ∷ []) }
    ensures no { OnFalse result (word.now ≢ 99 ∷ []) }
{
    match word {
        [b] => *b == b'c',
        _ => false,
    }
}

/// The text from its next word on that counts, and whether the line is fresh there.
#[tactic(auto, using(crate::proofs::WordLaws::left_feed, crate::proofs::WordLaws::left_blank))]
fn to_word(text: &[u8], fresh: bool) -> (&[u8], bool)
    ensures words { words_left result.1 result.0.now ≡ words_left fresh text.now }
    ensures inner { (b : ℕ) → slice_get result.0.now 0 ≡ Some b → is_inner b ≡ true }
    ensures shorter { length result.0.now ≤ length text.now }
{
    let mut rest = text;
    let mut fresh = fresh;
    while let Some((b, tail)) = rest.split_first() {
        if *b == b'\n' {
            rest = tail;
            fresh = true;
            continue;
        }
        if is_inner(*b) {
            return (rest, fresh);
        }
        rest = tail;
    }
    (rest, fresh)
}

impl<'t> Words<'t> {
    /// The next word; the empty one where none is left.
    #[tactic(auto, using(crate::proofs::WordLaws::left_comment, crate::proofs::WordLaws::left_word, crate::proofs::WordLaws::left_none))]
    fn next(&mut self) -> &'t [u8]
        ensures some { 0 < length result.now → self.old ≡ result.now ∷ self.new }
        ensures none { length result.now ≡ 0 → self.old ≡ [] }
    {
        let mut rest = self.rest;
        let mut fresh = self.fresh;
        loop {
            let (start, first) = to_word(rest, fresh);
            let (word, behind) = cut_word(start);
            if word.is_empty() || !(first && is_comment(word)) {
                self.rest = behind;
                self.fresh = false;
                return word;
            }
            rest = past_line(behind);
            fresh = true;
        }
    }
}

/// A number in decimal digits that fits i64, without a leading zero.
fn number(word: &[u8]) -> Option<u64>
    ensures { result ≡ number_in word.now }
{
    match word {
        [] => None,
        [b'0', _, ..] => None,
        _ => digits(word),
    }
}

/// The number of decimal digits, if it fits i64.
fn digits(word: &[u8]) -> Option<u64>
    ensures { result ≡ digits_behind 0 word.now }
{
    let mut n: u64 = 0;
    for b in word {
        if *b < b'0' || *b > b'9' || n > 922_337_203_685_477_580 {
            return None;
        }
        n = 10 * n + u64::from(*b - b'0');
        if n >= 9_223_372_036_854_775_808 {
            return None;
        }
    }
    Some(n)
}

/// A literal of a formula with so many variables.
fn within(var: u64, positive: bool, vars: u64) -> Option<Lit>
    ensures { result ≡ within vars positive var }
{
    if 1 <= var && var <= vars {
        Some(Lit { var, positive })
    } else {
        None
    }
}

/// A literal, or nothing for the number 0.
fn plain(var: u64, vars: u64) -> Option<Option<Lit>>
    ensures { result ≡ plain vars var }
{
    if var == 0 {
        return Some(None);
    }
    let lit = within(var, true, vars)?;
    Some(Some(lit))
}

/// A negative literal, behind its sign.
fn negative(digits: &[u8], vars: u64) -> Option<Option<Lit>>
    ensures { result ≡ negative_in vars digits.now }
{
    let var = number(digits)?;
    let lit = within(var, false, vars)?;
    Some(Some(lit))
}

fn unsigned(digits: &[u8], vars: u64) -> Option<Option<Lit>>
    ensures { result ≡ unsigned_in vars digits.now }
{
    let var = number(digits)?;
    plain(var, vars)
}

/// A literal, or nothing for the word 0.
fn literal(word: &[u8], vars: u64) -> Option<Option<Lit>>
    ensures { result ≡ signed vars word.now }
{
    match word {
        [] => None,
        [b'-', digits @ ..] => negative(digits, vars),
        _ => unsigned(word, vars),
    }
}

fn expect(words: &mut Words<'_>, word: &[u8]) -> Result<(), Misread>
    requires { 0 < length word.now }
    ensures { Takes (λ done. done) result words.new (word_is word.now words.old) }
{
    if words.next() == word {
        Ok(())
    } else {
        Err(Misread::Form)
    }
}

fn count(words: &mut Words<'_>) -> Result<u64, Misread>
    ensures takes { Takes (λ n. n) result words.new (count_in words.old) }
    ensures shorter { IfOk result (λ n. length words.new < length words.old) }
{
    let word = words.next();
    number(word).ok_or(Misread::Form)
}

/// The next word as a literal, or nothing for the word 0.
fn next_literal(words: &mut Words<'_>, vars: u64) -> Result<Option<Lit>, Misread>
    ensures takes { Takes (λ l. l) result words.new (literal_in vars words.old) }
    ensures shorter { IfOk result (λ l. length words.new < length words.old) }
{
    let word = words.next();
    literal(word, vars).ok_or(Misread::Form)
}

/// The next word as a literal.
fn pivot(words: &mut Words<'_>, vars: u64) -> Result<Lit, Misread>
    ensures takes { Takes (λ l. l) result words.new (pivot_in vars words.old) }
    ensures shorter { IfOk result (λ l. length words.new < length words.old) }
{
    match next_literal(words, vars)? {
        Some(lit) => Ok(lit),
        None => Err(Misread::Form),
    }
}

/// Literals up to the word 0.
#[tactic(auto, using(crate::proofs::Turns::lits_goes, crate::proofs::Turns::lits_end, crate::proofs::Turns::lits_stop))]
fn literals(words: &mut Words<'_>, vars: u64, into: &mut Vec<Lit>) -> Result<(), Misread>
    ensures { Takes (λ done. into.new.items) result words.new (lits_in vars words.old) }
{
    into.clear();
    while let Some(lit) = next_literal(words, vars)? {
        into.push(lit).or(Err(Misread::Memory(NoMemory)))?;
    }
    Ok(())
}

/// Links up to the word 0.
#[tactic(auto, using(crate::proofs::Turns::links_goes, crate::proofs::Turns::links_end, crate::proofs::Turns::links_no_number, crate::proofs::Turns::links_no_pivot, crate::proofs::Turns::first_more))]
fn links(alloc: Global, words: &mut Words<'_>, vars: u64) -> Result<Seq<Link>, Misread>
    ensures { Takes (λ links. links) result words.new (links_in vars words.old) }
{
    let mut chain = Seq::new(alloc);
    loop {
        let number = count(words)?;
        if number == 0 {
            return Ok(chain);
        }
        let pivot = pivot(words, vars)?;
        chain.push(Link { number, pivot })?;
    }
}

/// The formula of so many clauses.
#[tactic(auto, using(crate::proofs::Turns::clauses_goes, crate::proofs::Turns::clauses_stop, crate::proofs::Spelling::lits_have))]
fn clauses(
    alloc: Global,
    words: &mut Words<'_>,
    vars: u64,
    count: u64,
    lits: &mut Vec<Lit>,
) -> Result<Cnf, Misread>
    requires { vars ≤ 2 ^ 31 }
    ensures { Takes (λ f. f) result words.new (formula_of vars count words.old) }
{
    let mut cnf = Cnf::new(alloc, vars)?;
    for clause in 0..count {
        literals(words, vars, lits)?;
        cnf.add(lits)?;
    }
    Ok(cnf)
}

#[tactic(auto, unfolding(crate::specs::WordReading::formula_in))]
fn formula(alloc: Global, words: &mut Words<'_>, lits: &mut Vec<Lit>) -> Result<Cnf, Misread>
    ensures { Takes (λ f. f) result words.new (formula_in words.old) }
{
    expect(words, b"p")?;
    expect(words, b"cnf")?;
    let vars = count(words)?;
    let many = count(words)?;
    if vars > 1 << 31 {
        return Err(Misread::Form);
    }
    clauses(alloc, words, vars, many, lits)
}

#[tactic(auto, unfolding(crate::specs::WordReading::step_in))]
fn step(
    alloc: Global,
    words: &mut Words<'_>,
    vars: u64,
    lits: &mut Vec<Lit>,
) -> Result<Step, Misread>
    ensures { Takes (λ step. step) result words.new (step_in vars words.old) }
{
    literals(words, vars, lits)?;
    let clause = Clause::from_lits(alloc, lits)?;
    let start = count(words)?;
    let chain = links(alloc, words, vars)?;
    Ok(Step {
        clause,
        start,
        chain,
    })
}

/// So many steps.
#[tactic(auto, using(crate::proofs::Turns::steps_goes, crate::proofs::Turns::steps_stop))]
fn steps(
    alloc: Global,
    words: &mut Words<'_>,
    vars: u64,
    count: u64,
    lits: &mut Vec<Lit>,
) -> Result<Seq<Step>, Misread>
    ensures { Takes (λ steps. steps) result words.new (steps_in vars count words.old) }
{
    let mut steps = Seq::new(alloc);
    for i in 0..count {
        steps.push(step(alloc, words, vars, lits)?)?;
    }
    Ok(steps)
}

#[tactic(auto, unfolding(crate::specs::WordReading::log_in))]
fn log(alloc: Global, words: &mut Words<'_>, vars: u64, lits: &mut Vec<Lit>) -> Result<Log, Misread>
    ensures { Takes (λ log. log.steps) result words.new (log_in vars words.old) }
{
    expect(words, b"log")?;
    let many = count(words)?;
    let steps = steps(alloc, words, vars, many, lits)?;
    Ok(Log { steps })
}

#[tactic(auto, unfolding(crate::specs::WordReading::block_in))]
fn block(alloc: Global, words: &mut Words<'_>, lits: &mut Vec<Lit>) -> Result<(Cnf, Log), Misread>
    ensures { Takes refutation result words.new (block_in words.old) }
{
    let cnf = formula(alloc, words, lits)?;
    let log = log(alloc, words, cnf.vars(), lits)?;
    Ok((cnf, log))
}

fn add(found: &mut Vec<(Cnf, Log)>, block: (Cnf, Log)) -> Result<(), NoMemory>
    ensures { OnOk result (found.new.items ≡ found.old.items ++ block ∷ []) }
{
    found.push(block)?;
    Ok(())
}

/// So many formulas, each with its log.
#[tactic(auto, using(crate::proofs::Turns::blocks_goes, crate::proofs::Turns::blocks_stop))]
fn blocks(alloc: Global, words: &mut Words<'_>, count: u64) -> Result<Vec<(Cnf, Log)>, Misread>
    ensures { Takes (λ found. map refutation found.items) result words.new (blocks_in count words.old) }
{
    let mut lits = Vec::new(alloc);
    let mut found = Vec::new(alloc);
    for i in 0..count {
        let block = block(alloc, words, &mut lits)?;
        add(&mut found, block)?;
    }
    Ok(found)
}

#[tactic(auto, unfolding(crate::specs::WordReading::proofs_in))]
fn proofs(alloc: Global, bytes: &[u8]) -> Result<Vec<(Cnf, Log)>, Misread>
    ensures { Gives (λ found. map refutation found.items) result (proofs_in (words_left true bytes.now)) }
{
    let mut words = Words {
        rest: bytes,
        fresh: true,
    };
    expect(&mut words, b"proofs")?;
    let many = count(&mut words)?;
    let found = blocks(alloc, &mut words, many)?;
    if words.next().is_empty() {
        Ok(found)
    } else {
        Err(Misread::Form)
    }
}

/// The formulas and logs of a proof text.
pub fn read_proofs(alloc: Global, bytes: &[u8]) -> Result<Vec<(Cnf, Log)>, Fault>
    // what the text spells
    ensures spelled { IfOk result (λ found. IsProofText bytes.now (map refutation found.items)) }
    // Where it spells some the answer is these, unless memory runs out.
    ensures only { (ps : List Refutation) → IsProofText bytes.now ps
        → MatchResult result (λ found. map refutation found.items ≡ ps) (λ f. IfRefused f (λ r. ⊥)) }
    ensures refused { IfErr result (λ f. IfRefused f (λ r. IsRefusal 80 0 (codes "proof") r
        × ((ps : List Refutation) → IsProofText bytes.now ps → ⊥))) }
{
    match proofs(alloc, bytes) {
        Ok(found) => Ok(found),
        Err(Misread::Form) => Err(Fault::refused(alloc, 80, 0, "proof")),
        Err(Misread::Memory(m)) => Err(Fault::Memory(m)),
    }
}
