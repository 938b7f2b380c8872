//! The weight of programs.

ghost use Rattle.std.specs.Prelude.{◌≡◌, ◌+◌, ◌*◌, map, IfOk};
ghost use Rattle.fs_lang.specs.Meaning.{test_of, program_of, programs_in};
ghost use Rattle.size_limits.specs.Weights.{test_work, work, steps_work, capped, Weighs, count_in};

use crate::counts::{children_of, count_of};
use fs_lang::{Path, Program, Test};
use path_domain::named;
use rh_base::NoMemory;
use std::alloc::Global;
use std::collections::BTreeMap;

/// One more.
fn one(sum: u64) -> u64
    ensures { result ≡ capped (sum + 1) }
{
    sum.saturating_add(1)
}

/// One more, and the children of a path.
fn with_children(p: &Path, counts: &BTreeMap<Path, u64>, sum: u64) -> u64
    ensures { result ≡ capped (sum + (1 + count_in counts.now p.now)) }
{
    sum.saturating_add(1).saturating_add(count_of(counts, p))
}

#[cycle(asked)]
#[tactic(auto, using(fs_lang::specs::Meaning::test_of_not, fs_lang::specs::Meaning::test_of_and, fs_lang::specs::Meaning::test_of_or))]
fn weigh_test(test: &Test, counts: &BTreeMap<Path, u64>, sum: u64) -> u64
    ensures { result ≡ capped (sum + test_work (count_in counts.now) (test_of test.now)) }
{
    match test {
        Test::True | Test::False => sum,
        Test::Not(a) => weigh_test(a.get(), counts, sum),
        Test::And(a, b) => weigh_both(a.get(), b.get(), counts, sum),
        Test::Or(a, b) => weigh_both(a.get(), b.get(), counts, sum),
        Test::IsEmpty(p) => with_children(p, counts, sum),
        Test::IsFile(_) | Test::IsLink(_) | Test::IsDir(_) | Test::IsNone(_) => one(sum),
    }
}

#[cycle(asked)]
fn weigh_both(a: &Test, b: &Test, counts: &BTreeMap<Path, u64>, sum: u64) -> u64
    ensures { result ≡ capped (sum + (test_work (count_in counts.now) (test_of a.now) + test_work (count_in counts.now) (test_of b.now))) }
{
    weigh_test(b, counts, weigh_test(a, counts, sum))
}

#[cycle(weighed)]
#[tactic(auto, using(fs_lang::specs::Meaning::program_of_steps, fs_lang::specs::Meaning::program_of_if))]
fn weigh(program: &Program, counts: &BTreeMap<Path, u64>, sum: u64) -> u64
    ensures { result ≡ capped (sum + work (count_in counts.now) (program_of program.now)) }
{
    match program {
        Program::Id | Program::Err => sum,
        Program::Mkdir(_) | Program::Creat(_, _) | Program::Link(_, _) | Program::Cp(_, _) => {
            one(sum)
        }
        Program::Rm(p) => with_children(p, counts, sum),
        Program::Steps(es) => weigh_all(es.as_slice(), counts, sum),
        Program::If(a, e, f) => weigh_choice(a, e.get(), f.get(), counts, sum),
    }
}

#[cycle(weighed)]
fn weigh_all(programs: &[Program], counts: &BTreeMap<Path, u64>, sum: u64) -> u64
    ensures { result ≡ capped (sum + steps_work (count_in counts.now) (programs_in programs.now)) }
{
    let mut total = sum;
    for program in programs {
        total = weigh(program, counts, total);
    }
    total
}

#[cycle(weighed)]
fn weigh_choice(a: &Test, e: &Program, f: &Program, counts: &BTreeMap<Path, u64>, sum: u64) -> u64
    ensures { result ≡ capped
        (sum + (test_work (count_in counts.now) (test_of a.now) +
        (work (count_in counts.now) (program_of e.now) + work (count_in counts.now) (program_of f.now)))) }
{
    let asked = weigh_test(a, counts, sum);
    weigh(f, counts, weigh(e, counts, asked))
}

/// Twice as many, times the work.
fn product(n: u64, work: u64) -> u64
    ensures { result ≡ capped (capped (n * 2) * work) }
{
    n.saturating_mul(2).saturating_mul(work)
}

/// How much work the questions about these programs are: twice their number, times the work of all, and the greatest u64
/// where that is more.
pub fn weight(alloc: Global, programs: &[Program]) -> Result<u64, NoMemory>
    ensures { IfOk result (Weighs (map program_of programs.now)) }
{
    let paths = named(alloc, programs)?;
    let counts = children_of(alloc, &paths)?;
    let work = weigh_all(programs, &counts, 0);
    Ok(product(programs.len() as u64, work))
}
