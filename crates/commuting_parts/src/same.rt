//! Whether two programs are the same, step by step.

ghost use Rattle.std.specs.Prelude.{◌≡◌, IsTrue};
ghost use Rattle.fs_lang.specs.Meaning.{test_of, program_of, programs_in};

use fs_lang::{Path, Program, Test};
use rh_base::Text;

#[tactic(auto, using(fs_semantics::proofs::Trees::path_eq_same))]
pub(crate) fn same_path(p: &Path, q: &Path) -> bool
    ensures { IsTrue result → p.now ≡ q.now }
{
    p == q
}

/// Whether the two have one path and one text.
fn same_entry(p: &Path, a: &Text, q: &Path, b: &Text) -> bool
    ensures path { IsTrue result → p.now ≡ q.now }
    ensures text { IsTrue result → a.now ≡ b.now }
{
    let path = same_path(p, q);
    let text = a.as_str() == b.as_str();
    path && text
}

/// Whether the two are one pair of paths.
fn same_paths(p: &Path, q: &Path, r: &Path, s: &Path) -> bool
    ensures first { IsTrue result → p.now ≡ r.now }
    ensures second { IsTrue result → q.now ≡ s.now }
{
    let first = same_path(p, r);
    let second = same_path(q, s);
    first && second
}

#[cycle(tests)]
fn same_tests(a: &Test, b: &Test, c: &Test, d: &Test) -> bool
    ensures first { IsTrue result → test_of a.now ≡ test_of c.now }
    ensures second { IsTrue result → test_of b.now ≡ test_of d.now }
{
    let first = same_test(a, c);
    let second = same_test(b, d);
    first && second
}

/// Whether the two are one test.
#[cycle(tests)]
#[tactic(auto, using(fs_lang::specs::Meaning::test_of_not))]
pub(crate) fn same_test(a: &Test, b: &Test) -> bool
    ensures { IsTrue result → test_of a.now ≡ test_of b.now }
{
    match (a, b) {
        (Test::True, Test::True) | (Test::False, Test::False) => true,
        (Test::Not(a), Test::Not(b)) => same_test(a.get(), b.get()),
        (Test::And(a, b), Test::And(c, d)) => same_tests(a.get(), b.get(), c.get(), d.get()),
        (Test::Or(a, b), Test::Or(c, d)) => same_tests(a.get(), b.get(), c.get(), d.get()),
        (Test::IsFile(p), Test::IsFile(q)) => same_path(p, q),
        (Test::IsLink(p), Test::IsLink(q)) => same_path(p, q),
        (Test::IsDir(p), Test::IsDir(q)) => same_path(p, q),
        (Test::IsEmpty(p), Test::IsEmpty(q)) => same_path(p, q),
        (Test::IsNone(p), Test::IsNone(q)) => same_path(p, q),
        _ => false,
    }
}

#[cycle(programs)]
fn same_choice(a: &Program, b: &Program, c: &Program, d: &Program) -> bool
    ensures first { IsTrue result → program_of a.now ≡ program_of c.now }
    ensures second { IsTrue result → program_of b.now ≡ program_of d.now }
{
    let first = same_program(a, c);
    let second = same_program(b, d);
    first && second
}

/// Whether the two are one list of steps.
#[cycle(programs)]
pub(crate) fn same_steps(es: &[Program], fs: &[Program]) -> bool
    ensures { IsTrue result → programs_in es.now ≡ programs_in fs.now }
{
    let mut left = es;
    let mut right = fs;
    while let Some((e, more)) = left.split_first() {
        let Some((f, others)) = right.split_first() else {
            return false;
        };
        if !same_program(e, f) {
            return false;
        }
        left = more;
        right = others;
    }
    right.is_empty()
}

/// Whether the two are one program.
#[cycle(programs)]
#[tactic(auto, using(fs_lang::specs::Meaning::program_of_steps))]
pub(crate) fn same_program(e: &Program, f: &Program) -> bool
    ensures { IsTrue result → program_of e.now ≡ program_of f.now }
{
    match (e, f) {
        (Program::Id, Program::Id) | (Program::Err, Program::Err) => true,
        (Program::Mkdir(p), Program::Mkdir(q)) => same_path(p, q),
        (Program::Creat(p, a), Program::Creat(q, b)) => same_entry(p, a, q, b),
        (Program::Link(p, a), Program::Link(q, b)) => same_entry(p, a, q, b),
        (Program::Rm(p), Program::Rm(q)) => same_path(p, q),
        (Program::Cp(p, q), Program::Cp(r, s)) => same_paths(p, q, r, s),
        (Program::Steps(es), Program::Steps(fs)) => same_steps(es.as_slice(), fs.as_slice()),
        (Program::If(a, e, f), Program::If(b, g, h)) => {
            same_test(a, b) && same_choice(e.get(), f.get(), g.get(), h.get())
        }
        _ => false,
    }
}
