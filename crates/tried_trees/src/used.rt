//! What programs change, and what they ask for.

use fs_lang::{Path, Program, Test};
use rh_base::{NoMemory, Seq};
use std::alloc::Global;
use std::collections::BTreeSet;

/// The folders without which a program ends in Error at once, the folders that programs make, the files and links that they make, what
/// they remove, and the files that they ask for: those of one question together.
#[derive(Drop)]
pub(crate) struct Used {
    pub(crate) needed: BTreeSet<Path>,
    pub(crate) folders: BTreeSet<Path>,
    pub(crate) made: BTreeSet<Path>,
    pub(crate) removed: BTreeSet<Path>,
    pub(crate) asked: Seq<Seq<Path>>,
}

/// One path more, copied where it is new.
pub(crate) fn add(alloc: Global, set: &mut BTreeSet<Path>, p: &Path) -> Result<(), NoMemory> {
    if set.contains(p) {
        return Ok(());
    }
    set.insert(p.copy(alloc)?)?;
    Ok(())
}

fn ask_one(alloc: Global, p: &Path, files: &mut Seq<Path>) -> Result<(), NoMemory> {
    files.push(p.copy(alloc)?)
}

/// The files of a question.
#[cycle(question)]
#[tactic(auto, using(fs_lang::specs::Meaning::test_of_not, fs_lang::specs::Meaning::test_of_and, fs_lang::specs::Meaning::test_of_or))]
fn ask(alloc: Global, test: &Test, files: &mut Seq<Path>) -> Result<(), NoMemory> {
    match test {
        Test::True | Test::False => Ok(()),
        Test::Not(a) => ask(alloc, a.get(), files),
        Test::And(a, b) => ask_both(alloc, a.get(), b.get(), files),
        Test::Or(a, b) => ask_both(alloc, a.get(), b.get(), files),
        Test::IsFile(p) => ask_one(alloc, p, files),
        Test::IsLink(_) | Test::IsDir(_) | Test::IsEmpty(_) | Test::IsNone(_) => Ok(()),
    }
}

#[cycle(question)]
fn ask_both(alloc: Global, a: &Test, b: &Test, files: &mut Seq<Path>) -> Result<(), NoMemory> {
    ask(alloc, a, files)?;
    ask(alloc, b, files)
}

fn use_question(alloc: Global, test: &Test, used: &mut Used) -> Result<(), NoMemory> {
    let mut files = Seq::new(alloc);
    ask(alloc, test, &mut files)?;
    used.asked.push(files)
}

/// A folder without which a choice ends in Error.
fn use_need(alloc: Global, test: &Test, e: &Program, used: &mut Used) -> Result<(), NoMemory> {
    match (test, e) {
        (Test::IsDir(p), Program::Err) => add(alloc, &mut used.needed, p),
        _ => Ok(()),
    }
}

/// A copy asks for its source.
fn use_copy(alloc: Global, from: &Path, p: &Path, used: &mut Used) -> Result<(), NoMemory> {
    let mut files = Seq::new(alloc);
    ask_one(alloc, from, &mut files)?;
    used.asked.push(files)?;
    add(alloc, &mut used.made, p)
}

#[cycle(program)]
#[tactic(auto, using(fs_lang::specs::Meaning::program_of_steps, fs_lang::specs::Meaning::program_of_if))]
fn use_one(alloc: Global, program: &Program, used: &mut Used) -> Result<(), NoMemory> {
    match program {
        Program::Id | Program::Err => Ok(()),
        Program::Mkdir(p) => add(alloc, &mut used.folders, p),
        Program::Creat(p, _) => add(alloc, &mut used.made, p),
        Program::Link(p, _) => add(alloc, &mut used.made, p),
        Program::Rm(p) => add(alloc, &mut used.removed, p),
        Program::Cp(from, p) => use_copy(alloc, from, p, used),
        Program::Steps(es) => use_all(alloc, es.as_slice(), used),
        Program::If(a, e, f) => use_choice(alloc, a, e.get(), f.get(), used),
    }
}

#[cycle(program)]
fn use_all(alloc: Global, programs: &[Program], used: &mut Used) -> Result<(), NoMemory> {
    for program in programs {
        use_one(alloc, program, used)?;
    }
    Ok(())
}

#[cycle(program)]
fn use_choice(
    alloc: Global,
    a: &Test,
    e: &Program,
    f: &Program,
    used: &mut Used,
) -> Result<(), NoMemory> {
    use_question(alloc, a, used)?;
    use_need(alloc, a, f, used)?;
    use_one(alloc, e, used)?;
    use_one(alloc, f, used)
}

/// What these programs change and ask for.
pub(crate) fn used_by(alloc: Global, programs: &[Program]) -> Result<Used, NoMemory> {
    let mut used = Used {
        needed: BTreeSet::new(alloc),
        folders: BTreeSet::new(alloc),
        made: BTreeSet::new(alloc),
        removed: BTreeSet::new(alloc),
        asked: Seq::new(alloc),
    };
    use_all(alloc, programs, &mut used)?;
    Ok(used)
}
