//! Solves a formula from standard input, in DIMACS form (the format of the second DIMACS challenge, 1993), by `sat_solver`. It is
//! there so that the solver can be measured beside others (bench/README.md), and prints what solvers in competitions print: an `s`
//! line, and a `v` line for each variable. With `--proof` a refutation is printed as a proof text. The status doesn't tell the answer.
#![tactic(auto)]

mod print;
mod read;

ghost use Rattle.std.specs.Prelude.{IfOk};
ghost use Rattle.dimacs.specs.Dimacs.{Answers};

use crate::print::answer;
use crate::read::read;
use rh_base::{NoMemory, Seq};
use std::alloc::Global;
use std::env;
use std::io::{BufReader, Read, Write};
use std::process::ExitCode;

/// What is printed on a text, or nothing where it spells no formula.
fn solved(alloc: Global, text: &[u8], with_proof: bool) -> Result<Option<Seq<u8>>, NoMemory>
    ensures { IfOk result (Answers text.now with_proof) }
{
    match read(alloc, text)? {
        Some(cnf) => Ok(Some(answer(alloc, &cnf, with_proof)?)),
        None => Ok(None),
    }
}

/// Whether a proof is asked for, where the words are right.
fn asks_for_proof(rt: &HostRuntime) -> Option<bool> {
    let Ok(args) = env::args(rt) else {
        return None;
    };
    let Ok(words) = args.skip(1).collect::<Vec<String>>(rt.alloc()) else {
        return None;
    };
    match words.as_slice() {
        [] => Some(false),
        [word] if word.as_str() == "--proof" => Some(true),
        _ => None,
    }
}

/// The bytes of standard input.
fn input(rt: &HostRuntime) -> Option<Vec<u8>> {
    let alloc = rt.alloc();
    let Ok(mut reader) = BufReader::new(alloc, rt.reader()) else {
        return None;
    };
    let mut text = Vec::new(alloc);
    if reader.read_to_end(&mut text).is_err() {
        return None;
    }
    Some(text)
}

/// Says why there is no answer.
fn fail(rt: &HostRuntime, line: &[u8]) -> ExitCode {
    match rt.stderr().write_all(line) {
        Ok(()) | Err(_) => ExitCode::from(1),
    }
}

fn main(rt: HostRuntime) -> ExitCode {
    let Some(with_proof) = asks_for_proof(&rt) else {
        return fail(&rt, b"dimacs: the only word is --proof\n");
    };
    let Some(text) = input(&rt) else {
        return fail(&rt, b"dimacs: the input can't be read\n");
    };
    match solved(rt.alloc(), &text, with_proof) {
        Err(_) => fail(&rt, b"dimacs: out of memory\n"),
        Ok(None) => fail(&rt, b"dimacs: the input is no DIMACS formula\n"),
        Ok(Some(out)) => match rt.stdout().write_all(out.as_slice()) {
            Ok(()) => ExitCode::from(0),
            Err(_) => fail(&rt, b"dimacs: the answer can't be written\n"),
        },
    }
}
