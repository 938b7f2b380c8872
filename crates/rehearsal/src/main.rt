//! Says of a manifest whether it is deterministic and idempotent.
#![tactic(auto)]

use rehearsal_core::{out_of_memory, rehearse, tell_usage};
use rh_base::{FileShelf, StdSink};
use std::env;
use std::io::ErrorKind;
use std::process::ExitCode;

fn main(rt: HostRuntime) -> ExitCode {
    let alloc = rt.alloc();
    let mut out = StdSink::new(rt.stdout());
    let mut err = StdSink::new(rt.stderr());
    let args = match env::args(&rt) {
        Ok(args) => args,
        Err(fault) => {
            if fault.kind() == ErrorKind::OutOfMemory {
                return ExitCode::from(out_of_memory(&mut err));
            }
            // A word that isn't UTF-8 is no word of the command.
            return ExitCode::from(tell_usage(&mut err));
        }
    };
    let Ok(words) = args.skip(1).collect::<Vec<String>>(alloc) else {
        return ExitCode::from(out_of_memory(&mut err));
    };
    let mut shelf = FileShelf::new(rt);
    ExitCode::from(rehearse(alloc, &words, &mut shelf, &mut out, &mut err))
}
