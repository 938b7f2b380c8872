//! The programs of resources.

use fs_lang::{Path, Program, Test};
use res_models::put;
use std::alloc::Global;
use std::test::Fail;
use test_rows::text;

fn is_motd(path: &Path) -> bool {
    match path.segments() {
        [etc, motd] => etc.as_str() == "etc" && motd.as_str() == "motd",
        _ => false,
    }
}

fn creates_motd(program: &Program) -> bool {
    match program {
        Program::Creat(path, content) => is_motd(path) && content.as_str() == "hi",
        _ => false,
    }
}

fn removes_motd(program: &Program) -> bool {
    match program {
        Program::Rm(path) => is_motd(path),
        _ => false,
    }
}

fn replaces_motd(program: &Program) -> bool {
    match program {
        Program::Steps(steps) => match steps.as_slice() {
            [first, second] => removes_motd(first) && creates_motd(second),
            _ => false,
        },
        _ => false,
    }
}

fn asks_for_motd(test: &Test) -> bool {
    match test {
        Test::IsFile(path) => is_motd(path),
        _ => false,
    }
}

/// Where /etc/motd is a file, it is replaced, and else it is made.
fn puts_motd(program: &Program) -> bool {
    match program {
        Program::If(test, over, fresh) => {
            asks_for_motd(test) && replaces_motd(over.get()) && creates_motd(fresh.get())
        }
        _ => false,
    }
}

fn motd(alloc: Global) -> Result<Program, Fail> {
    let path = Path::read(alloc, "/etc/motd")?;
    let content = text(alloc, "hi")?;
    Ok(put(alloc, &path, &content)?)
}

#[test]
fn a_file_with_content(rt: HostRuntime) -> Result<(), Fail> {
    let program = motd(rt.alloc())?;
    assert!(rt; puts_motd(&program));
    Ok(())
}
