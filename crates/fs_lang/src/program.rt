//! Tests and programs of the language of changes, and what stands at a path.

use crate::Path;
use rh_base::{Boxed, Seq, Text};

/// What stands at a path: a folder, a file with its content, or a symbolic link with its target.
#[derive(Debug, Drop)]
pub enum Entry {
    Folder,
    File(Text),
    Link(Text),
}

/// A question about a file tree.
#[derive(Debug, Drop)]
pub enum Test {
    True,
    False,
    Not(Boxed<Test>),
    And(Boxed<Test>, Boxed<Test>),
    Or(Boxed<Test>, Boxed<Test>),
    IsFile(Path),
    IsLink(Path),
    IsDir(Path),
    IsEmpty(Path),
    IsNone(Path),
}

/// A program of the language of changes to a file tree.
#[derive(Debug, Drop)]
pub enum Program {
    Id,
    Err,
    Mkdir(Path),
    Creat(Path, Text),
    Link(Path, Text),
    Rm(Path),
    Cp(Path, Path),
    Steps(Seq<Program>),
    If(Test, Boxed<Program>, Boxed<Program>),
}
