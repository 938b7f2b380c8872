//! Requests, and contents by role.

ghost use Rattle.std.specs.Prelude.{◌≡◌};
ghost use Rattle.std.specs.Option.{option_map};
ghost use Rattle.command_line.specs.Table.{load_of, input_kind};

use crate::size::Size;
use crate::table::{Ask, InputKind, Role};
use host_limits::Limits;
use rh_base::{Seq, Text};
use wanted_entry::Wanted;

/// A content for each file that there is, with its role, in the order of the roles: a name, what was read, or bytes.
pub type ByRole<T> = Seq<(Role, T)>;

/// What is asked about.
#[derive(Debug, Drop)]
pub enum Source {
    /// The files of these names, of which one is the input or a compiled catalog.
    Files(ByRole<Text>),
    /// The workload of this size, with its listing.
    Workload(Size),
}

/// What is asked for and about what, the node's name, if the words give one, how many conflicts a question has, how large what is
/// asked about may be, and the entry that is wanted, where one may be.
#[derive(Debug, Drop)]
pub struct Request {
    pub ask: Ask,
    pub node: Option<Text>,
    pub conflicts: Option<u64>,
    pub limits: Limits,
    pub wanted: Option<Wanted>,
    pub source: Source,
}

/// The content of the file of a role, if there is one.
pub fn given<T>(files: &[(Role, T)], role: Role) -> Option<&T>
    ensures { option_map (λ x. x.now) result ≡ load_of role files.now }
{
    for file in files {
        if file.0.is(role) {
            return Some(&file.1);
        }
    }
    None
}

/// What the input is, where files are named: a compiled catalog where one is, and else what is asked about.
pub fn input_kind<T>(ask: Ask, files: &[(Role, T)]) -> InputKind
    ensures { result ≡ input_kind ask files.now }
{
    match given(files, Role::Compiled) {
        Some(_) => InputKind::Compiled,
        None => ask.input(),
    }
}
