//! The states in which resources are to be.

use fs_lang::Path;
use rh_base::Text;

/// What `ensure` says.
#[derive(Clone, Copy, Debug, PartialEq, Eq)]
pub enum Ensure {
    /// It isn't given.
    Unsaid,
    Present,
    File,
    Directory,
    Link,
    Absent,
    Running,
    Stopped,
}

/// What `ensure` and `enable` say.
#[derive(Clone, Copy, Debug, PartialEq, Eq)]
pub struct States {
    pub ensure: Ensure,
    pub enable: Option<bool>,
}

/// What a file is to be.
#[derive(Drop)]
pub enum FileState {
    /// Nothing is said of it.
    Unsaid,
    Present,
    File,
    Content(Text),
    /// A copy of the file at a path.
    Copied(Path),
    /// What an address has.
    Fetched(Text),
    Folder,
    Absent,
    /// A link with this target.
    Link(Text),
}

/// The files of which any one says that a service is installed.
#[derive(Drop)]
pub struct Units {
    pub own: Path,
    pub lib: Path,
    pub usr: Path,
    pub init: Path,
}
