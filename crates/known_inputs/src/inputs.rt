//! The files that a request names, as bytes and as what they say.

ghost use Rattle.std.specs.Prelude.{◌≡◌, IfOk};
ghost use Rattle.std.specs.Option.{option_map};
ghost use Rattle.known_inputs.specs.Inputs.{bytes_of, input_of, wanted_of};

use assumed_text::Assumptions;
use command_line::{ByRole, Role, given};
use fs_lang::{Path, Tree};
use given_text::Given;
use host_limits::Limits;
use pkg_listing::Listing;
use pp_data::Data;
use pp_value::Value;
use rh_base::{NoMemory, Seq, Text};
use std::alloc::Global;
use wanted_entry::Wanted;

/// The bytes of each file that a request names, the node's name, how large what is asked about may be, and the entry that is wanted,
/// if one may be.
#[derive(Drop)]
pub struct Inputs {
    pub node: Option<Text>,
    pub limits: Limits,
    pub wanted: Option<Wanted>,
    pub files: ByRole<Seq<u8>>,
}

impl Inputs {
    /// The bytes of the file of a role, if one is named.
    pub fn bytes(&self, role: Role) -> Option<&[u8]>
        ensures { option_map (λ b. b.now) result ≡ bytes_of role self.now }
    {
        match given(self.files.as_slice(), role) {
            Some(bytes) => Some(bytes.as_slice()),
            None => None,
        }
    }

    /// The entry that is wanted. Where none is given, which comes of no words that ask for one, it is any entry at the root.
    pub fn wanted(&self, alloc: Global) -> Result<Wanted, NoMemory>
        ensures { IfOk result (λ w. w ≡ wanted_of self.now) }
    {
        let Some(wanted) = &self.wanted else {
            return Ok(Wanted {
                path: Path::root(alloc)?,
                content: None,
            });
        };
        let path = wanted.path.copy(alloc)?;
        let content = match &wanted.content {
            Some(text) => Some(text.copy(alloc)?),
            None => None,
        };
        Ok(Wanted { path, content })
    }

    /// The bytes of the input; none where it isn't named.
    pub fn input(&self) -> &[u8]
        ensures { result.now ≡ input_of self.now }
    {
        match self.bytes(Role::Input) {
            Some(bytes) => bytes,
            None => &[],
        }
    }
}

/// What the files beside the manifest or the compiled catalog say. What isn't named says nothing: no facts, no packages, no data, nothing
/// that is assumed or that every host has, and no tree but that of the folders that every host has.
#[derive(Drop)]
pub struct Known {
    pub facts: Value,
    pub listing: Listing,
    pub class_data: Data,
    pub tree: Tree,
    pub assumed: Assumptions,
    pub given: Given,
}
