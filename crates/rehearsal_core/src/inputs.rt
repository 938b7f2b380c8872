//! What a request is about: names, and what stands under them.

use command_line::{Ask, ByRole};
use host_limits::Limits;
use known_inputs::Inputs;
use rh_base::Text;
use wanted_entry::Wanted;

/// A request about files of these names.
#[derive(Drop)]
pub struct Names {
    pub ask: Ask,
    pub conflicts: Option<u64>,
    pub node: Option<Text>,
    pub limits: Limits,
    pub wanted: Option<Wanted>,
    pub files: ByRole<Text>,
}

/// What is asked, within how many conflicts, with the bytes of each file that the request names.
#[derive(Drop)]
pub struct Loaded {
    pub ask: Ask,
    pub conflicts: Option<u64>,
    pub inputs: Inputs,
}
