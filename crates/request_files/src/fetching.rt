//! Fetching files one after another.

ghost use Rattle.std.specs.Prelude.{◌≡◌};
ghost use Rattle.command_line.specs.Table.{limit_of};
ghost use Rattle.request_files.specs.Files.{FailsAt, FirstFailed};
ghost use Rattle.request_files.specs.Loading.{IsLoad, Reads, AreLoads};

use command_line::{ByRole, InputKind, Role};
use rh_base::{Fetched, NoMemory, Refusal, Seq, Shelf, ShelfFault, Text};
use std::alloc::Global;

/// What was fetched of a file: that it has too many bytes, or its bytes.
#[derive(Drop)]
pub enum Load {
    Longer,
    Bytes(Seq<u8>),
}

/// A file is too long, the file of this name couldn't be read, or memory was refused.
#[derive(Drop)]
pub enum FilesFault {
    Long(Refusal),
    Failed(Text),
    Memory(NoMemory),
}

impl From<NoMemory> for FilesFault {
    ghost use Rattle.std.specs.Prelude.{◌≡◌};
    ghost use Rattle.request_files.specs.declared.fetching.FilesFault.TheVariants.{Memory};

    ghost from_gives = { λ m e. e ≡ Memory m };

    fn from(m: NoMemory) -> Self {
        FilesFault::Memory(m)
    }
}

/// Fetches the file of a name.
fn fetch<S: Shelf>(
    alloc: Global,
    input: InputKind,
    role: Role,
    name: Text,
    shelf: &mut S,
) -> Result<Load, FilesFault>
    ensures held { S.holds shelf.new ≡ S.holds shelf.old }
    ensures reads { Reads (IsLoad (S.holds shelf.old) (limit_of input role) name) (λ n. (n ≡ name)
        × FailsAt n (S.holds shelf.old) (S.faults shelf.old) (S.faults shelf.new)) (S.faults shelf.old)
        (S.faults shelf.new) result }
{
    let mut bytes = Vec::new(alloc);
    match shelf.fetch(name.as_str(), role.limit(input), &mut bytes) {
        Ok(Fetched::Whole) => Ok(Load::Bytes(Seq::from_vec(bytes))),
        Ok(Fetched::Longer) => Ok(Load::Longer),
        Err(ShelfFault::Failed) => Err(FilesFault::Failed(name)),
        Err(ShelfFault::Memory(m)) => Err(FilesFault::Memory(m)),
    }
}

/// Fetches the files of these names, each once. The first that can't be read ends it.
pub fn fetch_all<S: Shelf>(
    alloc: Global,
    input: InputKind,
    names: ByRole<Text>,
    shelf: &mut S,
) -> Result<ByRole<Load>, FilesFault>
    ensures held { S.holds shelf.new ≡ S.holds shelf.old }
    ensures reads { Reads (AreLoads (S.holds shelf.old) input names)
        (FirstFailed (S.holds shelf.old) (S.faults shelf.old) (S.faults shelf.new) names) (S.faults shelf.old)
        (S.faults shelf.new) result }
{
    let mut loads = Seq::new(alloc);
    for (role, name) in names.into_vec() {
        match fetch(alloc, input, role, name, shelf) {
            Ok(load) => loads.push((role, load))?,
            Err(fault) => return Err(fault),
        }
    }
    Ok(loads)
}
