//! What cells hold for each path of a table.

ghost use Rattle.std.specs.Prelude.{◌≡◌, ◌<◌, length};
ghost use Rattle.fs_interpreter.specs.Changed.{IsPut};

use crate::bits::Bits;
use rh_base::Seq;

/// What stands at each path of a table, in its order: whether an entry does, whether it is a folder or else a link, and
/// the number of its content or target. All of it counts only where the error bit is false.
#[derive(Drop)]
pub struct Cells<B: Bits> {
    pub present: Seq<B::Bit>,
    pub folder: Seq<B::Bit>,
    pub link: Seq<B::Bit>,
    pub content: Seq<B::Code>,
    pub error: B::Bit,
}

/// The bits of one place.
#[derive(Drop)]
pub(crate) struct OneCell<B: Bits> {
    pub present: B::Bit,
    pub folder: B::Bit,
    pub link: B::Bit,
    pub content: B::Code,
}

impl<B: Bits> Cells<B> {
    /// Puts other bits at one place.
    pub(crate) fn put(&mut self, i: usize, cell: OneCell<B>)
        requires present { i < length self.old.present }
        requires folder { length self.old.folder ≡ length self.old.present }
        requires link { length self.old.link ≡ length self.old.present }
        requires content { length self.old.content ≡ length self.old.present }
        ensures { IsPut self.old i cell self.new }
    {
        let OneCell {
            present,
            folder,
            link,
            content,
        } = cell;
        self.present.set(i, present);
        self.folder.set(i, folder);
        self.link.set(i, link);
        self.content.set(i, content);
    }
}
