//! How much may still be open where a statement runs.

ghost use Rattle.std.specs.Prelude.{◌≡◌};
ghost use Rattle.catalog_semantics.specs.Rooms.{whole_room, in_block, in_body};

/// At most so many bodies of classes run within one another.
pub const BODIES: u32 = 64;

/// At most so many bodies of classes and blocks of statements are open at a time.
pub const LEVELS: u32 = 512;

/// So many more bodies of classes may run within one another, and so many more of these and of blocks may be open.
#[derive(Clone, Copy, Debug)]
pub struct Room {
    pub bodies: u32,
    pub levels: u32,
}

impl Room {
    /// All of it: no body of a class runs, and no block is open.
    pub fn whole() -> Room
        ensures { result ≡ whole_room }
    {
        Room {
            bodies: BODIES,
            levels: LEVELS,
        }
    }

    /// What is left within one more block.
    pub fn in_block(self) -> Room
        ensures { result ≡ in_block self }
    {
        Room {
            bodies: self.bodies,
            levels: self.levels.saturating_sub(1),
        }
    }

    /// What is left within the body of one more class.
    pub fn in_body(self) -> Room
        ensures { result ≡ in_body self }
    {
        Room {
            bodies: self.bodies.saturating_sub(1),
            levels: self.levels.saturating_sub(1),
        }
    }
}
