use crate::entry::{Dest, Item};
use std::marker::Model;

/// A list, seen as its items.
#[derive(Clone, Drop)]
pub struct Listed<T> {
    items: Vec<T>,
}

impl<T> Model for Listed<T> {
    ghost use Rattle.std.specs.Prelude.{List};

    ghost Value = { List T };

    ghost view = { λ l. l.items.items };
}

impl<T> From<Vec<T>> for Listed<T> {
    ghost use Rattle.std.specs.Prelude.{◌≡◌};

    ghost from_gives = { λ items listed. listed ≡ items.items };

    fn from(items: Vec<T>) -> Self {
        Listed { items }
    }
}

impl<T> Listed<T> {
    ghost use Rattle.std.specs.Prelude.{◌≡◌};

    /// Returns the items in their order.
    pub fn as_slice(&self) -> &[T]
        ensures { result.now ≡ self.now }
    {
        &self.items
    }
}

/// A list of numbers, as buffers or entries.
pub type Numbers = Listed<u32>;

/// The ports that want frames of an entry, by rising id, each with their number.
pub type Dests = Listed<Dest>;

/// Frames offered to a pipe or taken by it, each with its buffer.
pub type Items = Listed<Item>;

impl Listed<Item> {
    ghost use Rattle.std.specs.Prelude.{◌≡◌, ◌<◌, ◌^◌};
    ghost use Rattle.nm_types.specs.Frames.{bytes_of_frames};
    ghost use Rattle.vale_entry.specs.Pipe.{frames_of_items};

    /// Returns how many bytes the frames have together.
    pub fn size(&self) -> u64
        requires { bytes_of_frames (frames_of_items self.now) < 2 ^ 64 }
        ensures { result ≡ bytes_of_frames (frames_of_items self.now) }
    {
        let mut total = 0;
        for i in 0..self.items.len() {
            total += self.items[i].bytes.bytes().len() as u64;
        }
        total
    }
}
