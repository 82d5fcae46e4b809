ghost use Rattle.std.specs.Prelude.{◌≡◌, ◌≢◌, ◌≤◌, ◌<◌, ◌*◌, length, take, drop, All, IfOk, IfErr, OnOk, OnErr, ℕ, [], ◌++◌, None, get_or, slice_set};
ghost use Rattle.std.specs.Option.{option_to_list};
ghost use Rattle.std.specs.Vec.{vec_capacity};
ghost use Rattle.nm_pool.specs.declared.pool.TakeFault.TheVariants.{NoMemory as OutOfMemory};
ghost use Rattle.nm_pool.specs.Bits.{AreBits};
ghost use Rattle.nm_pool.specs.Free.{with_buffer, AreWhole, IsPool};
ghost use Rattle.nm_pool.specs.Kept.{buffers_in, ArePlaced};
ghost use Rattle.nm_region.specs.Buffers.{indices_of};
ghost use Rattle.nm_types.specs.Buffers.{IsPoolSize, IsBufferIndex};
ghost use Rattle.nm_types.specs.Limits.{most_pool};

use crate::bits::{clear_bit, first_bit, full_words, set_bit};
use nm_region::Buf;
use nm_types::NoMemory;
use std::alloc::{AllocError, Global};
use std::marker::Model;

/// Why no buffers were taken.
#[derive(Clone, Copy, Debug, PartialEq, Eq)]
pub enum TakeFault {
    /// Fewer buffers are free than are wanted.
    NoBuffers { want: u32, have: u32 },
    /// Out of memory.
    NoMemory,
}

impl From<AllocError> for TakeFault {
    ghost from_gives = { λ _ e. e ≡ OutOfMemory };

    fn from(_: AllocError) -> Self {
        TakeFault::NoMemory
    }
}

/// The free buffers of a region. It cannot be dropped: `close` gives the buffers back.
pub struct Pool {
    places: Vec<Option<Buf>>,
    /// A bit for each place, which is set where the place has a buffer.
    words: Vec<u64>,
    free: u32,
    room: Vec<Buf>,
}

impl Model for Pool {
    ghost use Rattle.std.specs.Prelude.{length};
    ghost use Rattle.nm_pool.specs.Free.{PoolState};

    ghost Value = { PoolState };

    ghost use Rattle.nm_pool.specs.Kept.{buffers_in};
    ghost use Rattle.nm_pool.specs.Stored.{IsStored};

    ghost view = { λ p. record {
      buffers = length p.places.items;
      free = buffers_in p.places.items;
    } };

    ghost invariant = { IsStored };
}

impl Pool {
    ghost use Rattle.nm_pool.specs.Taking.{IsShort};

    /// A pool whose buffers are all free. `close` gives them back in the vector that is passed
    /// here, and so does `NoMemory` at once.
    pub fn new(alloc: Global, mut bufs: Vec<Buf>) -> Result<Pool, (NoMemory, Vec<Buf>)>
        requires size { IsPoolSize (length bufs.items) }
        requires whole { AreWhole bufs.items }
        ensures ok { IfOk result (λ pool.
            pool ≡ record { buffers = length bufs.items; free = bufs.items }) }
        ensures err { IfErr result (λ fault. fault.1.items ≡ bufs.items) }
    {
        let count = bufs.len();
        let Ok(words) = full_words(alloc, count) else {
            return Err((NoMemory, bufs));
        };
        let Ok(mut places) = Vec::with_capacity(alloc, count) else {
            return Err((NoMemory, bufs));
        };
        bufs.reverse();
        while let Some(buf) = bufs.pop() {
            places.push_reserved(Some(buf));
        }
        Ok(Pool {
            places,
            words,
            free: count as u32,
            room: bufs,
        })
    }

    /// The number of free buffers.
    pub fn free(&self) -> u32
        ensures count { result ≡ length self.now.free }
        ensures pool { IsPool self.now }
    {
        self.free
    }

    /// Takes the `n` free buffers of the smallest indices, rising. `NoBuffers` says how many are
    /// free if these are fewer.
    pub fn take(&mut self, alloc: Global, n: u32) -> Result<Vec<Buf>, TakeFault>
        ensures taken { IfOk result (λ bufs.
            (n ≤ length self.old.free) × (bufs.items ≡ take n self.old.free)) }
        ensures left { OnOk result (self.new ≡ record self.old { free = drop n self.old.free }) }
        ensures short { IfErr result (IsShort n (length self.old.free)) }
        ensures err { OnErr result (self.new ≡ self.old) }
    {
        if self.free < n {
            return Err(TakeFault::NoBuffers {
                want: n,
                have: self.free,
            });
        }
        let mut taken = Vec::with_capacity(alloc, n as usize)?;
        take_first(&mut self.places, &mut self.words, &mut taken, n as usize);
        self.free -= n;
        Ok(taken)
    }

    /// Makes a buffer free again.
    pub fn give(&mut self, buf: Buf)
        requires index { IsBufferIndex self.old.buffers buf.index }
        requires other { All (λ index. index ≢ buf.index) (indices_of self.old.free) }
        ensures { self.new ≡ record self.old { free = with_buffer buf self.old.free } }
    {
        let at = (buf.index() - 2) as usize;
        let place = &mut self.places[at];
        match place.replace(buf) {
            None => {
                set_bit(&mut self.words, at);
                self.free += 1;
            }
            Some(_other) => unreachable!(),
        }
    }

    /// Gives back all buffers, rising, in the vector that the pool was made of.
    pub fn close(self) -> Vec<Buf>
        requires { length self.free ≡ self.buffers }
        ensures buffers { result.items ≡ self.free }
        ensures whole { AreWhole result.items }
    {
        let Pool {
            mut places,
            words: _,
            free: _,
            mut room,
        } = self;
        places.reverse();
        while let Some(place) = places.pop() {
            if let Some(buf) = place {
                room.push_reserved(buf);
            }
        }
        places.destroy_empty();
        room
    }
}

/// Moves the first `n` buffers out of their places.
fn take_first(places: &mut Vec<Option<Buf>>, words: &mut Vec<u64>, taken: &mut Vec<Buf>, n: usize)
    requires enough { n ≤ length (buffers_in places.old.items) }
    requires room { n ≤ vec_capacity taken.old }
    requires none { taken.old.items ≡ [] }
    requires bits { AreBits words.old.items places.old.items }
    requires words { length places.old.items ≤ length words.old.items * 64 }
    requires few { length words.old.items * 64 ≤ most_pool }
    ensures taken { taken.new.items ≡ take n (buffers_in places.old.items) }
    ensures left { buffers_in places.new.items ≡ drop n (buffers_in places.old.items) }
    ensures placed { (index : ℕ)
        → ArePlaced index places.old.items → ArePlaced index places.new.items }
    ensures count { length places.new.items ≡ length places.old.items }
    ensures bits { AreBits words.new.items places.new.items }
    ensures words { length words.new.items ≡ length words.old.items }
{
    let mut at = 0;
    while taken.len() < n {
        match first_bit(words, at) {
            Some(found) => {
                clear_bit(words, found);
                take_at(places, taken, found);
                at = found + 1;
            }
            None => unreachable!(),
        }
    }
}

/// Moves the buffer out of a place, if it has one.
fn take_at(places: &mut Vec<Option<Buf>>, taken: &mut Vec<Buf>, at: usize)
    requires within { at < length places.old.items }
    requires room { length taken.old.items < vec_capacity taken.old }
    ensures taken { taken.new.items
        ≡ taken.old.items ++ option_to_list (get_or places.old.items at None) }
    ensures capacity { vec_capacity taken.new ≡ vec_capacity taken.old }
    ensures places { places.new.items ≡ slice_set places.old.items at None }
{
    let place = &mut places[at];
    if let Some(buf) = place.take() {
        taken.push_reserved(buf);
    }
}
