ghost use Rattle.std.specs.Prelude.{◌≡◌, ◌+◌, ◌*◌, ◌<◌, ◌≤◌, ℕ, List, Bool, true, false, [], length, replicate, get_or, slice_set, IfSome};
ghost use Rattle.nm_types.specs.Limits.{most_pool};
ghost use denote.RawPtr.{Ptr, block_ptr, block_of, count_of, ◌+ₚ◌};
ghost use Rattle.nm_region.specs.Parts.{bytes_of, lead, parts_at, IsBlock};

use crate::part::Part;
use nm_types::BUFFER_BYTES;
use std::alloc::{Allocator, Global};
use std::marker::{Model, PhantomData};

/// The parts begin so many bytes into the block: the C library puts 16 bytes in front of a block
/// that it maps by itself, so two parts are then one page. Nothing rests on it but speed.
const LEAD: usize = 4080;

/// One block of memory, cut into parts of 2048 bytes. It owns the parts that are at home; the
/// others are out.
pub(crate) struct Block {
    pub(crate) start: *mut u8,
    pub(crate) size: usize,
    pub ghost home: { List Bool },
    pub ghost fits: { IsBlock size home },
}

impl Model for Block {
    ghost also_owns = { λ b. parts_at b.start b.home };
}

/// The right to give a block back to the allocator. It takes no space.
pub(crate) struct Deed<A: Allocator> {
    marker: PhantomData<A>,
    pub ghost alloc: { A },
    pub ghost start: { Ptr },
    pub ghost size: { ℕ },
}

impl<A: Allocator> Model for Deed<A> {
    ghost also_owns = { λ d. A.dealloc_token d.alloc (bytes_of d.size) d.start };
}

/// It is memory that nothing else reaches.
unsafe impl Send for Block {}

/// It is the right to free such memory.
unsafe impl<A: Allocator + Send> Send for Deed<A> {}

impl Block {
    /// A block of so many parts, none of which is written. All of them are at home.
    pub(crate) fn new<A: Allocator>(alloc: &A, parts: usize) -> Option<(Block, Deed<A>)>
        requires { parts ≤ most_pool }
        ensures { IfSome result (λ made.
            (made.0.home ≡ replicate parts true)
            × (made.0.start ≡ block_ptr (block_of made.0.start) (count_of made.0.start))
            × (made.1.alloc ≡ alloc.now)
            × (made.1.start ≡ made.0.start)
            × (made.1.size ≡ made.0.size)) }
    {
        let size = parts * BUFFER_BYTES + LEAD;
        match alloc.allocate(size, 1) {
            Ok(start) => {
                let marker = PhantomData;
                Some((Block { start, size }, Deed { marker }))
            }
            Err(_) => None,
        }
    }

    /// Gives the block back, all parts of which are at home.
    pub(crate) fn free<A: Allocator>(self, deed: Deed<A>, alloc: &A)
        requires { (deed.alloc ≡ alloc.now)
            × (deed.start ≡ self.start)
            × (deed.size ≡ self.size)
            × (self.home ≡ replicate (length self.home) true) }
    {
        let Block { start, size } = self;
        let Deed { marker: _ } = deed;
        unsafe { alloc.deallocate(start, size, 1) }
    }

    /// Hands out the part `at`, of which no byte is written.
    pub(crate) fn cut(self, at: usize) -> (Block, Part)
        requires { (at < length self.home) × (get_or self.home at false ≡ true) }
        ensures { (result.0.start ≡ self.start)
            × (result.0.size ≡ self.size)
            × (result.0.home ≡ slice_set self.home at false)
            × (result.1.items ≡ [])
            × (result.1.at ≡ self.start +ₚ (at * 2048 + lead)) }
    {
        let Block { start, size } = self;
        let place = unsafe { start.add(at * BUFFER_BYTES + LEAD) };
        (Block { start, size }, Part { at: place })
    }

    /// Takes the part `at` back, whatever is written there.
    pub(crate) fn take_back(self, part: Part, at: usize) -> Block
        requires { (at < length self.home)
            × (length part.items ≤ 2048)
            × (part.at ≡ self.start +ₚ (at * 2048 + lead)) }
        ensures { (result.start ≡ self.start)
            × (result.size ≡ self.size)
            × (result.home ≡ slice_set self.home at true) }
    {
        let Part { at: _ } = part;
        let Block { start, size } = self;
        Block { start, size }
    }
}

impl Deed<Global> {
    /// What the program's allocator gives is a whole object, so it begins where the object does.
    pub(crate) fn located(self) -> Deed<Global>
        ensures { (result ≡ self) × (count_of self.start ≡ 0) }
    {
        let Deed { marker } = self;
        Deed { marker }
    }
}
