ghost use Rattle.std.specs.Prelude.{◌≡◌, ◌≤◌, ◌<◌, ◌^◌, [], ◌∷◌, All, length, map, reverse, slice_get, option_map, Some, IfOk, IfSome, IfNone};
ghost use Rattle.vale_steps.specs.Words.{wanted};
ghost use Rattle.vale_steps.specs.Offering.{OffersState, offers_seen, IsOffers, slots_in, slots_wanted};

use nm_types::{NoMemory, SessionId};
use std::alloc::Global;
use std::marker::Model;
use vale_batch::Want;
use vale_line::LeaseRoom;

/// What is wanted of an entry's frames and not granted yet, with memory for the leases. It cannot be
/// dropped: the grants take one want after the other, and `close` ends it.
pub struct Offers {
    pub(crate) entry: u32,
    pub(crate) session: SessionId,
    pub(crate) short: u32,
    pub(crate) lone: u32,
    // last first
    pub(crate) wants: Vec<Want>,
    pub(crate) rooms: Vec<LeaseRoom>,
}

impl Model for Offers {
    ghost Value = { OffersState };

    ghost view = { offers_seen };

    ghost invariant = { IsOffers };
}

/// How many slots the frames of a want take.
fn slots_of(want: &Want) -> u32
    requires { slots_in want.now < 2 ^ 32 }
    ensures { result ≡ slots_in want.now }
{
    want.sizes.sum()
}

/// Makes room for the lease of each want.
pub(crate) fn rooms_of(alloc: Global, wants: &[Want]) -> Result<Vec<LeaseRoom>, NoMemory>
    requires { All (λ want. slots_in want < 2 ^ 32) wants.now }
    ensures { IfOk result (λ rooms. rooms.items ≡ map slots_in wants.now) }
{
    let mut rooms = Vec::with_capacity(alloc, wants.len())?;
    for want in wants {
        rooms.push_reserved(LeaseRoom::new(alloc, slots_of(want))?);
    }
    Ok(rooms)
}

impl Offers {
    /// The number of the entry whose frames these are.
    pub fn entry(&self) -> u32
        ensures { result ≡ self.now.entry }
    {
        self.entry
    }

    /// The session whose frames these are.
    pub fn session(&self) -> SessionId
        ensures { result.0 ≡ self.now.session }
    {
        self.session
    }

    /// How many frames of the entry were too short to have addresses: 0 for a sync or a put, whose
    /// frames are not looked up.
    pub fn short(&self) -> u32
        ensures { result ≡ self.now.short }
    {
        self.short
    }

    /// How many longer frames of the entry went to no port: 0 for a sync or a put.
    pub fn lone(&self) -> u32
        ensures { result ≡ self.now.lone }
    {
        self.lone
    }

    /// What the next grant is for.
    pub fn next(&self) -> Option<&Want>
        ensures none { IfNone result (self.now.wants ≡ []) }
        ensures some { IfSome result (λ want. slice_get self.now.wants 0 ≡ Some (wanted want.now)) }
    {
        self.wants.last()
    }

    /// Ends the offers once all are granted.
    pub fn close(self)
        requires { self.wants ≡ [] }
    {
        let Offers {
            entry: _,
            session: _,
            short: _,
            lone: _,
            wants: _,
            rooms: _,
        } = self;
    }
}

/// Takes the next want out, with the room for its lease. Its grant is to be recorded.
pub fn take_next(offers: &mut Offers) -> (Want, LeaseRoom)
    requires { 1 ≤ length offers.old.wants }
    ensures want { offers.old ≡ record offers.new { wants = wanted result.0 ∷ offers.new.wants } }
    ensures room { result.1 ≡ slots_wanted (wanted result.0) }
    ensures few { length result.0.sizes < 2 ^ 32 }
{
    (offers.wants.take_last(), offers.rooms.take_last())
}
