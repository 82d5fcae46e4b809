//! What a call of a desk offers is granted, and the leases are completed.
ghost use Rattle.std.specs.Prelude.{◌≡◌, ◌≤◌, [], List, IfSome, Some, drop, length, slice_get, take};
ghost use Rattle.nm_types.specs.Frames.{Frame};
ghost use Rattle.nm_port.specs.Regions.{AreOf};
ghost use Rattle.vale_batch.specs.Wants.{wanted};
ghost use Rattle.vale_line.specs.Gots.{buffers_of};
ghost use Rattle.nm_types.specs.Ids.{lease_id};
ghost use Rattle.vale_entry.specs.declared.entry.Ask.TheVariants as asks;
ghost use Rattle.vale_entry.specs.declared.entry.Reply.TheVariants as replies;
ghost use Rattle.vale_port.specs.Kept.{bytes_of};
ghost use Rattle.vale_own.specs.Recorded.{standing};
ghost use Rattle.vale_steps.specs.Granting.{given_by};
ghost use Rattle.vale_steps.specs.Offering.{OffersStand};
ghost use Rattle.vale_book.specs.Leases.{IsFilledBy, IsHeldFor, StandOf};
ghost use Rattle.nm_desk.specs.Desks.{IsDeskOf};
ghost use Rattle.nm_desk.specs.Calls.{Made};

use crate::desk::Desk;
use vale_book::{Book, Granted, Offers};
use vale_line::Lease;

impl Desk {
    /// Grants the next of what a call of the desk offers, and takes it out: as many of its first
    /// frames as there is room for get buffers of the port's ring, which the lease owns. The lease is
    /// for the frames at as many of the first places that are wanted.
    pub fn grant(&mut self, book: &mut Book, offers: &mut Offers) -> Granted
        requires desk { IsDeskOf book.old self.old }
        requires stand { OffersStand (standing book.old) offers.old }
        requires mine { offers.old.session ≡ self.old.id }
        requires next { 1 ≤ length offers.old.wants }
        ensures made { Made book.old book.new self.old self.new
            (asks.Grant offers.old.entry result.to)
            (replies.Shared result.given result.full result.gone) }
        ensures offers { offers.new ≡ record offers.old { wants = drop 1 offers.old.wants } }
        ensures stand { OffersStand (standing book.new) offers.new }
        ensures want { slice_get offers.old.wants 0 ≡ Some (wanted result.want) }
        ensures to { result.to ≡ result.want.to }
        ensures given { result.given ≡ given_by result.lease }
        ensures held { IfSome result.lease (λ lease. (frames : List Frame)
            → StandOf (standing book.old) offers.old frames
            → IsHeldFor book.new self.old.id lease (bytes_of frames)
            (take result.given result.want.places)) }
    {
        book.grant(offers)
    }

    /// Completes a lease of the desk, which is full: its frames will be read once all that were
    /// granted to the port before it are complete.
    pub fn done(&mut self, book: &mut Book, lease: Lease)
        requires desk { IsDeskOf book.old self.old }
        requires filled { IsFilledBy book.old self.old.id lease }
        requires full { lease.sizes ≡ [] }
        requires empty { lease.empty ≡ [] }
        requires region { AreOf book.old.region (buffers_of lease.filled) }
        ensures { Made book.old book.new self.old self.new (asks.Done (lease_id lease.id))
            replies.Made }
    {
        book.done(lease);
    }
}
