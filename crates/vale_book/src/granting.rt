ghost use Rattle.std.specs.Prelude.{◌≡◌, ◌≤◌, length, drop, slice_get, Some, IfSome, option_map};
ghost use Rattle.vale_book.specs.Words.{HasRoom, IsLeaseOf, Offer, OffersStand, after_ask};
ghost use Rattle.vale_book.specs.Words.{first_offer, given_by, reply_of, standing, step, wanted};
ghost use Rattle.vale_entry.specs.declared.entry.Ask.TheVariants as asks;
ghost use Rattle.vale_entry.specs.declared.entry.Reply.TheVariants as replies;

use crate::book::Book;
use vale_port::offered_port;
use vale_steps::granting::{Granted, count, give, lose};
use vale_steps::offers::{Offers, take_next};

impl Book {
    /// Grants the next of an entry's offers, and takes it out: as many of its first frames as there
    /// is room for get buffers of the port's ring, which the lease owns. If the port is not open any
    /// more all frames are gone, and there is no lease. Room for the entry, and for the completion
    /// of the lease, was promised.
    pub fn grant(&mut self, offers: &mut Offers) -> Granted
        requires stand { OffersStand (standing self.old) offers.old }
        requires next { 1 ≤ length offers.old.wants }
        ensures made { self.new ≡ after_ask self.old (asks.Grant offers.old.entry result.to) }
        ensures said { option_map reply_of
            (step (standing self.old) (asks.Grant offers.old.entry result.to))
            ≡ Some (replies.Shared result.given result.full result.gone) }
        ensures room { HasRoom self.old (asks.Grant offers.old.entry result.to) }
        ensures offers { offers.new ≡ record offers.old { wants = drop 1 offers.old.wants } }
        ensures stand { OffersStand (standing self.new) offers.new }
        ensures want { slice_get offers.old.wants 0 ≡ Some (wanted result.want) }
        ensures to { result.to ≡ result.want.to }
        ensures given { result.given ≡ given_by result.lease }
        ensures lease { IfSome result.lease (λ lease. (offer : Offer)
            → first_offer (standing self.old).world offers.old.entry ≡ Some offer
            → IsLeaseOf (standing self.old) self.old.region (length self.new.entries) offer
            lease) }
    {
        let (want, room) = take_next(offers);
        let origin = offers.entry();
        let session = offers.session();
        match offered_port(&self.ports, want.to) {
            Some(place) => {
                let granted = give(
                    &mut self.history,
                    &mut self.ports,
                    place,
                    session,
                    origin,
                    want,
                    room,
                );
                count(&mut self.tally, &granted);
                granted
            }
            None => lose(&mut self.history, session, origin, want),
        }
    }
}
