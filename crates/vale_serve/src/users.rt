ghost use Rattle.std.specs.Prelude.{◌≡◌, ◌==◌, ◌≤◌, ◌+◌, ◌&&◌, length, position, vec_capacity, OnOk, true, slice_get, option_map};
ghost use Rattle.vale_serve.specs.Users.{offered_by, leased_by, SameUser, is_user, is_settled_user, is_offered, next_is, is_next_to, has_next, port_in_room, HasNothing};
ghost use Rattle.vale_serve.specs.Exchange.{HasSorted};

use nm_region::Buf;
use nm_types::{PortId, SessionId};
use std::alloc::{AllocError, Global};
use vale_book::Offers;
use vale_line::Lease;

/// A session with what it has outside the book.
pub struct User {
    pub id: SessionId,
    /// The buffers that it holds.
    pub bufs: Vec<Buf>,
    /// Its leases that are not done, each filled, by rising number.
    pub leases: Vec<Lease>,
    /// What is not granted of its last frames.
    pub sent: Option<Sent>,
    /// What it keeps for its ports, one for each, in the order in which they were opened.
    pub rooms: Vec<Room>,
}

/// A port of a session, and memory for the buffers that go with it.
pub struct Room {
    pub port: PortId,
    pub bufs: Vec<Buf>,
}

/// Offers that are not all granted, and the bytes of the frames that they are of.
pub struct Sent {
    pub offers: Offers,
    pub frames: Vec<Vec<u8>>,
}

impl User {
    /// A session that has nothing.
    pub(crate) fn new(alloc: Global, id: SessionId) -> User
        ensures id { result.id ≡ id }
        ensures nothing { HasNothing result }
    {
        User {
            id,
            bufs: Vec::new(alloc),
            leases: Vec::new(alloc),
            sent: None,
            rooms: Vec::new(alloc),
        }
    }

    /// Tells whether it has neither an offer nor a lease.
    pub(crate) fn is_settled(&self) -> bool
        ensures { result ≡ is_settled_user self.now }
    {
        self.sent.is_none() && self.leases.is_empty()
    }

    /// Tells whether it is settled and has no port.
    pub(crate) fn can_leave(&self) -> bool
        ensures { result ≡ (length self.now.rooms.items == 0 && is_settled_user self.now) }
    {
        self.rooms.is_empty() && self.is_settled()
    }

    /// Ends a session that has nothing any more.
    pub(crate) fn end(self)
        requires { HasNothing self }
    {
        let User {
            id: _,
            bufs,
            leases,
            sent,
            rooms,
        } = self;
        bufs.destroy_empty();
        leases.destroy_empty();
        rooms.destroy_empty();
        match sent {
            None => {}
            Some(_sent) => unreachable!(),
        }
    }

    /// Makes room for so many leases more.
    pub(crate) fn reserve_leases(&mut self, count: usize) -> Result<(), AllocError>
        ensures same { SameUser self.old self.new }
        ensures room { OnOk result
            (length self.new.leases.items + count ≤ vec_capacity self.new.leases) }
    {
        self.leases.reserve(count)
    }

    /// Tells whether its offers are those of this entry.
    pub(crate) fn has_offers_of(&self, origin: u32) -> bool
        ensures { result ≡ is_offered origin self.now }
    {
        match &self.sent {
            Some(sent) => sent.offers.entry() == origin,
            None => false,
        }
    }

    /// The entry that its offers are of.
    pub fn offered(&self) -> Option<u32>
        ensures { result ≡ offered_by self.now }
    {
        match &self.sent {
            Some(sent) => Some(sent.offers.entry()),
            None => None,
        }
    }

    /// The port of its next offer.
    pub fn next_port(&self) -> PortId
        requires { has_next self.now ≡ true }
        ensures { is_next_to result.0 self.now ≡ true }
    {
        let Some(sent) = &self.sent else {
            unreachable!()
        };
        match sent.offers.next() {
            Some(want) => want.to,
            None => unreachable!(),
        }
    }

    /// The first of its leases.
    pub fn leased(&self) -> Option<u32>
        ensures { result ≡ leased_by self.now }
    {
        match self.leases.first() {
            Some(lease) => Some(lease.id().0),
            None => None,
        }
    }

    /// The first of its ports.
    pub fn first_port(&self) -> Option<PortId>
        ensures { result ≡ option_map port_in_room (slice_get self.now.rooms.items 0) }
    {
        match self.rooms.first() {
            Some(room) => Some(room.port),
            None => None,
        }
    }

    /// Puts its buffers in the order of their indices.
    pub fn sort_bufs(&mut self)
        ensures { HasSorted self.old self.new }
    {
        self.bufs.sort_unstable_by_key(|buf| buf.index());
    }

    /// Tells whether its next offer is to this port.
    pub(crate) fn is_next(&self, to: PortId) -> bool
        ensures { result ≡ is_next_to to.0 self.now }
    {
        match &self.sent {
            Some(sent) => is_next(&sent.offers, to),
            None => false,
        }
    }
}

/// Tells whether the next of these offers is to this port.
fn is_next(offers: &Offers, to: PortId) -> bool
    ensures { result ≡ next_is to.0 offers.now.wants }
{
    match offers.next() {
        Some(want) => want.to == to,
        None => false,
    }
}

/// The place of the session of this number.
pub(crate) fn place_of(users: &[User], id: SessionId) -> Option<usize>
    ensures { result ≡ position (is_user id.0) users.now }
{
    users.iter().position(|user| user.id == id)
}
