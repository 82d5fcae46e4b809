ghost use Rattle.std.specs.Prelude.{◌≡◌, ◌<◌, ◌≤◌, ◌++◌, ◌∷◌, [], IfOk, length, min};
ghost use Rattle.nm_types.specs.Limits.{most_extra};
ghost use Rattle.nm_own.specs.Words.{IsRingSize, chain_head, deque_capacity, indices_of};
ghost use Rattle.nm_own.specs.Words.{vec_capacity};
ghost use Rattle.nm_own.specs.NewPorts.{NewPortState};
ghost use Rattle.nm_own.specs.Prepared.{IsPrepared};
ghost use Rattle.nm_own.specs.Opening.{IsTxSize, opened_slots, opened_user_port};

use nm_hold::{Hold, PortRoom};
use nm_port::{BufRoom, SlotRing, UserPort};
use nm_region::Buf;
use nm_types::{Name, NoMemory, PortId, PortSizes, Slot};
use std::alloc::Global;
use std::collections::VecDeque;
use std::marker::Model;

/// A port that may be opened, with all the memory that an own side wants for it. If it is not
/// opened, it is dropped.
#[derive(Drop)]
pub struct NewPort {
    name: Name,
    slots: VecDeque<Slot>,
    rx: SlotRing,
    back: BufRoom,
    room: PortRoom,
    /// An empty list with room for the ports of the own side and this one.
    ports: Vec<UserPort>,
}

impl Model for NewPort {
    ghost Value = { NewPortState };

    ghost view = { λ n. record {
      name = n.name;
      sizes = n.room.sizes;
      ports = min (vec_capacity n.ports) n.room.ports;
    } };

    ghost invariant = { IsPrepared };
}

impl NewPort {
    /// Takes the memory for a port of these sizes, besides the ports that there are.
    pub(crate) fn new(
        alloc: Global,
        hold: &Hold,
        ports: &[UserPort],
        name: Name,
        sizes: PortSizes,
    ) -> Result<NewPort, NoMemory>
        requires tx { IsTxSize sizes.tx }
        requires rx { IsRingSize sizes.rx }
        requires extra { sizes.extra ≤ most_extra }
        requires same { length hold.now.ports ≡ length ports.now }
        ensures name { IfOk result (λ new. new.name ≡ name) }
        ensures sizes { IfOk result (λ new. new.sizes ≡ sizes) }
        ensures ports { IfOk result (λ new. length ports.now < new.ports) }
    {
        let PortSizes { tx, rx, extra } = sizes;
        Ok(NewPort {
            name,
            slots: VecDeque::with_capacity(alloc, tx as usize)?,
            rx: SlotRing::rx(alloc, rx)?,
            back: BufRoom::new(alloc, tx + rx + extra)?,
            room: hold.room(tx, rx, extra)?,
            ports: Vec::with_capacity(alloc, ports.len() + 1)?,
        })
    }

    /// The port once it is opened with these buffers, and the room for it among others.
    pub(crate) fn open(
        self,
        id: PortId,
        tx: &[Buf],
        extra: &[Buf],
    ) -> (UserPort, PortRoom, Vec<UserPort>)
        requires tx { length tx.now ≡ self.sizes.tx }
        requires extra { length extra.now ≡ self.sizes.extra }
        ensures port { result.0 ≡ opened_user_port id self.name self.sizes.rx
            (indices_of tx.now) (indices_of extra.now) }
        ensures sizes { result.1.sizes ≡ self.sizes }
        ensures tx_size { IsTxSize self.sizes.tx }
        ensures rx_size { IsRingSize self.sizes.rx }
        ensures room { self.ports ≤ result.1.ports }
        ensures none { result.2.items ≡ [] }
        ensures ports { self.ports ≤ vec_capacity result.2 }
    {
        let NewPort {
            name,
            slots,
            rx,
            back,
            room,
            ports,
        } = self;
        let port = UserPort {
            id,
            name,
            tx: tx_ring(slots, tx),
            rx,
            extra: extra.len() as u32,
            extra_head: first_index(extra),
            back,
        };
        (port, room, ports)
    }
}

/// The index of the first buffer, 0 if there is none.
#[tactic(auto, using(crate::proofs::Opened::lengths))]
fn first_index(bufs: &[Buf]) -> u32
    ensures { result ≡ chain_head (indices_of bufs.now) }
{
    match bufs.first() {
        Some(buf) => buf.index(),
        None => 0,
    }
}

/// The transmit ring of a port that is opened with these buffers; a monitor has none.
#[tactic(auto, using(crate::proofs::Opened::lengths))]
fn tx_ring(slots: VecDeque<Slot>, bufs: &[Buf]) -> Option<SlotRing>
    requires size { IsTxSize (length bufs.now) }
    requires none { slots.items ≡ [] }
    requires room { length bufs.now ≤ deque_capacity slots }
    ensures { result ≡ opened_slots (indices_of bufs.now) }
{
    if bufs.is_empty() {
        None
    } else {
        Some(SlotRing::tx(slots, bufs))
    }
}

/// Adds a port to others, in a longer list.
pub(crate) fn add_last(ports: &mut Vec<UserPort>, mut longer: Vec<UserPort>, port: UserPort)
    requires none { longer.items ≡ [] }
    requires room { length ports.old.items < vec_capacity longer }
    ensures { ports.new.items ≡ ports.old.items ++ port ∷ [] }
{
    match longer.append(ports) {
        Ok(()) => longer.push_reserved(port),
        Err(_no_room) => unreachable!(),
    }
    *ports = longer;
}
