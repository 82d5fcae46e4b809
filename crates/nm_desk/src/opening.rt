//! Ports are opened, with all memory taken first.
ghost use Rattle.std.specs.Prelude.{ℕ, ◌≡◌, ◌++◌, length, IfOk, IfErr, IfSome, OnOk, None, Some};
ghost use Rattle.nm_types.specs.Names.{IsName};
ghost use Rattle.nm_types.specs.Openings.{are_sizes, is_ring_size};
ghost use Rattle.nm_types.specs.OwnSyncs.{own_after_open};
ghost use Rattle.nm_region.specs.Buffers.{indices_of};
ghost use Rattle.nm_port.specs.Regions.{AllOf, AreOf};
ghost use Rattle.nm_own.specs.Opening.{blank_arrivals};
ghost use Rattle.vale_entry.specs.declared.entry.Ask.TheVariants as asks;
ghost use Rattle.vale_entry.specs.declared.entry.Reply.TheVariants as replies;
ghost use Rattle.nm_desk.specs.Desks.{IsDeskOf};
ghost use Rattle.nm_desk.specs.Calls.{Made};
ghost use Rattle.nm_desk.specs.Opening.{CanAdd, IsReady, OpensNot, own_if};

use crate::desk::Desk;
use nm_own::{NewPort, OwnSide};
use nm_types::{Kind, MAX_EXTRA, MAX_RING, MIN_RING, Name, NoMemory, OpenFault, PortId};
use vale_book::{Book, Opened};

/// Whether a ring may have `size` slots.
fn is_ring_size(size: u32) -> bool
    ensures { result ≡ is_ring_size size }
{
    (MIN_RING..=MAX_RING).contains(&size)
}

/// Whether a port of this name may have rings of `tx` and `rx` slots and `extra` buffers.
#[tactic(auto, unfolding(nm_types::specs::Names::is_name, nm_types::specs::Names::is_monitor_name))]
fn are_sizes(name: &Name, tx: u32, rx: u32, extra: u32) -> bool
    ensures sizes { result ≡ are_sizes name.now tx rx extra }
    ensures named { IsName name.now }
{
    let is_tx = match name.kind() {
        Kind::Monitor => tx == 0,
        _ => is_ring_size(tx),
    };
    is_tx && is_ring_size(rx) && extra <= MAX_EXTRA
}

/// Adds the port that was opened.
fn add(own: &mut Option<OwnSide>, new: Option<NewPort>, opened: Opened) -> PortId
    requires { CanAdd own.old new opened }
    ensures port { result ≡ opened.port }
    ensures own { IfSome own.old (λ side. IfSome new (λ port. own_if own.new ≡ Some
        (own_after_open opened.port.0 port.name port.sizes.tx port.sizes.rx
        (blank_arrivals (indices_of opened.tx.items ++ indices_of opened.extra.items))
        side.own))) }
    ensures region { (region : ℕ) → IfSome own.old (AllOf region) → AreOf region opened.tx.items
        → AreOf region opened.extra.items → IfSome own.new (AllOf region) }
{
    let Opened {
        port,
        tx,
        rx: _,
        extra,
    } = opened;
    match (own, new) {
        (Some(own), Some(new)) => own.add(new, port, tx, extra),
        _ => unreachable!(),
    }
    port
}

impl Desk {
    /// All memory that a port will want here, if one of this name may have such sizes.
    fn prepare(
        &self,
        name: &Name,
        tx: u32,
        rx: u32,
        extra: u32,
    ) -> Result<Option<NewPort>, NoMemory>
        ensures ready { IfOk result (IsReady self.now.own name.now tx rx extra) }
        ensures named { IfOk result (λ new. IsName name.now) }
    {
        if !are_sizes(name, tx, rx, extra) {
            return Ok(None);
        }
        match &self.own {
            Some(own) => Ok(Some(own.prepare(self.alloc, *name, tx, rx, extra)?)),
            None => unreachable!(),
        }
    }

    /// Opens a port of this name with rings of `tx` and `rx` slots and `extra` buffers besides:
    /// netmap(4) calls this NIOCREGIF. A ring has 2 to 4,096 slots, a monitor no transmit ring (`tx` is
    /// 0), and there are up to 1,024 extra buffers. The port takes the smallest free buffers of the
    /// pool, one for each slot and each extra position. Each of the user's slots names the buffer in
    /// its place, with the length 0 and no flag; the extra buffers are linked in rising order.
    ///
    /// The first of these that holds is the error, and an entry: `BadSize`, a size is out of its range;
    /// `SwitchesFull`, the name's switch has no port and 4 switches are there; `PortsFull`, its switch
    /// has 254 ports, or there are 32 pipe ends, or 32 monitors; `NameTaken`, a port of the name is open
    /// or shut and not gone; `NoBuffers`, fewer are free than are wanted. `RecordFull`, without room for
    /// the entry and for those by which the port is closed, and `NoMemory` are no entries, and nothing
    /// has changed.
    pub fn open(
        &mut self,
        book: &mut Book,
        name: &Name,
        tx: u32,
        rx: u32,
        extra: u32,
    ) -> Result<PortId, OpenFault>
        requires desk { IsDeskOf book.old self.old }
        requires none { self.old.shut ≡ None }
        ensures made { OnOk result (Made book.old book.new self.old self.new
            (asks.Open (record { 0 = self.old.id }) name.now tx rx extra) replies.Opened) }
        ensures port { IfOk result (λ port. port.0 ≡ length book.new.entries) }
        ensures unopened { IfErr result (OpensNot book.old book.new self.old self.new
            (asks.Open (record { 0 = self.old.id }) name.now tx rx extra)) }
    {
        let new = self.prepare(name, tx, rx, extra)?;
        let opened = match book.open(self.id, name, tx, rx, extra) {
            Ok(opened) => opened,
            Err(fault) => return Err(fault),
        };
        Ok(add(&mut self.own, new, opened))
    }
}
