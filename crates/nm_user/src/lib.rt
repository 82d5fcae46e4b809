//! Sessions: users of netmap(4) on the switches, pipes and monitors of one fabric.
//!
//! A `Session` is one user with the ports that it has opened. It borrows a fabric
//! (`vale_fabric::Fabric`), which is all that users share; each thread has sessions of its own, with
//! passes cut by `fork`. A frame is sent in five calls:
//!
//! ```
//! let mut session = Session::enter(alloc, rt, &fabric, pass, 1)?;
//! if let Ok(port) = session.open(rt, &name, 4, 4, 0) {
//!     session.put_frame(port, &frame);
//!     let _sent = session.tx_sync(rt, port, &NoGate);
//! }
//! let pass = session.leave(rt);
//! ```
//!
//! No `?` stands between `enter` and `leave`, since a session cannot be dropped.
//!
//! | netmap(4) | Here |
//! |---|---|
//! | open(2) and close(2) of /dev/netmap | `enter` and `leave` |
//! | NIOCREGIF: `nr_tx_slots`, `nr_rx_slots`, `nr_arg3` | `open`: `tx`, `rx`, `extra` |
//! | NIOCTXSYNC, NIOCRXSYNC | `tx_sync`, `rx_sync` |
//! | `head`, `cur`, `tail` of a `netmap_ring` | `ring`, `set_head`, `set_cur`; the tail is only read |
//! | `nm_ring_next`, `nm_ring_space`, `nm_ring_empty`, `nm_tx_pending` | `Ring::next`, `space`, `is_empty`, `pending` |
//! | a `netmap_slot` | `slot`, `slot_mut`, `put_slot` |
//! | `NETMAP_BUF` | `bytes`, `bytes_mut`, `lend`, `write` |
//! | `ni_bufs_head` | `extra_head`, `set_extra_head` |
//! | a monitor, `/t`, `/r` | a port of a name as `mon0`, and `watch` |
//!
//! **Rings.** The slots of a ring have the places 0 to its size less 1, and go round. The user's slots
//! are those from the last accepted head to before the tail: of a new transmit ring all but one, of a
//! new receive ring none. Between two syncs head and cur may be set to any numbers and the user's
//! slots to anything; only a sync judges them. Slots from the accepted head to before head are pushed:
//! their frames are to be sent, or their buffers to go back.
//!
//! **Buffers.** A pool of N buffers has the indices 2 to N + 1, and each buffer 2,048 bytes. A session
//! may name, read and write those in its user slots and its extra positions, over all its ports. One
//! that comes to a session is cleared, but for the frame in it.
//!
//! **Entries.** What a call asks of the fabric is recorded as entries, which are numbered from 1.
//! Where the record has no room for them, or memory is wanting, a call answers `RecordFull` or
//! `NoMemory` and nothing has changed. Calls that answer no `Result` take no memory and want no room.
//!
//! **Gates.** A sync passes its gate (`nm_io::Gate`) as it settles what it offered: after each grant
//! that gave a lease, after the lease is filled, and after it is completed. No lock is held then, so a
//! gate may wait for other threads, or run sessions of its own. What a gate is told is that each user
//! passes the three stages of each of its leases, in their order: contracts say so of `tx_sync_past`
//! and `rx_sync_past`, whose gate (`OwnGate`) no other thread shares. `tx_sync` and `rx_sync` are these
//! past a gate that threads share. A gate that is called within a turn
//! cannot be written: a call of the fabric takes the turn, makes one step and gives the turn up before
//! it returns, none of the calls that make a step is handed a gate, and the gate is called between
//! them.
//!
//! **Conditions.** What a call asks of its caller can be tested: `has_port`, `is_monitor`, and whether
//! `ring` answers a ring. A session owns buffers and cannot be dropped: it ends by `leave`.
#![tactic(auto)]

mod acts;
mod copies;
pub mod laws;
mod leaving;
mod opening;
mod passes;
mod putting;
mod reading;
mod receiving;
mod saving;
mod sending;
mod session;
mod watching;
mod writing;

pub use leaving::Detached;
pub use nm_io::{Gate, NoGate, Stage};
pub use nm_own::SlotPlace;
pub use nm_ring::Ring;
pub use nm_types::{
    BadName, Batch, Counts, Limits, Name, NoMemory, OpenFault, PortId, RingFault, SessionId, Side,
    Slot, SlotFault, SlotFlags, SlotWrite, StepFault, SyncFault, WatchFault,
};
pub use receiving::Received;
pub use sending::Sent;
pub use session::Session;
pub use vale_fabric::{Book, Fabric, OwnGate, Pass, SharedGate};
