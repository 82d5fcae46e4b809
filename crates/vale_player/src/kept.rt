//! The frames that are kept of a user's ports, for the files into which they go.
ghost use Rattle.std.specs.Prelude.{◌≡◌, ◌≤◌, ◌++◌, [], ◌∷◌, map, option_map, length};
ghost use Rattle.std.specs.Prelude.{Some, OnOk, IfOk};
ghost use Rattle.std.specs.List.{AllByRecursion};
ghost use Rattle.vale_captures.specs.Outputs.{IsShortRecord};
ghost use Rattle.vale_player.specs.Words.{frames_from, most_frame_bytes};
ghost use Rattle.vale_player.specs.Kept.{AreOrLost, AreReceived, HasReceived, both_kept, grown_if};
ghost use Rattle.vale_player.specs.Kept.{is_one_of, kept_opened, kept_received, ports_in};
ghost use Rattle.vale_player.specs.Kept.{record_at, records_of};

use nm_types::{Batch, Name, NoMemory, OpenFault, PortId};
use nm_user::{Received, Session};
use pcap_io::Record;
use std::alloc::Global;
use std::marker::Model;

/// A port whose frames are kept, with a record of each that it has given.
#[derive(Drop)]
pub struct KeptPort {
    pub port: PortId,
    pub records: Vec<Record>,
}

impl Model for KeptPort {
    ghost use Rattle.vale_player.specs.Kept.{KeptFrames};

    ghost Value = { KeptFrames };

    ghost view = { λ k. record { id = k.port.0; records = k.records.items } };

    // Each record can be written.
    ghost use Rattle.std.specs.List.{AllByRecursion};
    ghost use Rattle.vale_captures.specs.Outputs.{IsShortRecord};

    ghost invariant = { λ k. AllByRecursion IsShortRecord k.records.items };
}

/// The record of a frame.
fn record_of_frame(alloc: Global, entry: u32, place: u32, frame: &[u8]) -> Result<Record, NoMemory>
    requires { length frame.now ≤ most_frame_bytes }
    ensures made { IfOk result (λ made. made ≡ record_at entry place frame.now) }
    ensures short { IfOk result IsShortRecord }
{
    let mut bytes = Vec::new(alloc);
    bytes.extend_from_slice(frame)?;
    Ok(Record {
        seconds: entry,
        fraction: place,
        original: frame.len() as u32,
        bytes: bytes.into(),
    })
}

/// Puts the records of the frames that a receive sync has brought behind others.
fn add_frames(received: Received, frames: &Batch, records: &mut Vec<Record>) -> Result<(), NoMemory>
    requires short { AllByRecursion IsShortRecord records.old.items }
    requires received { AreReceived received frames.now }
    ensures added { OnOk result (records.new.items
        ≡ records.old.items ++ records_of received.entry frames.now) }
    ensures short { AllByRecursion IsShortRecord records.new.items }
{
    let alloc = *records.allocator();
    for place in 0..received.gave {
        let frame = frames.frame(place as usize);
        records.push(record_of_frame(alloc, received.entry, place, frame)?)?;
    }
    Ok(())
}

/// Puts them behind those of a port, if it is the one that was synced.
fn grow_if(
    session: &Session,
    port: PortId,
    tail: u32,
    received: Received,
    kept: &mut KeptPort,
) -> Result<(), NoMemory>
    requires { AreReceived received (frames_from session.now.own port.0 tail) }
    ensures { OnOk result (kept.new ≡ grown_if session.now.own port.0 tail received kept.old) }
{
    if kept.port.0 == port.0 {
        let frames = session.frames_from(port, tail)?;
        add_frames(received, &frames, &mut kept.records)
    } else {
        Ok(())
    }
}

/// Puts them behind those of the port that was synced, if its frames are kept.
fn grow_all(
    session: &Session,
    port: PortId,
    tail: u32,
    received: Received,
    kept: &mut [KeptPort],
) -> Result<(), NoMemory>
    requires { AreReceived received (frames_from session.now.own port.0 tail) }
    ensures { OnOk result (kept.new
        ≡ map (grown_if session.now.own port.0 tail received) kept.old) }
{
    for one in kept.iter_mut() {
        grow_if(session, port, tail, received, one)?;
    }
    Ok(())
}

/// Keeps what a receive sync has brought.
fn keep_received(
    session: &Session,
    port: PortId,
    tail: u32,
    got: Option<Received>,
    kept: Vec<KeptPort>,
) -> Result<Vec<KeptPort>, NoMemory>
    requires { HasReceived session.now.own port.0 tail got }
    ensures { IfOk result (λ now. now.items
        ≡ kept_received session.now.own port.0 tail got kept.items) }
{
    let Some(received) = got else {
        return Ok(kept);
    };
    let mut kept = kept;
    grow_all(session, port, tail, received, kept.as_mut_slice())?;
    Ok(kept)
}

/// A port is kept, which has given nothing so far.
fn begin(kept: Vec<KeptPort>, port: PortId) -> Result<Vec<KeptPort>, NoMemory>
    ensures { IfOk result (λ now. now.items
        ≡ kept.items ++ record { id = port.0; records = [] } ∷ []) }
{
    let mut kept = kept;
    let alloc = *kept.allocator();
    kept.reserve(1)?;
    kept.push_reserved(KeptPort {
        port,
        records: Vec::new(alloc),
    });
    Ok(kept)
}

/// The frames of ports of a name are kept.
fn is_named(names: &[Name], name: &Name) -> bool
    ensures { result ≡ is_one_of names.now name.now }
{
    names.iter().any(|one| one.as_bytes() == name.as_bytes())
}

/// Keeps a port from its opening on, if its name is among those whose frames are kept.
fn keep_opened(
    names: &[Name],
    name: &Name,
    opened: &Result<PortId, OpenFault>,
    kept: Vec<KeptPort>,
) -> Result<Vec<KeptPort>, NoMemory>
    ensures { IfOk result (λ now. now.items
        ≡ kept_opened names.now name.now opened.now kept.items) }
{
    match opened {
        Ok(port) => {
            if is_named(names, name) {
                begin(kept, *port)
            } else {
                Ok(kept)
            }
        }
        Err(_) => Ok(kept),
    }
}

/// Ports that are kept, and others behind them; none if memory is wanting, or was for the others.
fn joined(kept: Vec<KeptPort>, others: Option<Vec<KeptPort>>) -> Option<Vec<KeptPort>>
    ensures { AreOrLost (both_kept (Some kept.items) (ports_in others)) (ports_in result) }
{
    let Some(more) = others else {
        return None;
    };
    let mut kept = kept;
    let mut more = more;
    match kept.append(&mut more) {
        Ok(()) => Some(kept),
        Err(_) => None,
    }
}

/// The ports whose frames are kept, unless memory was wanting.
#[derive(Drop)]
pub struct SavedPorts {
    /// None once memory was wanting.
    ports: Option<Vec<KeptPort>>,
}

impl Model for SavedPorts {
    ghost use Rattle.std.specs.Prelude.{List, Option};
    ghost use Rattle.vale_player.specs.Kept.{KeptFrames, ports_in};

    ghost Value = { Option (List KeptFrames) };

    ghost view = { λ k. ports_in k.ports };
}

impl SavedPorts {
    /// No port is kept so far.
    pub fn new(alloc: Global) -> SavedPorts
        ensures { result ≡ Some [] }
    {
        SavedPorts {
            ports: Some(Vec::new(alloc)),
        }
    }

    /// Keeps what a receive sync has brought: the frames from where the tail of the port's receive
    /// ring was before it. If memory is wanting, nothing is kept any more.
    pub(crate) fn receive(
        &mut self,
        session: &Session,
        port: PortId,
        tail: u32,
        got: Option<Received>,
    )
        requires { HasReceived session.now.own port.0 tail got }
        ensures { AreOrLost (option_map (kept_received session.now.own port.0 tail got) self.old)
            self.new }
    {
        if let Some(kept) = self.ports.take() {
            self.ports = keep_received(session, port, tail, got, kept).ok();
        }
    }

    /// Keeps a port from its opening on, if its name is among those whose frames are kept. If memory
    /// is wanting, nothing is kept any more.
    pub(crate) fn open(&mut self, names: &[Name], name: &Name, opened: &Result<PortId, OpenFault>)
        ensures { AreOrLost (option_map (kept_opened names.now name.now opened.now) self.old)
            self.new }
    {
        if let Some(kept) = self.ports.take() {
            self.ports = keep_opened(names, name, opened, kept).ok();
        }
    }

    /// Puts the ports that others have kept behind these.
    pub fn join(&mut self, others: SavedPorts)
        ensures { AreOrLost (both_kept self.old others) self.new }
    {
        if let Some(kept) = self.ports.take() {
            self.ports = joined(kept, others.ports);
        }
    }

    /// All ports that are kept; none once memory was wanting.
    pub fn into_ports(self) -> Option<Vec<KeptPort>>
        ensures { ports_in result ≡ self }
    {
        self.ports
    }
}
