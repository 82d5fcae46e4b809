ghost use Rattle.std.specs.Prelude.{◌≡◌, ◌≤◌, ◌<◌, ◌+◌, ◌-◌, ◌*◌, ◌^◌, [], ◌∷◌, ◌++◌, length};
ghost use Rattle.std.specs.Prelude.{slice_set, vec_capacity, IsSome, OnOk, OnErr, IfOk};
ghost use Rattle.std.specs.Prelude.{IfErr};
ghost use Rattle.vale_steps.specs.Words.{ChangesSeat, Fits, ForSome, Gives, IsFull, OfSeat};
ghost use Rattle.vale_steps.specs.Words.{OfState, Rx, SumFits, counts_of, delivered_frames};
ghost use Rattle.vale_steps.specs.Words.{given_by_sync, indices_of, monitor_of, out_of, ready_gots};
ghost use Rattle.vale_steps.specs.Words.{room_to_sync, seat_synced, sizes_of, tally_after_add};
ghost use Rattle.vale_steps.specs.Words.{with_line};
ghost use Rattle.vale_entry.specs.declared.entry.Reply.TheVariants as replies;
ghost use Rattle.vale_steps.specs.Monitored.{offers_to, room_of_wants};
ghost use Rattle.vale_steps.specs.Reading.{read_ask, read_entry, wants_read};
ghost use Rattle.vale_steps.specs.Reading.{count_read};
ghost use Rattle.vale_steps.specs.Wanting.{AreSmall, sizes_for};

use crate::buffers::indices;
use crate::monitored::Monitored;
use crate::offers::Offers;
use nm_count::Tally;
use nm_region::Buf;
use nm_types::{Counts, NoMemory, PortId, SessionId, Side, StepFault};
use nm_watch::Watches;
use std::alloc::Global;
use vale_entry::{Ask, Dests, Entry, History, Numbers, Reply};
use vale_line::Got;
use vale_port::{Port, sync_at};

/// What a sync, or a get, gave: the buffers with the frames that were ready, and what of these is
/// offered to a monitor. Both must be spent.
pub struct Synced {
    pub got: Vec<Got>,
    pub offers: Offers,
}

/// What is known of a sync, or of a get, before it is made.
#[derive(Clone, Copy)]
pub struct Reading {
    pub at: PortId,
    pub place: usize,
    /// A get, of a pipe end.
    pub is_pipe: bool,
    pub session: SessionId,
    /// How many frames are ready.
    pub frames: u32,
    /// The monitor of the port's receive side.
    pub monitor: Option<PortId>,
}

/// Memory for what is given and for the numbers of what comes back.
struct ReadRoom {
    got: Vec<Got>,
    numbers: Vec<u32>,
    monitored: Monitored,
}

/// Reads what is known of a sync or a get of the port at a place.
pub fn reading_at(
    ports: &[Port],
    watches: &Watches,
    at: PortId,
    place: usize,
    is_pipe: bool,
) -> Reading
    requires { place < length ports.now }
    ensures at { result.at ≡ at }
    ensures place { result.place ≡ place }
    ensures pipe { result.is_pipe ≡ is_pipe }
    ensures session { OfState (λ p. result.session.0 ≡ p.session) ports.now place }
    ensures frames { OfSeat (λ seat. result.frames ≡ length (delivered_frames seat.port))
        ports.now place }
    ensures monitor { result.monitor ≡ monitor_of watches.now at.0 Rx }
{
    let port = &ports[place];
    Reading {
        at,
        place,
        is_pipe,
        session: port.session(),
        frames: port.ready_frames(),
        monitor: watches.of(at, Side::Rx),
    }
}

/// The slots of each frame that is ready at the port of a place.
pub fn ready_sizes(alloc: Global, ports: &[Port], place: usize) -> Result<Vec<u32>, NoMemory>
    requires { place < length ports.now }
    ensures { IfOk result (λ sizes. OfSeat (λ seat. sizes.items
        ≡ sizes_of (delivered_frames seat.port)) ports.now place) }
{
    let port = &ports[place];
    let mut sizes = Vec::with_capacity(alloc, port.ready_frames() as usize)?;
    port.ready_sizes(&mut sizes);
    Ok(sizes)
}

/// The slots of each frame that is ready, if there is a monitor that is to be offered them.
pub fn sizes_for(alloc: Global, ports: &[Port], reading: Reading) -> Result<Vec<u32>, NoMemory>
    requires { reading.place < length ports.now }
    ensures { IfOk result (λ sizes. OfSeat (λ seat. sizes.items
        ≡ sizes_for reading.monitor (delivered_frames seat.port)) ports.now reading.place) }
{
    match reading.monitor {
        Some(_) => ready_sizes(alloc, ports, reading.place),
        None => Ok(Vec::new(alloc)),
    }
}

/// The ask that is recorded.
fn read_ask(is_pipe: bool, port: PortId, back: Numbers) -> Ask
    ensures { result ≡ read_ask is_pipe port back }
{
    if is_pipe {
        Ask::Get { port, back }
    } else {
        Ask::Sync { port, back }
    }
}

/// Promises room for the entry and for the grants to come, with memory for what is given.
fn promise_read(
    alloc: Global,
    history: &mut History,
    room: u32,
    dests: u64,
) -> Result<Vec<Got>, StepFault>
    requires { dests < 2 ^ 32 }
    ensures got { IfOk result (λ got. (got.items ≡ []) × (room ≤ vec_capacity got)) }
    ensures promised { OnOk result (history.new.promised ≡ history.old.promised + (1 + 2 * dests)) }
    ensures entries { history.new.entries ≡ history.old.entries }
    ensures limits { history.new.limits ≡ history.old.limits }
    ensures fits { OnOk result (Fits history.old (1 + 2 * dests) 0) }
    ensures full { IfErr result (IsFull history.old (1 + 2 * dests) 0) }
    ensures err { OnErr result (history.new.promised ≡ history.old.promised) }
{
    let got = Vec::with_capacity(alloc, room as usize)?;
    if let Err(fault) = history.reserve(1 + 2 * dests, 0) {
        got.destroy_empty();
        return Err(fault);
    }
    Ok(got)
}

/// Makes room for all that a sync or a get gives and records, with room for `room` buffers, as the
/// port wants.
fn room_to_read(
    alloc: Global,
    history: &mut History,
    reading: Reading,
    sizes: Vec<u32>,
    back: &[Buf],
    room: u32,
) -> Result<ReadRoom, StepFault>
    requires { AreSmall sizes.items }
    ensures got { IfOk result (λ made. (made.got.items ≡ [])
        × (room ≤ vec_capacity made.got)) }
    ensures numbers { IfOk result (λ room. room.numbers.items ≡ indices_of back.now) }
    ensures monitored { IfOk result (λ room. room.monitored ≡ wants_read reading sizes.items) }
    ensures promised { OnOk result (history.new.promised
        ≡ history.old.promised + room_of_wants (wants_read reading sizes.items)) }
    ensures entries { history.new.entries ≡ history.old.entries }
    ensures limits { history.new.limits ≡ history.old.limits }
    ensures fits { OnOk result (Fits history.old (room_of_wants (wants_read reading sizes.items)) 0) }
    ensures full { IfErr result (IsFull history.old (room_of_wants (wants_read reading sizes.items)) 0) }
    ensures err { OnErr result (history.new.promised ≡ history.old.promised) }
{
    let numbers = indices(alloc, back)?;
    let monitored = Monitored::new(alloc, reading.monitor, sizes)?;
    let got = promise_read(alloc, history, room, monitored.len())?;
    Ok(ReadRoom {
        got,
        numbers,
        monitored,
    })
}

/// Records what is given, and counts it at its port.
#[tactic(auto, using(crate::proofs::ReadBytes::reads))]
fn record_read(history: &mut History, tally: &mut Tally, reading: Reading, back: Numbers, to: Dests)
    requires promised { 0 < history.old.promised }
    requires counted { IsSome (counts_of tally.old reading.at.0) }
    requires fits { ForSome (counts_of tally.old reading.at.0)
        (λ counts. SumFits counts (count_read reading.frames)) }
    ensures entries { history.new.entries ≡ history.old.entries
        ++ (record {
          session = reading.session;
          ask = read_ask reading.is_pipe reading.at back;
          reply = replies.Gave reading.frames to;
        }) ∷ [] }
    ensures promised { history.new.promised ≡ history.old.promised - 1 }
    ensures limits { history.new.limits ≡ history.old.limits }
    ensures tally { tally.new ≡ tally_after_add reading.at.0 (count_read reading.frames) tally.old }
{
    let counts = Counts {
        read: reading.frames as u64,
        ..Counts::ZERO
    };
    tally.add(reading.at, &counts);
    history.push(Entry {
        session: reading.session,
        ask: read_ask(reading.is_pipe, reading.at, back),
        reply: Reply::Gave {
            count: reading.frames,
            to,
        },
    });
}

/// Takes buffers back to the port, gives what is ready, and records it.
pub fn read(
    alloc: Global,
    history: &mut History,
    ports: &mut Vec<Port>,
    tally: &mut Tally,
    reading: Reading,
    sizes: Vec<u32>,
    back: Vec<Buf>,
) -> Result<Synced, (StepFault, Vec<Buf>)>
    requires place { reading.place < length ports.old.items }
    requires returned { OfState (λ p. length back.items ≤ out_of p.line)
        ports.old.items reading.place }
    requires small { AreSmall sizes.items }
    requires counted { IsSome (counts_of tally.old reading.at.0) }
    requires fits { ForSome (counts_of tally.old reading.at.0)
        (λ counts. SumFits counts (count_read reading.frames)) }
    ensures entries { OnOk result (history.new.entries ≡ history.old.entries
        ++ read_entry reading sizes.items (indices_of back.items) ∷ []) }
    ensures promised { OnOk result (history.new.promised + 1
        ≡ history.old.promised + room_of_wants (wants_read reading sizes.items)) }
    ensures limits { history.new.limits ≡ history.old.limits }
    ensures seats { OnOk result (ChangesSeat (seat_synced (indices_of back.items))
        ports.old.items reading.place ports.new.items) }
    ensures line { OnOk result (OfState (λ p. ports.new.items
        ≡ slice_set ports.old.items reading.place (with_line (given_by_sync back.items p.line) p))
        ports.old.items reading.place) }
    ensures gives { IfOk result (λ synced. OfSeat (λ seat. Gives seat synced.got.items)
        ports.old.items reading.place) }
    ensures got { IfOk result (λ synced. OfState
        (λ p. synced.got.items ≡ ready_gots p.line.lots) ports.old.items reading.place) }
    ensures offers { IfOk result (λ synced. synced.offers
        ≡ offers_to (length history.old.entries + 1) reading.session (wants_read reading sizes.items)) }
    ensures tally { OnOk result (tally.new
        ≡ tally_after_add reading.at.0 (count_read reading.frames) tally.old) }
    ensures fits { OnOk result (Fits history.old (room_of_wants (wants_read reading sizes.items)) 0) }
    ensures full { IfErr result (λ refused. IsFull history.old (room_of_wants (wants_read reading sizes.items)) 0 refused.0) }
    ensures back { IfErr result (λ refused. refused.1 ≡ back) }
    ensures err { OnErr result ((history.new.entries ≡ history.old.entries)
        × (history.new.promised ≡ history.old.promised) × (ports.new.items ≡ ports.old.items)
        × (tally.new ≡ tally.old)) }
{
    let wanted = ports[reading.place].room_to_sync();
    let room = match room_to_read(alloc, history, reading, sizes, &back, wanted) {
        Ok(room) => room,
        Err(fault) => return Err((fault, back)),
    };
    let ReadRoom {
        got,
        numbers,
        monitored,
    } = room;
    let entry = history.len() + 1;
    let (offers, to) = monitored.into_offers(entry, reading.session);
    let got = sync_at(ports, reading.place, back, got);
    record_read(history, tally, reading, Numbers::from(numbers), to);
    Ok(Synced { got, offers })
}
