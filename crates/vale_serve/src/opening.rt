ghost use Rattle.std.specs.Prelude.{◌≡◌, ◌≤◌, [], true, vec_capacity, IfOk};
ghost use Rattle.nm_types.specs.Names.{is_name};
ghost use Rattle.vale_entry.specs.declared.entry.Ask.TheVariants as asks;
ghost use Rattle.vale_entry.specs.World.{is_session};
ghost use Rattle.vale_serve.specs.Opening.{unopened, most_given, CanTake, TakesIn, HasTaken};
ghost use Rattle.vale_serve.specs.Words.{IsLegal, IsMemory, IsServed, IsUser, SameUser, standing};

use crate::buffers::move_all;
use crate::users::{Room, User};
use nm_region::Buf;
use nm_types::{Kind, MAX_EXTRA, MAX_RING, Name, NoMemory, OpenFault, StepFault};
use std::alloc::Global;
use vale_book::{Book, Opened};
use vale_entry::Reply;

/// The most buffers that a session holds for one port: for two rings, and extra ones.
pub const MOST_DUE: usize = 2 * MAX_RING as usize + MAX_EXTRA as usize;

/// What is answered where no port is opened.
fn unopened(fault: OpenFault) -> Result<Reply, StepFault>
    ensures { result ≡ unopened fault }
{
    match fault {
        OpenFault::RecordFull { what, used, want } => {
            Err(StepFault::RecordFull { what, used, want })
        }
        OpenFault::NoMemory => Err(StepFault::NoMemory),
        fault => Ok(Reply::Refused { fault }),
    }
}

/// The most buffers that an opening gives to its session: a monitor has no transmit ring.
#[tactic(auto, unfolding(nm_types::specs::Names::is_name, nm_types::specs::Names::is_monitor_name))]
fn most_given(name: &Name, tx: u32, extra: u32) -> usize
    ensures given { result ≡ most_given name.now tx extra }
    ensures named { is_name name.now ≡ true }
{
    let sent = match name.kind() {
        Kind::Monitor => 0,
        _ => tx.min(MAX_RING),
    };
    sent as usize + extra.min(MAX_EXTRA) as usize
}

/// Makes room for what an opening gives, and for the buffers with which its port goes.
fn room_to_open(
    alloc: Global,
    user: &mut User,
    name: &Name,
    tx: u32,
    extra: u32,
) -> Result<Vec<Buf>, NoMemory>
    ensures same { SameUser user.old user.new }
    ensures room { IfOk result IsMemory }
    ensures takes { IfOk result (λ _. CanTake name.now tx extra user.new) }
    ensures named { is_name name.now ≡ true }
{
    user.bufs.reserve(most_given(name, tx, extra))?;
    user.rooms.reserve(1)?;
    Ok(Vec::with_capacity(alloc, MOST_DUE)?)
}

/// Gives a session what an opening gave, for which there is room.
fn take_in(user: &mut User, opened: Opened, room: Vec<Buf>)
    requires takes { TakesIn user.old opened }
    requires room { IsMemory room }
    ensures { HasTaken user.old opened room user.new }
{
    let (port, tx, extra) = opened.into_parts();
    move_all(tx, &mut user.bufs);
    move_all(extra, &mut user.bufs);
    user.rooms.push_reserved(Room { port, bufs: room });
}

/// A session opens a port.
pub(crate) fn open(
    alloc: Global,
    book: &mut Book,
    user: &mut User,
    name: &Name,
    tx: u32,
    rx: u32,
    extra: u32,
) -> Result<Option<Reply>, StepFault>
    requires legal { IsLegal book.old.pool book.old.entries }
    requires user { IsUser book.old user.old }
    requires there { is_session (standing book.old).world user.old.id.0 ≡ true }
    ensures served { IsServed book.old book.new
        (asks.Open user.old.id name.now tx rx extra) result }
    ensures kept { IsUser book.new user.new }
    ensures id { user.new.id ≡ user.old.id }
{
    let room = room_to_open(alloc, user, name, tx, extra)?;
    match book.open(user.id, name, tx, rx, extra) {
        Ok(opened) => {
            take_in(user, opened, room);
            Ok(Some(Reply::Opened))
        }
        Err(fault) => {
            room.destroy_empty();
            Ok(Some(unopened(fault)?))
        }
    }
}
