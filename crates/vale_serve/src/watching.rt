ghost use Rattle.std.specs.Prelude.{◌≡◌, ◌&&◌, not};
ghost use Rattle.nm_types.specs.Names.{is_name, is_monitor_name};
ghost use Rattle.vale_entry.specs.declared.entry.Ask.TheVariants as asks;
ghost use Rattle.vale_serve.specs.Joined.{AsksAt};
ghost use Rattle.vale_serve.specs.Replies.{watch_answer};
ghost use Rattle.vale_serve.specs.Words.{IsServed, IsUser, open_port, standing};

use crate::users::User;
use nm_types::{Kind, Name, PortId, Sides, StepFault, WatchFault};
use vale_book::{Book, PortSeen};
use vale_entry::Reply;

/// What is answered of a watch.
fn answer_of(watched: Result<PortId, WatchFault>) -> Result<Reply, StepFault>
    ensures { result ≡ watch_answer watched }
{
    match watched {
        Ok(target) => Ok(Reply::Watching { target }),
        Err(WatchFault::NoTarget) => Ok(Reply::NoTarget),
        Err(WatchFault::Watched { by }) => Ok(Reply::Watched { by }),
        Err(WatchFault::RecordFull { what, used, want }) => {
            Err(StepFault::RecordFull { what, used, want })
        }
        Err(WatchFault::NoMemory) => Err(StepFault::NoMemory),
    }
}

/// Tells whether a port of this name may watch under that name: a monitor may, any port but a
/// monitor.
#[tactic(auto, unfolding(nm_types::specs::Names::is_name, nm_types::specs::Names::is_monitor_name))]
fn can_watch(monitor: &Name, target: &Name) -> bool
    ensures { result
        ≡ (is_monitor_name monitor.now && (is_name target.now && not (is_monitor_name target.now))) }
{
    monitor.is_monitor() && !matches!(&target.kind(), Kind::Monitor)
}

/// A session's monitor watches the port of this name.
pub(crate) fn watch(
    book: &mut Book,
    user: &User,
    monitor: PortId,
    seen: PortSeen,
    target: &Name,
    sides: Sides,
) -> Result<Option<Reply>, StepFault>
    requires { AsksAt book.old user.now (open_port (standing book.old).world.ports monitor.0)
        seen }
    ensures served { IsServed book.old book.new (asks.Watch monitor target.now sides) result }
    ensures kept { IsUser book.new user.now }
{
    if !can_watch(&seen.name, target) {
        return Ok(None);
    }
    let reply = answer_of(book.watch(monitor, target, sides))?;
    Ok(Some(reply))
}
