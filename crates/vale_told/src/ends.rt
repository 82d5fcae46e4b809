//! The ends of pipes that are open, as the entries tell it.
ghost use Rattle.std.specs.Prelude.{◌≡◌, OnOk, find, option_copied};
ghost use Rattle.vale_told.specs.Ends.{is_opened, ends_opened, ends_by, has_id, has_name, peer_among};

use nm_types::{Name, NoMemory};
use vale_entry::{Ask, Entry, Reply};

/// An open end of a pipe. In a history of a switch there are 32 at most.
#[derive(Clone, Copy)]
pub(crate) struct End {
    /// The port's number.
    id: u32,
    name: Name,
    /// The name of the other end.
    peer: Name,
}

/// Whether an opening was not refused.
pub(crate) fn is_opened(reply: &Reply) -> bool
    ensures { result ≡ is_opened reply.now }
{
    matches!(reply, Reply::Opened)
}

/// Adds the end that an opening opens, if it does.
fn open_end(ends: &mut Vec<End>, id: u32, name: &Name, reply: &Reply) -> Result<(), NoMemory>
    ensures { OnOk result (ends.new.items ≡ ends_opened id name.now reply.now ends.old.items) }
{
    if is_opened(reply) && name.is_pipe() {
        ends.push(End {
            id,
            name: *name,
            peer: name.peer(),
        })?;
    }
    Ok(())
}

/// Brings the ends that are open behind an entry of this number.
pub(crate) fn change_ends(ends: &mut Vec<End>, number: u32, entry: &Entry) -> Result<(), NoMemory>
    ensures { OnOk result (ends.new.items ≡ ends_by number entry.now.ask entry.now.reply ends.old.items) }
{
    match &entry.ask {
        Ask::Open { name, .. } => open_end(ends, number, name, &entry.reply),
        Ask::Shut { port } => {
            ends.retain(|end| end.id != port.0);
            Ok(())
        }
        Ask::Enter { .. }
        | Ask::Send { .. }
        | Ask::Grant { .. }
        | Ask::Done { .. }
        | Ask::Sync { .. }
        | Ask::Reset { .. }
        | Ask::Finish { .. }
        | Ask::Leave { .. }
        | Ask::Put { .. }
        | Ask::PutKept { .. }
        | Ask::Get { .. }
        | Ask::Watch { .. }
        | Ask::Stat { .. } => Ok(()),
    }
}

/// The open end of this port.
fn end_of(ends: &[End], id: u32) -> Option<&End>
    ensures { option_copied result ≡ find (has_id id) ends.now }
{
    ends.iter().find(|end| end.id == id)
}

/// The open end of this name.
fn end_as<'a>(ends: &'a [End], name: &Name) -> Option<&'a End>
    ensures { option_copied result ≡ find (has_name name.now) ends.now }
{
    ends.iter()
        .find(|end| end.name.as_bytes() == name.as_bytes())
}

/// The port at the other end of this one, if both are open.
pub(crate) fn peer_among(ends: &[End], id: u32) -> Option<u32>
    ensures { result ≡ peer_among ends.now id }
{
    let end = end_of(ends, id)?;
    let peer = end_as(ends, &end.peer)?;
    Some(peer.id)
}
