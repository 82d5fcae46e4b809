//! Whether an entry's ask and answer stand together in one line.
ghost use Rattle.std.specs.Prelude.{◌≡◌};
ghost use Rattle.std.specs.List.{list_all};
ghost use Rattle.nm_types.specs.Names.{is_name};
ghost use Rattle.nm_types.specs.SyncFaults.{is_check_fault};
ghost use Rattle.vale_entry.specs.Transcript.{is_printable, dests_rise, is_unmarked, is_refusal};

use nm_types::{Name, OpenFault, SyncFault};
use vale_entry::{Ask, Dest, Entry, Item, Reply};

/// The text of a name is that of a name.
fn is_name(name: &Name) -> bool
    ensures { result ≡ is_name name.now }
{
    let _text = name.as_bytes();
    true
}

fn is_refusal(fault: &OpenFault) -> bool
    ensures { result ≡ is_refusal fault.now }
{
    !matches!(fault, OpenFault::RecordFull { .. } | OpenFault::NoMemory)
}

fn is_check_fault(fault: &SyncFault) -> bool
    ensures { result ≡ is_check_fault fault.now }
{
    !matches!(
        fault,
        SyncFault::PeerGone | SyncFault::RecordFull { .. } | SyncFault::NoMemory
    )
}

/// Whether destinations rise.
#[tactic(auto, using(crate::proofs::Rising::rising))]
fn dests_rise(dests: &[Dest]) -> bool
    ensures { result ≡ dests_rise dests.now }
{
    for i in 1..dests.len() {
        if dests[i - 1].to.0 >= dests[i].to.0 {
            return false;
        }
    }
    true
}

fn is_unmarked(item: &Item) -> bool
    ensures { result ≡ is_unmarked item.now }
{
    !item.bytes.no_learn()
}

fn are_unmarked(items: &[Item]) -> bool
    ensures { result ≡ list_all is_unmarked items.now }
{
    items.iter().all(|item| is_unmarked(item))
}

/// Tells whether an entry may stand in a history under its number.
pub fn is_printable(number: u32, entry: &Entry) -> bool
    ensures { result ≡ is_printable number entry.now.session.0 entry.now.ask entry.now.reply }
{
    let asker = entry.session.0;
    match (&entry.ask, &entry.reply) {
        (Ask::Enter { .. }, Reply::Made) => asker == number,
        (Ask::Open { session, name, .. }, Reply::Opened) => asker == session.0 && is_name(name),
        (Ask::Open { session, name, .. }, Reply::Refused { fault }) => {
            asker == session.0 && (is_name(name) && is_refusal(fault))
        }
        (Ask::Send { .. }, Reply::Offered { to, .. }) => dests_rise(to.as_slice()),
        (Ask::Sync { .. } | Ask::Get { .. }, Reply::Gave { to, .. }) => dests_rise(to.as_slice()),
        (Ask::Leave { session }, Reply::Made) => asker == session.0,
        (Ask::Reset { fault, .. }, Reply::Made) => is_check_fault(fault),
        (Ask::PutKept { .. }, Reply::Took { items, to }) => {
            are_unmarked(items.as_slice()) && dests_rise(to.as_slice())
        }
        (
            Ask::Watch { target, .. },
            Reply::Watching { .. } | Reply::NoTarget | Reply::Watched { .. },
        ) => { is_name(target) }
        (Ask::Grant { .. }, Reply::Shared { .. })
        | (Ask::Done { .. } | Ask::Shut { .. }, Reply::Made)
        | (Ask::Finish { .. }, Reply::Unread { .. })
        | (Ask::PutKept { .. }, Reply::PeerGone)
        | (Ask::Stat { .. }, Reply::Counted { .. }) => true,
        _ => false,
    }
}
