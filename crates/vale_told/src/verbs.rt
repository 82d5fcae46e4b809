//! Entries by what they ask.
ghost use Rattle.std.specs.Prelude.{◌≡◌, count_by};
ghost use Rattle.vale_told.specs.Verbs.{verb_of, has_verb};

use vale_entry::{Ask, Entry};

/// The verbs of a transcript.
pub const VERBS: [&[u8]; 14] = [
    b"enter", b"open", b"send", b"put", b"grant", b"done", b"sync", b"get", b"reset", b"watch",
    b"stat", b"shut", b"finish", b"leave",
];

/// The verb of what was asked, as a transcript has it.
pub fn verb_of(ask: &Ask) -> &'static [u8]
    ensures { result.now ≡ verb_of ask.now }
{
    match ask {
        Ask::Enter { .. } => b"enter",
        Ask::Open { .. } => b"open",
        Ask::Send { .. } => b"send",
        Ask::Grant { .. } => b"grant",
        Ask::Done { .. } => b"done",
        Ask::Sync { .. } => b"sync",
        Ask::Reset { .. } => b"reset",
        Ask::Shut { .. } => b"shut",
        Ask::Finish { .. } => b"finish",
        Ask::Leave { .. } => b"leave",
        Ask::Put { .. } | Ask::PutKept { .. } => b"put",
        Ask::Get { .. } => b"get",
        Ask::Watch { .. } => b"watch",
        Ask::Stat { .. } => b"stat",
    }
}

/// How many entries have this verb.
pub fn count_of(entries: &[Entry], verb: &[u8]) -> usize
    ensures { result ≡ count_by (has_verb verb.now) entries.now }
{
    entries
        .iter()
        .filter(|entry| verb_of(&entry.ask) == verb)
        .count()
}
