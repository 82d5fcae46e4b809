//! The users of a history.
ghost use Rattle.std.specs.Prelude.{◌≡◌, ◌<◌, ◌-◌, ◌^◌, ℕ, length, count_by, IfOk};
ghost use Rattle.vale_told.specs.Users.{count_in, entries_of, user_entered, users_told};

use crate::listed::push_some;
use nm_types::NoMemory;
use std::alloc::Global;
use std::collections::HashMap;
use vale_entry::{Ask, Entry};

/// A user who came.
#[derive(Clone, Copy, Debug, PartialEq, Eq)]
pub struct User {
    /// The session, whose number is that of the entry with which the user came.
    pub session: u32,
    /// The number that the user gave.
    pub user: u64,
    /// How many entries are of the session.
    pub entries: u32,
}

/// How many entries are of each session.
fn counts_by_session(alloc: Global, entries: &[Entry]) -> Result<HashMap<u32, u32>, NoMemory>
    requires { length entries.now < 2 ^ 32 - 1 }
    ensures { IfOk result (λ counts. (session : ℕ) → count_in counts session ≡ entries_of entries.now session) }
{
    let mut counts = HashMap::new(alloc);
    for entry in entries {
        let session = entry.session.0;
        let count: u32 = counts.get(&session).copied().unwrap_or(0);
        counts.insert(session, count + 1)?;
    }
    Ok(counts)
}

/// The user who comes with an entry of this number.
fn user_entered(counts: &HashMap<u32, u32>, number: u32, entry: &Entry) -> Option<User>
    ensures { result ≡ user_entered (count_in counts.now) number entry.now }
{
    match &entry.ask {
        Ask::Enter { user } => Some(User {
            session: number,
            user: *user,
            entries: counts.get(&number).copied().unwrap_or(0),
        }),
        _ => None,
    }
}

/// Lists the users who came, in their order.
pub fn users(alloc: Global, entries: &[Entry]) -> Result<Vec<User>, NoMemory>
    requires { length entries.now < 2 ^ 32 - 1 }
    ensures { IfOk result (λ users. users.items ≡ users_told entries.now) }
{
    let counts = counts_by_session(alloc, entries)?;
    let mut users = Vec::new(alloc);
    for (i, entry) in entries.iter().enumerate() {
        push_some(&mut users, user_entered(&counts, i as u32 + 1, entry))?;
    }
    Ok(users)
}
