//! The token of a caller.
use crate::kept::Kept;
use crate::rule::View;
use atomic_table::Seat;

/// A caller's token for one turn: what the caller has seen of the history, what it added, and its
/// share of the whole. It has no bytes, and can be sent to another thread. If a pass is dropped,
/// its share is lost and, if it has entered, so is the turn.
#[derive(Drop)]
pub struct Pass<B: Kept> {
    pub(crate) seat: Seat<Option<B>, View<B>>,
}
