//! What a caller knows of a turn. No value of these types is made: they exist in contracts and
//! proofs alone.
use std::collections::LinkedList;

/// A part of the whole: `share` / 2^`depth`.
pub struct Share {
    /// How many parts it is.
    pub share: u64,
    /// How often the whole was halved to make one part.
    pub depth: u64,
}

/// What a pass knew before it was made one with another.
pub struct Known<E> {
    /// A beginning of the history.
    pub seen: LinkedList<E>,
    /// The pass's own entries with their numbers, rising.
    pub mine: LinkedList<(u64, E)>,
}

/// How far a pass is in taking the turn.
pub enum TurnStage<E> {
    /// It does not have the turn.
    Outside,
    /// It has the turn, and the value is in its place. The list is the history.
    Inside(LinkedList<E>),
    /// It has the turn and the value. The list is the history.
    Out(LinkedList<E>),
    /// It was just made one with another pass: what each of the two knew.
    Joining(Known<E>, Known<E>),
}

/// What a pass knows and has.
pub struct PassView<E, F> {
    /// What never changes of the value; no step can tell it from the table alone. `None` if the
    /// pass was joined into another.
    pub fixed: Option<F>,
    /// A beginning of the history.
    pub seen: LinkedList<E>,
    /// The entries made through this pass, or through one that was joined into it, with their
    /// numbers, rising.
    pub mine: LinkedList<(u64, E)>,
    /// Its part of the whole.
    pub part: Share,
    /// How far it is in taking the turn.
    pub stage: TurnStage<E>,
}
