//! The rule of the table, and the names of its steps. There are nine kinds of step, and no other
//! touches the table: the turn is taken or missed (`TakeTurn`), a pass begins or ends to wait
//! (`Awaits`), the value is taken out (`TakeValue`), an entry is counted (`Commit`), the value is
//! put back (`PutValue`), the turn is given up (`Release`), a pass is cut in two (`Halve`), and two
//! passes are made one (`Add`, and `Learn`, which tells what the rule knows of both).
ghost use Rattle.nm_turn.specs.Plays.{takes_turn, awaits, takes_value, commits, puts_value, releases, learns};

use crate::kept::Kept;
use crate::view::PassView;
use atomic_table::{Join, Play, Split, TableRule};
use std::marker::PhantomData;
use std::snapshot::Snapshot;

/// What a pass of a turn over `B` knows.
pub type View<B> = PassView<<B as Kept>::Entry, <B as Kept>::Fixed>;

/// The rule that each step keeps (`specs/Rule.antt`).
pub struct Law<B> {
    kept: PhantomData<B>,
}

impl<B: Kept> TableRule<Option<B>, View<B>, Snapshot<B>> for Law<B> {
    ghost use Rattle.nm_turn.specs.Rule.{TurnRule};
    ghost use Rattle.nm_turn.specs.Passes.{first_view};

    ghost holds = { λ key. TurnRule B.entries B.fixed B.root (B.fixed key.value) };

    ghost first = { λ key. first_view (B.fixed key.value) };
}

/// Changes word 0 from 0 to 1, or leaves it 1.
pub(crate) struct TakeTurn;

impl<B: Kept> Play<Option<B>, View<B>> for TakeTurn {
    ghost then = { takes_turn };
}

/// Changes word 2, which counts the passes that wait, and tells nothing.
pub(crate) struct Awaits;

impl<B: Kept> Play<Option<B>, View<B>> for Awaits {
    ghost then = { awaits };
}

/// Takes the value out of its place. It is the one that stands for the history.
pub(crate) struct TakeValue<B> {
    kept: PhantomData<B>,
}

impl<B: Kept> Play<Option<B>, View<B>> for TakeValue<B> {
    ghost then = { takes_value B.entries B.fixed B.root };
}

/// Adds 1 to word 1, and makes the new entry the pass's own.
pub(crate) struct Commit<B> {
    kept: PhantomData<B>,
}

impl<B: Kept> Play<Option<B>, View<B>> for Commit<B> {
    ghost then = { commits B.entries B.root };
}

/// Tells that the value is in its place again.
pub(crate) struct PutValue<B> {
    kept: PhantomData<B>,
}

impl<B: Kept> Play<Option<B>, View<B>> for PutValue<B> {
    ghost then = { puts_value B.root };
}

/// Changes word 0 back to 0.
pub(crate) struct Release;

impl<B: Kept> Play<Option<B>, View<B>> for Release {
    ghost then = { releases };
}

/// Tells that what two passes knew before they were made one was known of one history.
pub(crate) struct Learn<B> {
    kept: PhantomData<B>,
}

impl<B: Kept> Play<Option<B>, View<B>> for Learn<B> {
    ghost then = { learns B.root };
}

/// Halves the share; the new pass has made nothing.
pub(crate) struct Halve;

impl<E, F> Split<PassView<E, F>> for Halve {
    ghost use Rattle.nm_turn.specs.Passes.{kept_view, forked_view};

    ghost left = { kept_view };

    ghost right = { forked_view };
}

/// Adds the shares; what both passes made is the pass's own.
pub(crate) struct Add;

impl<E, F> Join<PassView<E, F>> for Add {
    ghost use Rattle.nm_turn.specs.Passes.{joining_view, spent_view};

    ghost both = { joining_view };

    ghost spent = { spent_view };
}
