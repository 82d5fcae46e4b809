//! The turn: a lock over one value whose entries make up one counted history.
#![tactic(auto)]

mod kept;
mod pass;
mod rule;
mod turn;
mod view;

pub use kept::Kept;
pub use pass::Pass;
pub use turn::Turn;
pub use view::{Known, PassView, Share, TurnStage};
