//! What the users of a script play on.

use nm_types::{Name, StepFault};
use std::alloc::Global;
use vale_captures::Inputs;
use vale_fabric::Fabric;

/// How users end a line, a unit or a script: a fault may stop one of them.
pub(crate) type Ended = Result<(), StepFault>;

/// The fabric to which the users of a script come, and what they need beside it to do their lines.
#[derive(Drop)]
pub(crate) struct Scene<'f, R, G> {
    pub(crate) alloc: Global,
    pub(crate) rt: &'f R,
    pub(crate) fabric: &'f Fabric,
    /// The names of the ports whose frames are kept.
    pub(crate) names: &'f [Name],
    pub(crate) inputs: &'f Inputs,
    pub(crate) gate: &'f G,
}
