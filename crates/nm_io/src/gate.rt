/// How far the delivery of a batch is, for one destination.
#[derive(Clone, Copy, Debug, PartialEq, Eq)]
pub enum Stage {
    /// The destination answered how many frames it has room for.
    Granted,
    /// The frames are copied into the granted slots.
    Filled,
    /// The destination was told that the slots are filled.
    Done,
}

/// Is called at each stage of a delivery, so that a test can hold a user back. The caller holds no
/// lock then.
pub trait Gate: Sync {
    /// Returns once `user` may go on past `stage`.
    fn pass(&self, user: u64, stage: Stage);
}

/// A gate that never holds a user back.
#[derive(Clone, Copy, Debug)]
pub struct NoGate;

impl Gate for NoGate {
    fn pass(&self, _user: u64, _stage: Stage) {}
}
