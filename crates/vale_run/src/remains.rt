//! The memory that a run leaves.
use std::mem::ManuallyDrop;
use vale_entry::History;
use vale_script::Script;

/// The script of a run and its record, once it was written. To drop them gives their memory back,
/// line by line, list by list and batch by batch.
#[derive(Drop)]
pub struct Remains {
    history: Option<History>,
    script: Option<Script>,
}

impl Remains {
    /// Nothing remains.
    pub fn new() -> Remains {
        Remains {
            history: None,
            script: None,
        }
    }

    /// Keeps a record.
    pub(crate) fn keep(&mut self, history: History) {
        self.history = Some(history);
    }

    /// Keeps a script that was played.
    pub(crate) fn keep_script(&mut self, script: Script) {
        self.script = Some(script);
    }

    /// Leaves the memory where it lies. It is for a process that ends, with which all memory goes
    /// back at once.
    pub fn leave(self) {
        let _left = ManuallyDrop::new(self);
    }
}
