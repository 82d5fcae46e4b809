ghost use Rattle.std.specs.Prelude.{◌≡◌, ◌≤◌, ◌+◌, ◌++◌, IfOk, length, replicate, true, false};
ghost use Rattle.std.specs.Prelude.{slice_index_or, slice_set};
ghost use Rattle.nm_port.specs.Words.{vec_capacity};
ghost use Rattle.nm_port.specs.MarkLists.{blanks};

use std::alloc::{AllocError, Global};
use std::marker::Model;

/// Whether each of so many indices is marked; none is at first. Only those up to the largest index
/// that was marked lie in memory, which is taken for all of them from the start.
#[derive(Drop)]
pub struct Marks {
    count: usize,
    marks: Vec<bool>,
}

impl Model for Marks {
    ghost use Rattle.std.specs.Prelude.{List, Bool};

    ghost Value = { List Bool };

    ghost use Rattle.nm_port.specs.MarkLists.{with_blanks, IsMarks};

    ghost view = { λ m. with_blanks m.count m.marks.items };

    ghost invariant = { IsMarks };
}

/// Puts so many blanks behind marks, for which there is room.
fn push_blanks(marks: &mut Vec<bool>, count: usize)
    requires { length marks.old.items + count ≤ vec_capacity marks.old }
    ensures items { marks.new.items ≡ marks.old.items ++ blanks count }
    ensures room { vec_capacity marks.new ≡ vec_capacity marks.old }
{
    for _ in 0..count {
        marks.push_reserved(false);
    }
}

impl Marks {
    /// No mark at any of so many indices.
    pub fn new(alloc: Global, count: usize) -> Result<Marks, AllocError>
        ensures { IfOk result (λ marks. marks ≡ replicate count false) }
    {
        Ok(Marks {
            count,
            marks: Vec::with_capacity(alloc, count)?,
        })
    }

    /// How many indices there are, marked or not.
    pub fn len(&self) -> usize
        ensures { result ≡ length self.now }
    {
        self.count
    }

    /// Whether an index is marked.
    pub fn is_marked(&self, idx: u32) -> bool
        ensures { result ≡ slice_index_or self.now idx false }
    {
        match self.marks.get(idx as usize) {
            Some(mark) => *mark,
            None => false,
        }
    }

    /// Marks an index, if it is one of theirs.
    pub fn mark(&mut self, idx: u32)
        ensures { self.new ≡ slice_set self.old idx true }
    {
        let idx = idx as usize;
        if idx < self.count {
            let missing = (idx + 1).saturating_sub(self.marks.len());
            push_blanks(&mut self.marks, missing);
            self.marks[idx] = true;
        }
    }

    /// Clears the mark of an index.
    pub fn unmark(&mut self, idx: u32)
        ensures { self.new ≡ slice_set self.old idx false }
    {
        let idx = idx as usize;
        if idx < self.marks.len() {
            self.marks[idx] = false;
        }
    }
}
