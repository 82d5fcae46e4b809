//! Lines that are numbered one after another.
ghost use Rattle.std.specs.Prelude.{◌≡◌, ◌+◌, ◌<◌, ◌^◌, [], ◌∷◌, IfOk, OnOk};
ghost use Rattle.vale_gen.specs.Sheets.{with_deeds};

use nm_types::NoMemory;
use std::alloc::Global;
use std::marker::Model;
use vale_script::{Act, Line};

/// Lines so far, and the number of the next one.
#[derive(Drop)]
pub(crate) struct Sheet {
    next: u32,
    lines: Vec<Line>,
}

impl Model for Sheet {
    ghost use Rattle.vale_gen.specs.Sheets.{Sheet};

    ghost Value = { Sheet };

    ghost view = { λ s. record { next = s.next; lines = s.lines.items } };
}

impl Sheet {
    /// No lines yet; the first will have the number `next`.
    pub(crate) fn new(alloc: Global, next: u32) -> Sheet
        ensures { result ≡ record { next = next; lines = [] } }
    {
        Sheet {
            next,
            lines: Vec::new(alloc),
        }
    }

    /// No lines yet, with room for so many; the first will have the number `next`.
    pub(crate) fn with_room(alloc: Global, next: u32, count: usize) -> Result<Sheet, NoMemory>
        ensures { IfOk result (λ sheet. sheet ≡ record { next = next; lines = [] }) }
    {
        Ok(Sheet {
            next,
            lines: Vec::with_capacity(alloc, count)?,
        })
    }

    /// Adds the line on which a user does this.
    pub(crate) fn add(&mut self, user: u8, act: Act) -> Result<(), NoMemory>
        requires { self.old.next + 1 < 2 ^ 32 }
        ensures { OnOk result (self.new ≡ with_deeds self.old (record { user = user; act = act } ∷ [])) }
    {
        self.lines.push(Line {
            at: self.next,
            user: u32::from(user),
            act,
        })?;
        self.next += 1;
        Ok(())
    }

    /// The lines.
    pub(crate) fn into_lines(self) -> Vec<Line>
        ensures { result.items ≡ self.lines }
    {
        let Sheet { next: _, lines } = self;
        lines
    }
}
