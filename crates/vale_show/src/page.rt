//! A text in memory.
ghost use Rattle.std.specs.Prelude.{◌≡◌, ◌++◌, [], Some, OnOk};
ghost use Rattle.vale_show.specs.Page.{PageState, or_dash};
ghost use Rattle.vale_strip.specs.Pieces.{part_text, parts_text};

use nm_io::{Failed, Sink};
use nm_types::NoMemory;
use std::alloc::Global;
use std::marker::Model;
use vale_strip::{Part, put_parts};

/// A text in memory. Takes every byte, as long as there is memory.
#[derive(Drop)]
pub(crate) struct Page {
    bytes: Vec<u8>,
    faults: u64,
}

impl Model for Page {
    ghost Value = { PageState };

    ghost view = { λ p. record { bytes = p.bytes.items; faults = p.faults } };
}

impl Page {
    pub(crate) fn new(alloc: Global) -> Page
        ensures { result ≡ record { bytes = []; faults = 0 } }
    {
        Page {
            bytes: Vec::new(alloc),
            faults: 0,
        }
    }

    pub(crate) fn bytes(&self) -> &[u8]
        ensures { result.now ≡ self.now.bytes }
    {
        &self.bytes
    }
}

impl Sink for Page {
    ghost holds = { λ p. Some p.bytes };

    ghost faults = { λ p. p.faults };

    fn put(&mut self, bytes: &[u8]) -> Result<usize, Failed> {
        if self.bytes.extend_from_slice(bytes).is_err() {
            self.faults = self.faults.saturating_add(1);
            return Err(Failed);
        }
        Ok(bytes.len())
    }
}

/// Adds parts at the end.
pub(crate) fn add(page: &mut Page, parts: &[Part<'_>]) -> Result<(), NoMemory>
    ensures { OnOk result (page.new.bytes ≡ page.old.bytes ++ parts_text parts.now) }
{
    match put_parts(page, parts) {
        Ok(()) => Ok(()),
        Err(Failed) => Err(NoMemory),
    }
}

/// A number, or a dash for none.
pub(crate) fn or_dash<'a>(number: Option<u32>) -> Part<'a>
    ensures { part_text result ≡ or_dash number }
{
    match number {
        Some(number) => Part::Number(number as u64),
        None => Part::Text(b"-"),
    }
}
