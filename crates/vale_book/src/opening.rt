ghost use Rattle.std.specs.Prelude.{◌≡◌, ◌+◌, length, take, drop, OnOk, IfOk, IfErr};
ghost use Rattle.vale_entry.specs.declared.entry.Ask.TheVariants as asks;
ghost use Rattle.vale_entry.specs.declared.entry.Reply.TheVariants as replies;
ghost use Rattle.vale_book.specs.OpenAnswers.{IsUnopened};
ghost use Rattle.vale_book.specs.Words.{AreOf, IsEnabled, IsRecordedAs, indices_of, standing};

use crate::book::Book;
use nm_types::{Name, OpenFault, PortId, SessionId};
use vale_port::Opening;
use vale_steps::opening::{Opened, add_port, name_port, refuse};

impl Book {
    /// Opens a port of this name for a session, with rings of so many slots and so many extra
    /// buffers. Its buffers are the smallest free ones: first the transmit ring's, then the receive
    /// ring's, then the extra ones. Room for its `shut` and its `finish` is promised.
    ///
    /// A size out of range, a fifth switch, a port too many of a switch, a pipe end or a monitor
    /// too many, a name that is taken and want of free buffers are recorded as refusals; a full
    /// record and want of memory change nothing.
    pub fn open(
        &mut self,
        session: SessionId,
        name: &Name,
        tx: u32,
        rx: u32,
        extra: u32,
    ) -> Result<Opened, OpenFault>
        requires { IsEnabled (standing self.old) (asks.Open session name.now tx rx extra) }
        ensures made { OnOk result (IsRecordedAs self.old self.new
            (asks.Open session name.now tx rx extra) replies.Opened) }
        ensures port { IfOk result (λ opened. opened.port.0 ≡ length self.new.entries) }
        ensures tx { IfOk result (λ opened. indices_of opened.tx.items
            ≡ take tx (standing self.old).holdings.free) }
        ensures rx { IfOk result (λ opened. opened.rx.items
            ≡ take rx (drop tx (standing self.old).holdings.free)) }
        ensures extra { IfOk result (λ opened. indices_of opened.extra.items
            ≡ take extra (drop (tx + rx) (standing self.old).holdings.free)) }
        ensures region { IfOk result (λ opened. AreOf self.old.region opened.tx.items
            × AreOf self.old.region opened.extra.items) }
        ensures unopened { IfErr result (IsUnopened self.old self.new
            (asks.Open session name.now tx rx extra)) }
    {
        let opening = Opening {
            id: PortId(self.history.len() + 1),
            session,
            name: *name,
            tx,
            extra,
        };
        match name_port(&mut self.names, &self.pool, &opening, rx) {
            Ok(()) => match add_port(
                self.alloc,
                &mut self.history,
                &mut self.tables,
                &mut self.ports,
                &mut self.pool,
                opening,
                rx,
            ) {
                Ok(opened) => {
                    self.tally.open(opening.id);
                    Ok(opened)
                }
                Err(fault) => {
                    self.names.gone(opening.id);
                    Err(OpenFault::from(fault))
                }
            },
            Err(fault) => Err(refuse(&mut self.history, &opening, rx, fault)),
        }
    }
}
