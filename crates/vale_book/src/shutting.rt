ghost use Rattle.std.specs.Prelude.{◌≡◌, ◌<◌, true, false, length, position, IsSome};
ghost use Rattle.vale_book.specs.Words.{HasRoom, IsEnabled, IsForgottenAt, IsForgottenOn, OfState};
ghost use Rattle.vale_book.specs.Words.{after_ask, is_for_switch, is_switch_port_name, standing};
ghost use Rattle.vale_book.specs.Words.{switch_of};
ghost use Rattle.vale_entry.specs.declared.entry.Ask.TheVariants as asks;

use crate::book::Book;
use crate::noting::session_at;
use nm_types::{Name, PortId};
use vale_entry::{Ask, Entry, Reply};
use vale_port::{Port, open_port, shut_at};
use vale_steps::tables::{NamedTable, table_of};

/// Returns the name of the port at a place.
pub(crate) fn name_at(ports: &[Port], place: usize) -> Name
    requires { place < length ports.now }
    ensures { OfState (λ p. result ≡ p.name) ports.now place }
{
    ports[place].name()
}

/// Empties what the table at a place has learned of the port.
fn forget_at(tables: &mut Vec<NamedTable>, place: usize, port: PortId)
    requires { place < length tables.old.items }
    ensures { IsForgottenAt port place tables.old.items tables.new.items }
{
    tables[place].table.forget(port);
}

/// Empties what the table of the name's switch has learned of the port, if it names a port of a
/// switch.
fn forget_on_switch(tables: &mut Vec<NamedTable>, name: &Name, port: PortId)
    requires there { is_switch_port_name name.now ≡ true
        → IsSome (position (is_for_switch (switch_of name.now)) tables.old.items) }
    ensures switch { is_switch_port_name name.now ≡ true
        → IsForgottenOn (switch_of name.now) port tables.old.items tables.new.items }
    ensures other { is_switch_port_name name.now ≡ false → tables.new.items ≡ tables.old.items }
{
    if name.is_switch_port() {
        match table_of(tables, name) {
            Some(place) => forget_at(tables, place, port),
            None => unreachable!(),
        }
    }
}

impl Book {
    /// The port is closed for new frames. What was granted to it can still be read.
    pub fn shut(&mut self, port: PortId)
        requires { IsEnabled (standing self.old) (asks.Shut port) }
        ensures made { self.new ≡ after_ask self.old (asks.Shut port) }
        ensures room { HasRoom self.old (asks.Shut port) }
    {
        let Some(place) = open_port(&self.ports, port) else {
            unreachable!()
        };
        let session = session_at(&self.ports, place);
        let name = name_at(&self.ports, place);
        shut_at(&mut self.ports, place);
        self.names.shut(port);
        self.watches.forget(port);
        forget_on_switch(&mut self.tables, &name, port);
        self.history.push(Entry {
            session,
            ask: Ask::Shut { port },
            reply: Reply::Made,
        });
    }
}
