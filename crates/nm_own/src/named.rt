//! The ports of an own side by their names.
ghost use Rattle.std.specs.Prelude.{◌≡◌, option_map};
ghost use Rattle.nm_own.specs.Words.{OwnPort, option_copied, port_with_name};
ghost use Rattle.nm_own.specs.PortNames.{port_named};

use crate::own::OwnSide;
use nm_port::UserPort;
use nm_types::{Name, PortId};

/// The first port of a name.
fn find_port<'a>(ports: &'a [UserPort], name: &Name) -> Option<&'a UserPort>
    ensures { option_copied result ≡ port_named ports.now name.now }
{
    ports
        .iter()
        .find(|port| name.as_bytes() == port.name.as_bytes())
}

impl OwnSide {
    /// The port of a name, if the session has it.
    pub fn port_named(&self, name: &Name) -> Option<PortId>
        ensures { result
            ≡ option_map (λ (p : OwnPort). p.id) (port_with_name self.now.own name.now) }
    {
        match find_port(&self.ports, name) {
            Some(port) => Some(port.id),
            None => None,
        }
    }
}
