ghost use Rattle.std.specs.Prelude.{◌≡◌};
ghost use Rattle.vale_names.specs.Ports.{has_name, is_open_as};

use nm_types::{Name, PortId};

/// A port that is open, or shutting until its buffers are back.
#[derive(Clone, Copy, PartialEq, Eq)]
pub struct NamedPort {
    /// The port's name.
    pub name: Name,
    /// The number of the entry that opened it.
    pub id: PortId,
    /// Whether it is shutting.
    pub shutting: bool,
}

impl NamedPort {
    /// Tells whether the port has this name.
    pub(crate) fn has_name(&self, name: &Name) -> bool
        ensures { result ≡ has_name name.now self.now }
    {
        self.name.as_bytes() == name.as_bytes()
    }

    /// Tells whether the port is open and has this name.
    pub(crate) fn is_open_as(&self, name: &Name) -> bool
        ensures { result ≡ is_open_as name.now self.now }
    {
        self.has_name(name) && !self.shutting
    }
}
