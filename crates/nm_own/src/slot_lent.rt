ghost use Rattle.std.specs.Prelude.{◌≡◌, slice_get, option_and_then};
ghost use Rattle.nm_own.specs.Words.{option_copied_mut, sem};
ghost use Rattle.nm_own.specs.LentSlots.{LendsPortSlot, LendsSlotIn, slot_of_port};
ghost use Rattle.nm_own.specs.LentSlots.{index_of_port};

use nm_port::UserPort;
use nm_port::close::place_of_port;
use nm_types::{PortId, Side, Slot};

/// One of the user's slots of a port, to be written.
fn slot_of_port(port: &mut UserPort, side: Side, at: u32) -> Option<&mut Slot>
    ensures* writes_back { sem 𝓛 (LendsPortSlot port.entry side at result) }
    ensures slot { option_copied_mut result ≡ slot_of_port side at port.old }
{
    match side {
        Side::Tx => match &mut port.tx {
            Some(ring) => ring.slot_mut(at),
            None => None,
        },
        Side::Rx => port.rx.slot_mut(at),
    }
}

/// One of the user's slots of the port at a place in a list, to be written.
pub(crate) fn slot_in(
    ports: &mut Vec<UserPort>,
    index: usize,
    side: Side,
    at: u32,
) -> Option<&mut Slot>
    ensures* writes_back { sem 𝓛 (LendsSlotIn ports.entry index side at result) }
    ensures slot { option_copied_mut result
        ≡ option_and_then (slot_of_port side at) (slice_get ports.old.items index) }
{
    match ports.get_mut(index) {
        Some(port) => slot_of_port(port, side, at),
        None => None,
    }
}

/// Where the port of an id stands in a list; the list's end, if there is none.
pub(crate) fn index_of_port(ports: &[UserPort], id: PortId) -> usize
    ensures { result ≡ index_of_port id.0 ports.now }
{
    match place_of_port(ports, id) {
        Some(index) => index,
        None => ports.len(),
    }
}
