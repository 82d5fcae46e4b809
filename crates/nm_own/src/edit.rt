ghost use Rattle.std.specs.Prelude.{◌≡◌, map, option_map};
ghost use Rattle.nm_own.specs.Edits.{edited, port_edited, port_edited_if};

use nm_port::{SlotRing, UserPort};
use nm_types::{PortId, Side, Slot};

/// What a user writes on a ring.
#[derive(Clone, Copy)]
pub(crate) enum RingEdit {
    /// A head, any number.
    Head(u32),
    /// A cur, any number.
    Cur(u32),
    /// Head and cur, any numbers.
    Positions(u32, u32),
    /// The tail as head and cur.
    AllBack,
    /// One of the user's slots.
    Slot(u32, Slot),
    /// The slot at the head, and the next head and the next cur.
    Forward(Slot),
    /// The length of a part of a frame, behind which others follow, in the slot at the head, and the
    /// next position as head and cur.
    Part(u16),
    /// A frame's length, or that of its last part, in the slot at the head, and the next position as
    /// head and cur.
    Frame(u16),
}

/// Makes an edit of a ring.
fn edit_ring(ring: &mut SlotRing, edit: RingEdit)
    ensures { ring.new ≡ edited edit ring.old }
{
    match edit {
        RingEdit::Head(head) => ring.put_head(head),
        RingEdit::Cur(cur) => ring.put_cur(cur),
        RingEdit::Positions(head, cur) => ring.put_positions(head, cur),
        RingEdit::AllBack => ring.give_all_back(),
        RingEdit::Slot(at, slot) => ring.put_slot(at, slot),
        RingEdit::Forward(slot) => ring.forward(slot),
        RingEdit::Part(len) => ring.put_part(len),
        RingEdit::Frame(len) => ring.put_frame(len),
    }
}

/// Makes an edit of a port's ring, if it has that ring.
fn edit_port(port: &mut UserPort, side: Side, edit: RingEdit)
    ensures { port.new ≡ port_edited side edit port.old }
{
    match side {
        Side::Tx => {
            if let Some(ring) = &mut port.tx {
                edit_ring(ring, edit);
            }
        }
        Side::Rx => edit_ring(&mut port.rx, edit),
    }
}

/// Makes an edit of a port's ring, if it is the port of this id.
fn edit_if(port: &mut UserPort, id: PortId, side: Side, edit: RingEdit)
    ensures { port.new ≡ port_edited_if id.0 side edit port.old }
{
    if port.id.0 == id.0 {
        edit_port(port, side, edit);
    }
}

/// Makes an edit of the ring on a side of the port of an id.
pub(crate) fn edit_rings(ports: &mut [UserPort], id: PortId, side: Side, edit: RingEdit)
    ensures { ports.new ≡ map (port_edited_if id.0 side edit) ports.old }
{
    for port in ports.iter_mut() {
        edit_if(port, id, side, edit);
    }
}
