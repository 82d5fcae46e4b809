ghost use Rattle.std.specs.Prelude.{◌≡◌, IfOk, length};
ghost use Rattle.nm_hold.specs.Offsets.{count_of, offset_of, AreSizes};
ghost use Rattle.nm_hold.specs.Holds.{size_on};
ghost use Rattle.nm_hold.specs.Tables.{number_in, put_in, slots_in, IsTable};

use nm_types::{Place, PortId, PortSizes, Side};
use std::alloc::{AllocError, Global};
use std::mem::replace;

/// The number of places of a port of these sizes: transmit slots, receive slots, extra positions.
fn count_of(sizes: PortSizes) -> usize
    ensures { result ≡ count_of sizes }
{
    sizes.tx as usize + sizes.rx as usize + sizes.extra as usize
}

/// The places of a port.
#[derive(Clone, Copy, Debug, PartialEq, Eq)]
pub struct PortPlaces {
    pub port: PortId,
    pub sizes: PortSizes,
}

impl PortPlaces {
    /// The offset of a place among those of the port: transmit slots, receive slots, extra positions.
    fn offset(self, place: Place) -> Option<usize>
        ensures { result ≡ offset_of self place }
    {
        let (tx, rx) = (self.sizes.tx as usize, self.sizes.rx as usize);
        match place {
            Place::Tx { port, slot } if port == self.port && slot < self.sizes.tx => {
                Some(slot as usize)
            }
            Place::Rx { port, slot } if port == self.port && slot < self.sizes.rx => {
                Some(tx + slot as usize)
            }
            Place::Extra { port, at } if port == self.port && at < self.sizes.extra => {
                Some(tx + rx + at as usize)
            }
            _ => None,
        }
    }
}

/// The places of a port, each with the index of the buffer in it, 0 if it holds none.
#[derive(Drop)]
pub(crate) struct PortTable {
    pub(crate) places: PortPlaces,
    pub(crate) numbers: Vec<u32>,
}

impl PortTable {
    ghost use Rattle.nm_hold.specs.Ties.{IsBlank};

    /// A table in which no place holds a buffer. The caller sets its port.
    pub(crate) fn blank(alloc: Global, sizes: PortSizes) -> Result<PortTable, AllocError>
        requires { AreSizes sizes }
        ensures sizes { IfOk result (λ t. t.places.sizes ≡ sizes) }
        ensures blank { IfOk result IsBlank }
    {
        Ok(PortTable {
            places: PortPlaces {
                port: PortId(0),
                sizes,
            },
            numbers: vec![in alloc; 0; count_of(sizes)]?,
        })
    }

    /// The number at a place, 0 if it is not one of this port's.
    pub(crate) fn number(&self, place: Place) -> u32
        requires { IsTable self.now }
        ensures { result ≡ number_in self.now place }
    {
        match self.places.offset(place) {
            Some(at) => self.numbers[at],
            None => 0,
        }
    }

    /// Stores a number at a place, if it is one of this port's. Returns the one that was there, or 0.
    pub(crate) fn replace(&mut self, place: Place, number: u32) -> u32
        requires { IsTable self.old }
        ensures number { result ≡ number_in self.old place }
        ensures table { self.new ≡ put_in place number self.old }
    {
        match self.places.offset(place) {
            Some(at) => replace(&mut self.numbers[at], number),
            None => 0,
        }
    }

    /// The numbers at the slots of a side, by position.
    pub(crate) fn slots(&self, side: Side) -> &[u32]
        requires { IsTable self.now }
        ensures slots { result.now ≡ slots_in self.now side }
        ensures count { length result.now ≡ size_on side self.now.places.sizes }
    {
        let (tx, rx) = (self.places.sizes.tx as usize, self.places.sizes.rx as usize);
        match side {
            Side::Tx => &self.numbers[..tx],
            Side::Rx => &self.numbers[tx..tx + rx],
        }
    }
}
