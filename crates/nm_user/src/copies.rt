//! Copies of a frame, put into a transmit ring one after another.
ghost use Rattle.std.specs.Prelude.{◌≡◌, ◌≤◌, length};
ghost use Rattle.nm_user.specs.Words.{AreCopies, with_copies};

use crate::session::Session;
use nm_types::PortId;

impl<'f> Session<'f> {
    /// Puts copies of a frame at the head of a port's transmit ring, each as `put_frame` does, until
    /// there are `count` or the ring has no room for one more. Answers how many were put.
    pub fn put_copies(&mut self, port: PortId, bytes: &[u8], count: u32) -> u32
        requires { length bytes.now ≤ 2048 }
        ensures copies { AreCopies count result port.0 bytes.now self.old.own }
        ensures own { self.new
            ≡ record self.old { own = with_copies result port.0 bytes.now self.old.own } }
    {
        match &mut self.own {
            Some(own) => own.put_copies(port, bytes, count),
            None => 0,
        }
    }
}
