ghost use Rattle.std.specs.Prelude.{◌≡◌, ◌≤◌, length};
ghost use Rattle.nm_types.specs.Limits.{buffer_bytes};
ghost use Rattle.vale_line.specs.Gots.{blank, got_of, last_count, part_in};

use nm_region::Buf;

/// A buffer with a frame, or a part of one, in its first bytes.
pub struct Got {
    pub buf: Buf,
    /// How many bytes of the buffer are the frame's.
    pub len: u16,
    /// How many parts of the same frame follow in the next buffers: 0 to 63.
    pub rest: u8,
}

impl Got {
    /// A buffer with no frame.
    pub(crate) fn blank(buf: Buf) -> Got
        ensures { result ≡ blank buf }
    {
        Got {
            buf,
            len: 0,
            rest: 0,
        }
    }

    /// The buffer without its frame.
    pub fn into_buf(self) -> Buf
        ensures { result ≡ self.buf }
    {
        let Got {
            buf,
            len: _,
            rest: _,
        } = self;
        buf
    }

    /// The part of a frame in the buffer.
    #[tactic(auto, using(crate::proofs::Filling::parts_in))]
    pub fn part(&self) -> &[u8]
        ensures part { result.now ≡ part_in self.now }
        ensures size { length result.now ≤ buffer_bytes }
    {
        let bytes = self.buf.bytes();
        &bytes[..bytes.len().min(self.len as usize)]
    }

    /// Copies a part of a frame into the buffer. `rest` more parts follow.
    pub(crate) fn fill(&mut self, part: &[u8], rest: u8)
        requires { length part.now ≤ buffer_bytes }
        ensures { self.new ≡ got_of part.now rest self.old.buf }
    {
        self.buf.write(part);
        self.len = part.len() as u16;
        self.rest = rest;
    }

    /// One, if a frame ends in the buffer.
    pub(crate) fn last_count(&self) -> u32
        ensures { result ≡ last_count self.now }
    {
        if self.rest == 0 { 1 } else { 0 }
    }
}
