ghost use Rattle.std.specs.Prelude.{◌≡◌};

/// A slot of a ring, as netmap(4) has it: the buffer that it names, how many of the buffer's bytes
/// are a frame, its flags (`SlotFlags`), and an address that is kept and not used.
#[derive(Clone, Copy, Debug, PartialEq, Eq)]
pub struct Slot {
    pub buf_idx: u32,
    pub len: u16,
    pub flags: u16,
    pub ptr: u64,
}

/// A field of a slot, with the value that is written there.
#[derive(Clone, Copy, Debug, PartialEq, Eq)]
pub enum SlotWrite {
    BufIdx(u32),
    Len(u16),
    Flags(u16),
    Ptr(u64),
}

impl Slot {
    ghost use Rattle.nm_types.specs.OwnEdits.{slot_written};

    /// Writes one field, and leaves the others as they are.
    pub fn write(&mut self, write: SlotWrite)
        ensures { self.new ≡ slot_written write self.old }
    {
        match write {
            SlotWrite::BufIdx(idx) => self.buf_idx = idx,
            SlotWrite::Len(len) => self.len = len,
            SlotWrite::Flags(flags) => self.flags = flags,
            SlotWrite::Ptr(ptr) => self.ptr = ptr,
        }
    }
}

/// What a sync knows of a pushed slot before it judges it: the buffer in the slot's place, the
/// pool's greatest index, whether the buffer that the slot names is one of the session's named
/// ones, whether an earlier slot of the pushed range names it too, and whether a frame must end in
/// it. `top` is the number of the pool's buffers plus 1.
#[derive(Clone, Copy, Debug, PartialEq, Eq)]
pub struct Seen {
    pub was: u32,
    pub top: u32,
    pub held: bool,
    pub doubled: bool,
    pub closing: bool,
}
