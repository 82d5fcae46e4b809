ghost use Rattle.std.specs.Prelude.{ℕ, ◌≡◌, ◌<◌, ◌≤◌, ◌+◌, ◌^◌, [], ◌∷◌, ◌++◌, length, take, IfOk, OnOk, OnErr};
ghost use Rattle.std.specs.Prelude.{slice_get, slice_index, slice_index_or, slice_range, option_map, Some, true, false, IsTrue, ◌↔◌};
ghost use Rattle.std.specs.Vec.{vec_capacity};
ghost use Rattle.std.specs.Arc.{arc_value};
ghost use Rattle.nm_types.specs.Ends.{start_at};
ghost use Rattle.nm_types.specs.Frames.{bytes_of_frames, extended};
ghost use Rattle.nm_types.specs.Sendable.{fit_slots, is_sendable};

use crate::cuts::slots;
use crate::fault::NoMemory;
use crate::limits::{MAX_BATCH, MAX_FRAME_BYTES};
use std::alloc::{AllocError, Global};
use std::marker::Model;
use std::sync::Arc;

/// An Ethernet frame: its bytes, and the mark that the switch is not to learn its source
/// (`NS_NO_LEARN` of netmap(4)).
#[derive(Clone, Drop)]
pub struct Frame {
    bytes: Vec<u8>,
    no_learn: bool,
}

impl Model for Frame {
    ghost use Rattle.nm_types.specs.Frames.{Frame as Packet};

    ghost Value = { Packet };

    ghost view = { λ f. record { bytes = f.bytes.items; no_learn = f.no_learn } };
}

impl Frame {
    /// A frame of these bytes.
    pub fn new(alloc: Global, bytes: &[u8], no_learn: bool) -> Result<Frame, NoMemory>
        ensures { IfOk result (λ frame. frame ≡ record { bytes = bytes.now; no_learn = no_learn }) }
    {
        Ok(Frame {
            bytes: bytes.to_vec(alloc)?,
            no_learn,
        })
    }

    /// The frame's bytes.
    pub fn bytes(&self) -> &[u8]
        ensures { result.now ≡ self.now.bytes }
    {
        &self.bytes
    }

    /// Tells whether the switch is not to learn the frame's source.
    pub fn no_learn(&self) -> bool
        ensures { result ≡ self.now.no_learn }
    {
        self.no_learn
    }
}

/// The frames of a batch that is not empty: their bytes lie side by side in one run. A stored batch
/// has four bytes more for each frame.
#[derive(Drop)]
struct Run {
    bytes: Vec<u8>,
    /// Where each frame ends, and the next one begins.
    ends: Vec<u32>,
    /// Which frames are marked no-learn, up to the last one that is. Mostly empty.
    marks: Vec<bool>,
}

impl Model for Run {
    ghost use Rattle.std.specs.Prelude.{List};
    ghost use Rattle.nm_types.specs.Frames.{Frame as Packet};

    ghost Value = { List Packet };

    ghost use Rattle.nm_types.specs.Ends.{frames_from, IsRun};

    ghost view = { λ r. frames_from r.bytes.items r.ends.items r.marks.items 0 };

    ghost invariant = { λ r. IsRun r.bytes.items r.ends.items r.marks.items };
}

impl Clone for Run {
    ghost is_clone = { λ run other. other ≡ run };

    fn clone(&self) -> Result<Run, AllocError>
        ensures { IfOk result (λ other. other ≡ self.now) }
    {
        let alloc = *self.bytes.allocator();
        Ok(Run {
            bytes: Vec::from_slice(alloc, &self.bytes)?,
            ends: Vec::from_slice(alloc, &self.ends)?,
            marks: Vec::from_slice(alloc, &self.marks)?,
        })
    }
}

/// Where a frame of `len` bytes ends behind `before` bytes, if that is told by 32 bits.
fn end_behind(before: usize, len: usize) -> Result<u32, AllocError>
    ensures { IfOk result (λ end. end ≡ before + len) }
{
    let most = u32::MAX as usize;
    if before > most {
        return Err(AllocError);
    }
    if len > most - before {
        return Err(AllocError);
    }
    Ok((before + len) as u32)
}

/// Where the frame at a place begins: at the end of the one before it.
fn start_at(ends: &[u32], i: usize) -> u32
    requires { i ≤ length ends.now }
    ensures { result ≡ start_at 0 ends.now i }
{
    if i == 0 { 0 } else { ends[i - 1] }
}

/// Where the frame at a place ends.
fn end_at(ends: &[u32], i: usize) -> u32
    requires { i < length ends.now }
    ensures { result ≡ slice_index ends.now i }
{
    ends[i]
}

/// The bytes from one place up to another.
fn part(bytes: &[u8], start: u32, end: u32) -> &[u8]
    requires order { start ≤ end }
    requires within { end ≤ length bytes.now }
    ensures { result.now ≡ slice_range bytes.now start end }
{
    &bytes[start as usize..end as usize]
}

/// Whether the frame at a place is marked.
fn is_marked(marks: &[bool], i: usize) -> bool
    ensures { result ≡ slice_index_or marks.now i false }
{
    match marks.get(i) {
        Some(mark) => *mark,
        None => false,
    }
}

/// Has the marks of `count` frames in memory, and room for one more.
#[inline(never)]
fn reach_marks(marks: &mut Vec<bool>, count: usize) -> Result<(), AllocError>
    requires { length marks.old.items ≤ count }
    ensures padded { (i : ℕ)
        → slice_index_or marks.new.items i false ≡ slice_index_or marks.old.items i false }
    ensures few { length marks.new.items ≤ count }
    ensures count { IfOk result (λ done. length marks.new.items ≡ count) }
    ensures room { IfOk result (λ done. count < vec_capacity marks.new) }
{
    marks.resize(count, false)?;
    marks.reserve(1)
}

impl Run {
    fn new(alloc: Global) -> Run
        ensures { result ≡ [] }
    {
        Run {
            bytes: Vec::new(alloc),
            ends: Vec::new(alloc),
            marks: Vec::new(alloc),
        }
    }

    fn reserve(&mut self, frames: usize, bytes: usize) -> Result<(), AllocError>
        ensures { self.new ≡ self.old }
    {
        self.ends.reserve(frames)?;
        self.bytes.reserve(bytes)
    }

    #[inline(always)]
    fn push(&mut self, bytes: &[u8], no_learn: bool) -> Result<(), AllocError>
        ensures ok { OnOk result (self.new ≡ self.old ++ record { bytes = bytes.now; no_learn = no_learn } ∷ []) }
        ensures err { OnErr result (self.new ≡ self.old) }
    {
        if no_learn {
            self.push_marked(bytes)
        } else {
            self.push_plain(bytes)
        }
    }

    /// Adds a frame that is not marked.
    #[inline(always)]
    fn push_plain(&mut self, bytes: &[u8]) -> Result<(), AllocError>
        ensures ok { OnOk result (self.new ≡ self.old ++ record { bytes = bytes.now; no_learn = false } ∷ []) }
        ensures err { OnErr result (self.new ≡ self.old) }
    {
        let end = end_behind(self.bytes.len(), bytes.len())?;
        self.ends.reserve(1)?;
        self.bytes.extend_from_slice(bytes)?;
        self.ends.push_reserved(end);
        Ok(())
    }

    /// Adds a frame that is marked.
    #[inline(never)]
    fn push_marked(&mut self, bytes: &[u8]) -> Result<(), AllocError>
        ensures ok { OnOk result (self.new ≡ self.old ++ record { bytes = bytes.now; no_learn = true } ∷ []) }
        ensures err { OnErr result (self.new ≡ self.old) }
    {
        let end = end_behind(self.bytes.len(), bytes.len())?;
        self.ends.reserve(1)?;
        reach_marks(&mut self.marks, self.ends.len())?;
        self.bytes.extend_from_slice(bytes)?;
        self.ends.push_reserved(end);
        self.marks.push_reserved(true);
        Ok(())
    }

    /// Adds bytes to the last frame.
    fn extend_last(&mut self, bytes: &[u8]) -> Result<(), AllocError>
        requires { 0 < length self.old }
        ensures ok { OnOk result (self.new ≡ extended bytes.now self.old) }
        ensures err { OnErr result (self.new ≡ self.old) }
    {
        let end = end_behind(self.bytes.len(), bytes.len())?;
        self.bytes.extend_from_slice(bytes)?;
        let last = self.ends.len() - 1;
        self.ends[last] = end;
        Ok(())
    }

    fn get(&self, i: usize) -> (&[u8], bool)
        requires { i < length self.now }
        ensures { slice_get self.now i ≡ Some (record { bytes = result.0.now; no_learn = result.1 }) }
    {
        let (start, end) = (start_at(&self.ends, i), end_at(&self.ends, i));
        (part(&self.bytes, start, end), is_marked(&self.marks, i))
    }

    fn len(&self) -> usize
        ensures { result ≡ length self.now }
    {
        self.ends.len()
    }

    fn size(&self) -> usize
        ensures { result ≡ bytes_of_frames self.now }
    {
        self.bytes.len()
    }
}

/// An empty run, behind a pointer.
#[inline(never)]
fn empty_run(alloc: Global) -> Result<Arc<Run>, AllocError>
    ensures { IfOk result (λ run. arc_value run ≡ []) }
{
    Ok(Arc::new(alloc, Run::new(alloc))?)
}

/// A list of frames. Their bytes lie in one buffer, behind one pointer, so that a stored batch is
/// small. A clone shares the frames, and takes no memory until one of the two is changed. For 4 GiB
/// of bytes there is no memory.
#[derive(Clone, Drop)]
pub struct Batch {
    run: Option<Arc<Run>>,
    alloc: Global,
}

impl Model for Batch {
    ghost use Rattle.std.specs.Prelude.{List};
    ghost use Rattle.nm_types.specs.Frames.{Frame as Packet};

    ghost Value = { List Packet };

    ghost use Rattle.nm_types.specs.Runs.{frames_in};

    ghost view = { λ b. frames_in b.run };
}

impl Batch {
    /// No frames.
    pub fn new(alloc: Global) -> Batch
        ensures { result ≡ [] }
    {
        Batch { run: None, alloc }
    }

    /// Makes room at once for that many frames more, with that many bytes in all, as `Vec::reserve`
    /// does. Contracts do not see the room: a push may want memory all the same.
    pub fn reserve(&mut self, frames: usize, bytes: usize) -> Result<(), NoMemory>
        ensures { self.new ≡ self.old }
    {
        match &mut self.run {
            Some(run) => Arc::make_mut(run)?.reserve(frames, bytes)?,
            None => {
                let mut run = Run::new(self.alloc);
                run.reserve(frames, bytes)?;
                self.run = Some(Arc::new(self.alloc, run)?);
            }
        }
        Ok(())
    }

    /// Adds a frame at the end.
    #[inline(always)]
    pub fn push(&mut self, bytes: &[u8], no_learn: bool) -> Result<(), NoMemory>
        ensures ok { OnOk result (self.new ≡ self.old ++ record { bytes = bytes.now; no_learn = no_learn } ∷ []) }
        ensures err { OnErr result (self.new ≡ self.old) }
    {
        if self.run.is_none() {
            self.run = Some(empty_run(self.alloc)?);
        }
        match &mut self.run {
            Some(run) => Arc::make_mut(run)?.push(bytes, no_learn)?,
            None => unreachable!(),
        }
        Ok(())
    }

    /// Adds bytes to the last frame, behind its own.
    pub fn extend_last(&mut self, bytes: &[u8]) -> Result<(), NoMemory>
        requires { 0 < length self.old }
        ensures ok { OnOk result (self.new ≡ extended bytes.now self.old) }
        ensures err { OnErr result (self.new ≡ self.old) }
    {
        match &mut self.run {
            Some(run) => Arc::make_mut(run)?.extend_last(bytes)?,
            None => unreachable!(),
        }
        Ok(())
    }

    /// The number of frames.
    pub fn len(&self) -> usize
        ensures { result ≡ length self.now }
    {
        match &self.run {
            Some(run) => run.len(),
            None => 0,
        }
    }

    /// Tells whether there are no frames.
    pub fn is_empty(&self) -> bool
        ensures { IsTrue result ↔ (length self.now ≡ 0) }
    {
        self.len() == 0
    }

    /// The bytes and the no-learn mark of a frame.
    pub fn get(&self, i: usize) -> (&[u8], bool)
        requires { i < length self.now }
        ensures { slice_get self.now i ≡ Some (record { bytes = result.0.now; no_learn = result.1 }) }
    {
        match &self.run {
            Some(run) => run.get(i),
            None => unreachable!(),
        }
    }

    /// The bytes of a frame.
    pub fn frame(&self, i: usize) -> &[u8]
        requires { i < length self.now }
        ensures { option_map (λ f. f.bytes) (slice_get self.now i) ≡ Some result.now }
    {
        self.get(i).0
    }

    /// Tells whether a frame is marked no-learn.
    pub fn no_learn(&self, i: usize) -> bool
        requires { i < length self.now }
        ensures { option_map (λ f. f.no_learn) (slice_get self.now i) ≡ Some result }
    {
        self.get(i).1
    }

    /// The number of bytes of all frames.
    pub fn size(&self) -> u64
        requires { bytes_of_frames self.now < 2 ^ 64 }
        ensures { result ≡ bytes_of_frames self.now }
    {
        match &self.run {
            Some(run) => run.size() as u64,
            None => 0,
        }
    }

    /// Whether no frame is longer than frames are, and all of them take no more slots than these.
    #[tactic(auto, using(crate::proofs::Sizes::sizes))]
    fn fit_slots(&self, room: u32) -> bool
        ensures { result ≡ fit_slots room self.now }
    {
        let mut left = room;
        for i in 0..self.len() {
            let len = self.get(i).0.len();
            if len > MAX_FRAME_BYTES {
                return false;
            }
            let size = slots(len);
            if size > left {
                return false;
            }
            left -= size;
        }
        true
    }

    /// Tells whether one send may carry the frames.
    pub fn is_sendable(&self) -> bool
        ensures { result ≡ is_sendable self.now }
    {
        self.len() <= MAX_BATCH && self.fit_slots(MAX_BATCH as u32)
    }
}
