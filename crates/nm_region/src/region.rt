ghost use Rattle.std.specs.Prelude.{◌≡◌, ◌≤◌, ◌-◌, true, [], length, map, replicate, slice_set, IfOk};
ghost use Rattle.std.specs.List.{range_with_len};
ghost use Rattle.std.specs.Vec.{vec_capacity};
ghost use Rattle.nm_types.specs.Limits.{most_pool};
ghost use denote.RawPtr.{block_of};
ghost use Rattle.nm_types.specs.Buffers.{IsPoolSize};
ghost use Rattle.nm_region.specs.Buffers.{opened_buffer};
ghost use Rattle.nm_region.specs.Returned.{AreComing, IsOf, IsWhole};

use crate::block::{Block, Deed};
use crate::buf::Buf;
use nm_types::NoMemory;
use std::alloc::Global;
use std::marker::Model;

/// Where a pool's buffers come from and go back to. It cannot be dropped: `close` takes it with all
/// its buffers.
///
/// All buffers lie in one block of memory. A region is told from all others by that block: its
/// number is that of the block in proofs, so no caller can work it out.
pub struct Region {
    block: Block,
    deed: Deed<Global>,
    alloc: Global,
    buffers: u32,
}

impl Model for Region {
    ghost use Rattle.std.specs.Prelude.{◌≡◌, length};
    ghost use Rattle.nm_region.specs.Buffers.{RegionState, region_of};

    ghost Value = { RegionState };

    ghost view = { λ r. record { region = region_of r.block.start; buffers = r.buffers } };

    ghost use Rattle.nm_region.specs.Opened.{IsOpened};

    ghost invariant = { IsOpened };
}

impl Region {
    ghost use Rattle.nm_region.specs.Buffers.{opened_buffers, AreAllOf};

    /// Opens a region of `n` buffers and hands these out: their indices rise from 2, and all their
    /// bytes are zero.
    pub fn new(alloc: Global, n: u32) -> Result<(Region, Vec<Buf>), NoMemory>
        requires { IsPoolSize n }
        ensures buffers { IfOk result (λ made. made.0.buffers ≡ n) }
        ensures all { IfOk result (λ made. made.1.items ≡ opened_buffers made.0) }
    {
        let all = Vec::with_capacity(alloc, n as usize)?;
        let Some((block, deed)) = Block::new(&alloc, n as usize) else {
            all.destroy_empty();
            return Err(NoMemory);
        };
        let deed = deed.located();
        let (block, all) = cut_all(block, all, n);
        let region = Region {
            block,
            deed,
            alloc,
            buffers: n,
        };
        Ok((region, all))
    }

    /// Frees the memory of the region and of all its buffers.
    pub fn close(self, all: Vec<Buf>)
        requires { AreAllOf self all.items }
    {
        let Region {
            block,
            deed,
            alloc,
            buffers: _,
        } = self;
        let block = take_all_back(block, all);
        block.free(deed, &alloc);
    }
}

/// Makes a buffer of each part of a block.
fn cut_all(mut block: Block, mut all: Vec<Buf>, n: u32) -> (Block, Vec<Buf>)
    requires home { block.home ≡ replicate n true }
    requires whole { IsWhole (block_of block.start) block.start }
    requires few { n ≤ most_pool }
    requires none { all.items ≡ [] }
    requires room { n ≤ vec_capacity all }
    ensures start { result.0.start ≡ block.start }
    ensures size { result.0.size ≡ block.size }
    ensures home { length result.0.home ≡ n }
    ensures all { result.1.items ≡ map
        (opened_buffer (record { region = block_of block.start; buffers = n }))
        (range_with_len 2 n) }
{
    for at in 0..n {
        let (rest, part) = block.cut(at as usize);
        block = rest;
        all.push_reserved(Buf::new(part, at + 2));
    }
    (block, all)
}

/// Takes the parts of all buffers back.
fn take_all_back(mut block: Block, mut all: Vec<Buf>) -> Block
    requires whole { IsWhole (block_of block.start) block.start }
    requires coming { AreComing (block_of block.start) block.home all.items }
    ensures start { result.start ≡ block.start }
    ensures size { result.size ≡ block.size }
    ensures home { result.home ≡ replicate (length block.home) true }
{
    while let Some(buf) = all.pop() {
        block = take_one_back(block, buf);
    }
    all.destroy_empty();
    block
}

/// Takes the part of one buffer back.
fn take_one_back(block: Block, buf: Buf) -> Block
    requires whole { IsWhole (block_of block.start) block.start }
    requires of { IsOf (block_of block.start) (length block.home) buf }
    ensures start { result.start ≡ block.start }
    ensures size { result.size ≡ block.size }
    ensures home { result.home ≡ slice_set block.home (buf.index - 2) true }
{
    let (part, index) = buf.into_part();
    block.take_back(part, (index - 2) as usize)
}
