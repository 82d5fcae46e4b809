ghost use Rattle.std.specs.Prelude.{◌≡◌, ◌+◌, ◌<◌, ◌≤◌, ◌^◌, ◌++◌, length, true, Some, None, is_some, option_map, sum_by, vec_len, vec_capacity};
ghost use Rattle.vale_line.specs.Gots.{last_count};
ghost use Rattle.vale_line.specs.Leased.{sizes_in};
ghost use Rattle.vale_line.specs.Lines.{is_done, is_out_at, ready_gots, ready_sizes};
ghost use Rattle.vale_line.specs.Rings.{held, held_lots};

use crate::got::Got;
use crate::moves::Cell;
use nm_reach::Reach;
use nm_types::LeaseId;
use std::collections::VecDeque;

/// A lot of a line, with the right to its cells, which are empty: its buffers are with its lease,
/// and once that is done in the vector in which they came back.
pub(crate) struct Lot {
    id: LeaseId,
    reach: Reach<Cell>,
    gots: Option<Vec<Got>>,
}

/// How many frames end in these buffers.
fn count_frames(gots: &[Got]) -> u32
    requires { length gots.now < 2 ^ 32 }
    ensures { result ≡ sum_by last_count gots.now }
{
    let mut count = 0;
    for i in 0..gots.len() {
        count += gots[i].last_count();
    }
    count
}

/// Adds the slots of each frame in these buffers: the first buffer of each tells how many more the
/// frame takes.
#[tactic(auto, using(crate::proofs::ReadyLemmas::sizes))]
fn push_sizes(gots: &[Got], sizes: &mut Vec<u32>)
    requires room { vec_len sizes.old + length (sizes_in gots.now) ≤ vec_capacity sizes.old }
    ensures sizes { sizes.new.items ≡ sizes.old.items ++ sizes_in gots.now }
    ensures capacity { vec_capacity sizes.new ≡ vec_capacity sizes.old }
{
    let mut at = 0;
    while at < gots.len() {
        let size = u32::from(gots[at].rest) + 1;
        sizes.push_reserved(size);
        at += size as usize;
    }
}

/// How many frames the longest prefix of done lots has.
#[tactic(auto, using(crate::proofs::ReadyLemmas::ready))]
pub(crate) fn count_ready(lots: &VecDeque<Lot>) -> u32
    requires { length (ready_gots (held_lots lots.now.items)) < 2 ^ 32 }
    ensures { result ≡ sum_by last_count (ready_gots (held_lots lots.now.items)) }
{
    let mut count = 0;
    for i in 0..lots.len() {
        match lots[i].done_gots() {
            Some(gots) => count += count_frames(gots),
            None => return count,
        }
    }
    count
}

/// Adds the slots of each of these frames.
#[tactic(auto, using(crate::proofs::ReadyLemmas::ready))]
pub(crate) fn push_ready(lots: &VecDeque<Lot>, sizes: &mut Vec<u32>)
    requires room { vec_len sizes.old + length (ready_sizes (held_lots lots.now.items))
        ≤ vec_capacity sizes.old }
    ensures sizes { sizes.new.items ≡ sizes.old.items ++ ready_sizes (held_lots lots.now.items) }
    ensures capacity { vec_capacity sizes.new ≡ vec_capacity sizes.old }
{
    for i in 0..lots.len() {
        match lots[i].done_gots() {
            Some(gots) => push_sizes(gots, sizes),
            None => return,
        }
    }
}

impl Lot {
    /// A lot whose lease is out.
    pub(crate) fn new(id: LeaseId, reach: Reach<Cell>) -> Lot
        ensures { result ≡ record {
          id = id;
          reach = reach;
          gots = None;
        } }
    {
        Lot {
            id,
            reach,
            gots: None,
        }
    }

    /// A done lot.
    pub(crate) fn done(id: LeaseId, reach: Reach<Cell>, gots: Vec<Got>) -> Lot
        ensures { result ≡ record {
          id = id;
          reach = reach;
          gots = Some gots;
        } }
    {
        Lot {
            id,
            reach,
            gots: Some(gots),
        }
    }

    /// Whether this is the lot of that lease, and not done.
    pub(crate) fn is_out_at(&self, id: LeaseId) -> bool
        ensures { result ≡ is_out_at id.0 (held self.now) }
    {
        self.id == id && !self.is_done()
    }

    pub(crate) fn is_done(&self) -> bool
        ensures { result ≡ is_done (held self.now) }
    {
        match &self.gots {
            Some(_) => true,
            None => false,
        }
    }

    /// The buffers of a done lot.
    fn done_gots(&self) -> Option<&[Got]>
        ensures { option_map (λ gots. gots.now) result ≡ (held self.now).gots }
    {
        match &self.gots {
            Some(gots) => Some(gots),
            None => None,
        }
    }

    /// Completes the lot with the filled buffers of its lease.
    pub(crate) fn complete(&mut self, gots: Vec<Got>)
        requires out { self.old.gots ≡ None }
        ensures { self.new ≡ record self.old { gots = Some gots } }
    {
        match self.gots.replace(gots) {
            None => (),
            Some(_other) => unreachable!(),
        }
    }

    /// The right to the cells of a done lot, and its buffers.
    pub(crate) fn into_parts(self) -> (Reach<Cell>, Vec<Got>)
        requires done { is_some self.gots ≡ true }
        ensures reach { result.0 ≡ self.reach }
        ensures gots { self.gots ≡ Some result.1 }
    {
        let Lot { id: _, reach, gots } = self;
        match gots {
            Some(gots) => (reach, gots),
            None => unreachable!(),
        }
    }
}
