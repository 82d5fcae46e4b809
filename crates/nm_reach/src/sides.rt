ghost use Rattle.std.specs.Prelude.{◌≡◌, ◌+◌, ◌-◌, ◌<◌, ◌≤◌, ◌^◌, [], ◌++◌, length, take, drop};
ghost use Rattle.nm_reach.specs.Fields.{round};
ghost use Rattle.nm_reach.specs.Sides.{values_of, IsRun, IsRound};

use crate::stretch::Stretch;

/// A circular run of cells: those up to the end of the field, and those from cell 0 on.
pub(crate) struct Sides<T> {
    pub(crate) front: Stretch<T>,
    pub(crate) back: Stretch<T>,
}

impl<T> Sides<T> {
    /// No cells of no field.
    pub(crate) fn none() -> Sides<T>
        ensures front { result.front.values ≡ [] }
        ensures back { result.back.values ≡ [] }
    {
        Sides {
            front: Stretch::none(),
            back: Stretch::none(),
        }
    }

    /// Ends a run of no cells.
    pub(crate) fn end(self)
        requires front { self.front.values ≡ [] }
        requires back { self.back.values ≡ [] }
    {
        let Sides { front, back } = self;
        front.end();
        back.end();
    }

    /// How many cells these are.
    pub(crate) fn len(&self) -> usize
        requires { IsRun self.now }
        ensures len { result ≡ length (values_of self.now) }
        ensures few { result < 2 ^ 32 }
    {
        self.front.len() + self.back.len()
    }

    /// The first `k` cells, and the others. From the run's start there are `room` cells up to the
    /// end of the field.
    pub(crate) fn split(self, room: usize, k: usize) -> (Sides<T>, Sides<T>)
        requires run { IsRun self }
        requires room { room ≡ self.front.size - self.front.start }
        requires within { k ≤ length (values_of self) }
        ensures first { IsRound self.front.field self.front.size self.front.start result.0 }
        ensures first_values { values_of result.0 ≡ take k (values_of self) }
        ensures rest { IsRound self.front.field self.front.size
            (round self.front.size self.front.start k) result.1 }
        ensures rest_values { values_of result.1 ≡ drop k (values_of self) }
    {
        let Sides { front, back } = self;
        let (first, back) = back.cut(0);
        if k < room {
            let (taken, front) = front.cut(k);
            let taken = Sides {
                front: taken,
                back: first,
            };
            (taken, Sides { front, back })
        } else {
            let (taken, rest) = back.cut(k - front.len());
            let taken = Sides { front, back: taken };
            let rest = Sides {
                front: rest,
                back: first,
            };
            (taken, rest)
        }
    }

    /// These cells and those of the run that begins where this one ends.
    pub(crate) fn join(self, next: Sides<T>, room: usize) -> Sides<T>
        requires run { IsRun self }
        requires room { room ≡ self.front.size - self.front.start }
        requires next { IsRound self.front.field self.front.size
            (round self.front.size self.front.start (length (values_of self))) next }
        requires fits { length (values_of self) + length (values_of next) ≤ self.front.size }
        ensures run { IsRound self.front.field self.front.size self.front.start result }
        ensures values { values_of result ≡ values_of self ++ values_of next }
    {
        let Sides { front, back } = self;
        let Sides {
            front: other,
            back: last,
        } = next;
        if front.len() + back.len() < room {
            Sides {
                front: front.glue(other),
                back: back.glue(last),
            }
        } else {
            Sides {
                front,
                back: last.glue(back).glue(other),
            }
        }
    }

    /// All cells of the field, from cell 0 on.
    pub(crate) fn unrolled(self) -> Stretch<T>
        requires run { IsRun self }
        requires all { length (values_of self) ≡ self.front.size }
        ensures field { result.field ≡ self.front.field }
        ensures start { result.start ≡ 0 }
        ensures values { result.values ≡ self.back.values ++ self.front.values }
        ensures room { length self.front.values ≡ self.front.size - self.front.start }
    {
        let Sides { front, back } = self;
        back.glue(front)
    }
}
