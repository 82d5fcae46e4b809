ghost use Rattle.std.specs.Prelude.{◌≡◌, ◌^◌, ◌<◌, length, IfOk, IfErr, IsOk};
ghost use Rattle.std.specs.Vec.{vec_capacity, vec_ptr};
ghost use Rattle.nm_reach.specs.Fields.{field_of, whole_of, IsAllOf, from_first};

use crate::parts::{Husk, attach, detach};
use crate::reach::Reach;
use crate::sides::Sides;
use crate::stretch::Stretch;
use nm_types::NoMemory;
use std::marker::Model;
use std::mem::ManuallyDrop;

/// Cells that are reached by rights alone. It cannot be dropped: `close` takes it with the right to
/// all its cells.
///
/// The cells lie in the memory of the vector that they were made of. By that memory fields are told
/// apart: where it begins no caller can work out.
pub struct Field<T> {
    /// Never dropped: what holds a field then needs no drop of a husk.
    husk: ManuallyDrop<Husk<T>>,
    size: u32,
}

impl<T> Model for Field<T> {
    ghost use Rattle.std.specs.Prelude.{◌≡◌};
    ghost use Rattle.std.specs.Mem.{manually_drop_value};
    ghost use Rattle.nm_reach.specs.Fields.{FieldState, field_code};

    ghost Value = { FieldState };

    ghost coded = { field_code };

    ghost view = { λ f. record {
      field = (manually_drop_value f.husk).field;
      size = f.size;
      capacity = (manually_drop_value f.husk).capacity;
    } };

    ghost invariant = { λ f. (manually_drop_value f.husk).size ≡ f.size };
}

impl<T> Field<T> {
    /// A cell for each value, and the right to all of them. It takes no memory.
    pub fn new(mut values: Vec<T>) -> Result<(Field<T>, Reach<T>), (NoMemory, Vec<T>)>
        requires some { 0 < length values.items }
        requires few { length values.items < 2 ^ 32 }
        ensures made { IsOk result }
        ensures field { IfOk result (λ made. made.0 ≡ field_of values) }
        ensures all { IfOk result (λ made. made.1 ≡ whole_of values) }
        ensures kept { IfErr result (λ kept. kept.1 ≡ values) }
    {
        let size = values.len();
        let ptr = values.as_mut_ptr();
        let (values, husk) = detach(values);
        let (back, front) = Stretch::new(ptr, size, values).cut(0);
        let size = size as u32;
        let husk = unsafe { ManuallyDrop::new_unchecked(husk) };
        let all = Reach::whole(size, Sides { front, back });
        Ok((Field { husk, size }, all))
    }

    /// The values in the order of their cells, from cell 0 on, in the vector that the field was
    /// made of.
    pub fn close(self, all: Reach<T>) -> Vec<T>
        requires { IsAllOf self all }
        ensures values { result.items ≡ from_first all }
        ensures place { vec_ptr result ≡ self.field }
        ensures capacity { vec_capacity result ≡ self.capacity }
    {
        let Field { husk, size: _ } = self;
        attach(all.unrolled().into_values(), ManuallyDrop::into_inner(husk))
    }
}
