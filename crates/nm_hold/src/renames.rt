ghost use Rattle.std.specs.Prelude.{ℕ, ◌≡◌, ◌<◌, ◌≤◌, IsSome, slice_index_or};
ghost use Rattle.nm_types.specs.Limits.{most_ring};
ghost use Rattle.nm_types.specs.Positions.{slots_from};
ghost use Rattle.nm_hold.specs.Holds.{cell_at};
ghost use Rattle.nm_hold.specs.Renames.{cells_renamed};

use crate::around::step_on;
use crate::cells::Cells;

/// The number at a position, 0 if there is none.
pub fn number_in(numbers: &[u32], at: u32) -> u32
    ensures { result ≡ slice_index_or numbers.now at 0 }
{
    match numbers.get(at as usize) {
        Some(number) => *number,
        None => 0,
    }
}

/// Makes the buffers named ones, or ones that are not named, whose numbers stand at `count` positions
/// from the first one on, going round at `size`.
pub(crate) fn name_cells(
    cells: &mut Cells,
    numbers: &[u32],
    size: u32,
    first: u32,
    count: u32,
    named: bool,
)
    requires size { size ≤ most_ring }
    requires first { first < size }
    requires count { count ≤ size }
    requires stands { (at : ℕ) → at < size
        → IsSome (cell_at cells.old (slice_index_or numbers.now at 0)) }
    ensures { cells.new
        ≡ cells_renamed named numbers.now (slots_from size first count) cells.old }
{
    for k in 0..count {
        let at = step_on(size, first, k);
        cells.rename(number_in(numbers, at), named);
    }
}
