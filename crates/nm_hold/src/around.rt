ghost use Rattle.std.specs.Prelude.{◌≡◌, ◌<◌, ◌≤◌};
ghost use Rattle.nm_types.specs.Limits.{most_ring};
ghost use Rattle.nm_types.specs.Positions.{step_on};

/// The position some steps on from another one, going round.
#[tactic(auto, using(crate::proofs::Turns::turns))]
pub fn step_on(size: u32, first: u32, steps: u32) -> u32
    requires size { size ≤ most_ring }
    requires first { first < size }
    requires steps { steps ≤ size }
    ensures { result ≡ step_on size first steps }
{
    let at = first + steps;
    if at < size { at } else { at - size }
}
