//! Laws of a pool. Each function does nothing; its contract is a law about the definitions, which
//! the check proves.
#![tactic(auto, using(crate::proofs::Out::pool_laws))]

ghost use Rattle.nm_pool.specs.Laws.{TakingLosesNone, AnyOutCanBeGiven, GivingLosesNone, NoneOutIsWhole};

/// The buffers that are out and the free ones stay all buffers of the pool, each once, when some
/// are taken and when one is given back.
pub fn no_buffer_is_lost()
    ensures taking { TakingLosesNone }
    ensures giving { GivingLosesNone }
{}

/// Each buffer that is out can be given back, and then all are free.
pub fn all_can_be_given()
    ensures given { AnyOutCanBeGiven }
    ensures whole { NoneOutIsWhole }
{}
