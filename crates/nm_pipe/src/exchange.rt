ghost use Rattle.std.specs.Prelude.{◌≡◌, ◌+◌, ◌≤◌, [], ◌++◌, length, take, drop, vec_capacity};

use nm_region::Buf;

/// Moves the first `count` to the end of others.
#[tactic(auto, using(crate::proofs::Moved::moved))]
fn take_first<T>(pending: &mut Vec<T>, taken: &mut Vec<T>, count: usize)
    requires enough { count ≤ length pending.old.items }
    requires room { length taken.old.items + count ≤ vec_capacity taken.old }
    ensures taken { taken.new.items ≡ taken.old.items ++ take count pending.old.items }
    ensures pending { pending.new.items ≡ drop count pending.old.items }
    ensures capacity { vec_capacity pending.new ≡ vec_capacity pending.old }
{
    pending.reverse();
    for _ in 0..count {
        match pending.pop() {
            Some(item) => taken.push_reserved(item),
            None => unreachable!(),
        }
    }
    pending.reverse();
}

/// Exchanges buffers that the peer lent for as many frames: moves the first frames of `pending` to
/// the end of `taken`, and all of `lent` to the end of `back`, both in order. Takes no memory.
pub fn give<T>(pending: &mut Vec<T>, taken: &mut Vec<T>, lent: &mut Vec<Buf>, back: &mut Vec<Buf>)
    requires enough { length lent.old.items ≤ length pending.old.items }
    requires taken_room { length taken.old.items + length lent.old.items
        ≤ vec_capacity taken.old }
    requires back_room { length back.old.items + length lent.old.items ≤ vec_capacity back.old }
    ensures taken { taken.new.items
        ≡ taken.old.items ++ take (length lent.old.items) pending.old.items }
    ensures pending { pending.new.items ≡ drop (length lent.old.items) pending.old.items }
    ensures capacity { vec_capacity pending.new ≡ vec_capacity pending.old }
    ensures back { back.new.items ≡ back.old.items ++ lent.old.items }
    ensures lent { lent.new.items ≡ [] }
{
    take_first(pending, taken, lent.len());
    back.append(lent).unwrap();
}
