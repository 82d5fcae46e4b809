ghost use Rattle.std.specs.Prelude.{◌≡◌, ◌≤◌, ◌+◌, ◌++◌, [], length, vec_len, vec_capacity, position, true};
ghost use Rattle.std.specs.List.{list_all};
ghost use Rattle.vale_line.specs.Gots.{buffers_of};
ghost use Rattle.vale_entry.specs.Holdings.{contains, are_distinct};
ghost use Rattle.vale_serve.specs.Buffers.{is_buffer, holds, holds_all, IsTaken, AreTaken};

use nm_region::Buf;
use vale_line::Got;

/// Moves all buffers to the end of others, for which there is room.
pub(crate) fn move_all(mut from: Vec<Buf>, to: &mut Vec<Buf>)
    requires { vec_len to.old + length from.items ≤ vec_capacity to.old }
    ensures items { to.new.items ≡ to.old.items ++ from.items }
    ensures capacity { vec_capacity to.new ≡ vec_capacity to.old }
{
    from.reverse();
    while let Some(buf) = from.pop() {
        to.push_reserved(buf);
    }
    from.destroy_empty();
}

/// Moves the buffers of all frames to the end of others, for which there is room.
pub fn unwrap_all(mut from: Vec<Got>, to: &mut Vec<Buf>)
    requires { vec_len to.old + length from.items ≤ vec_capacity to.old }
    ensures items { to.new.items ≡ to.old.items ++ buffers_of from.items }
    ensures capacity { vec_capacity to.new ≡ vec_capacity to.old }
{
    from.reverse();
    while let Some(got) = from.pop() {
        to.push_reserved(got.into_buf());
    }
    from.destroy_empty();
}

fn place_of(bufs: &[Buf], index: u32) -> Option<usize>
    ensures { result ≡ position (is_buffer index) bufs.now }
{
    bufs.iter().position(|buf| buf.index() == index)
}

/// Tells whether a buffer of this index is there.
pub(crate) fn holds(bufs: &[Buf], index: u32) -> bool
    ensures { result ≡ holds bufs.now index }
{
    place_of(bufs, index).is_some()
}

fn contains(numbers: &[u32], number: u32) -> bool
    ensures { result ≡ contains number numbers.now }
{
    numbers.iter().any(|n| *n == number)
}

/// Tells whether no number stands twice.
fn are_distinct(numbers: &[u32]) -> bool
    ensures { result ≡ are_distinct numbers.now }
{
    match numbers {
        [] => true,
        [first, rest @ ..] => !contains(rest, *first) && are_distinct(rest),
    }
}

fn are_held(bufs: &[Buf], named: &[u32]) -> bool
    ensures { result ≡ list_all (holds bufs.now) named.now }
{
    named.iter().all(|index| holds(bufs, *index))
}

/// Tells whether buffers of these indices are there, and none is named twice.
pub(crate) fn holds_all(bufs: &[Buf], named: &[u32]) -> bool
    ensures { result ≡ holds_all bufs.now named.now }
{
    are_held(bufs, named) && are_distinct(named)
}

/// Takes the buffer of this index out.
fn take_one(bufs: &mut Vec<Buf>, index: u32) -> Buf
    requires { holds bufs.old.items index ≡ true }
    ensures taken { IsTaken bufs.old.items index result bufs.new.items }
    ensures capacity { vec_capacity bufs.old ≤ vec_capacity bufs.new }
{
    let Some(place) = place_of(bufs, index) else {
        unreachable!()
    };
    bufs.remove(place)
}

/// Takes the buffers of these indices out, into an empty vector with room for them.
pub(crate) fn take_out(bufs: &mut Vec<Buf>, named: &[u32], mut to: Vec<Buf>) -> Vec<Buf>
    requires there { holds_all bufs.old.items named.now ≡ true }
    requires none { to.items ≡ [] }
    requires room { length named.now ≤ vec_capacity to }
    ensures taken { AreTaken bufs.old.items named.now result.items bufs.new.items }
    ensures capacity { vec_capacity bufs.old ≤ vec_capacity bufs.new }
{
    for index in named {
        to.push_reserved(take_one(bufs, *index));
    }
    to
}
