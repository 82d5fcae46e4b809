ghost use Rattle.std.specs.Prelude.{◌≡◌, ◌≤◌, ◌+◌, [], length, vec_capacity, true};
ghost use Rattle.vale_line.specs.Gots.{buffers_of};
ghost use Rattle.vale_serve.specs.Buffers.{holds_all};
ghost use Rattle.vale_serve.specs.Exchange.{HasTakenOut, HasMore};

use crate::buffers::{move_all, take_out, unwrap_all};
use crate::users::User;
use nm_region::Buf;
use vale_line::Got;

/// Takes these buffers of a session out, into an empty vector with room for them.
pub(crate) fn take_from(user: &mut User, named: &[u32], to: Vec<Buf>) -> Vec<Buf>
    requires there { holds_all user.old.bufs.items named.now ≡ true }
    requires none { to.items ≡ [] }
    requires room { length named.now ≤ vec_capacity to }
    ensures { HasTakenOut user.old named.now result.items user.new }
{
    take_out(&mut user.bufs, named, to)
}

/// Gives a session these buffers, for which it has room.
pub(crate) fn give(user: &mut User, bufs: Vec<Buf>)
    requires { length user.old.bufs.items + length bufs.items ≤ vec_capacity user.old.bufs }
    ensures more { HasMore user.old bufs.items user.new }
    ensures capacity { vec_capacity user.new.bufs ≡ vec_capacity user.old.bufs }
{
    move_all(bufs, &mut user.bufs);
}

/// Gives a session the buffers of these frames, for which it has room.
pub(crate) fn give_all(user: &mut User, gots: Vec<Got>)
    requires { length user.old.bufs.items + length gots.items ≤ vec_capacity user.old.bufs }
    ensures more { HasMore user.old (buffers_of gots.items) user.new }
    ensures capacity { vec_capacity user.new.bufs ≡ vec_capacity user.old.bufs }
{
    unwrap_all(gots, &mut user.bufs);
}
