//! The users of a script between two of its units.
ghost use Rattle.std.specs.Prelude.{◌≡◌, []};
ghost use Rattle.vale_act.specs.Units.{knows_at};

use nm_types::StepFault;
use vale_player::{Player, SaveFile};

/// A user of a script.
pub enum Seat<'f> {
    /// It has not come yet.
    Away,
    /// It is there, as a session of the fabric; a fault may have ended its lines.
    There {
        player: Player<'f>,
        fault: Option<StepFault>,
    },
    /// It has left; these files get the frames of its ports.
    Gone {
        saves: Vec<SaveFile>,
    },
}

impl<'f> Seat<'f> {
    /// Ends a seat that nobody has.
    pub(crate) fn end(self)
        requires { knows_at self ≡ [] }
    {
        match self {
            Seat::Away => {}
            Seat::Gone { saves: _ } => {}
            _ => unreachable!(),
        }
    }
}
