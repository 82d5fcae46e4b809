//! Laws of what names are answered. Each function does nothing; its contract is a law about the
//! definitions, which the check proves.
#![tactic(auto, using(crate::proofs::OrderLemmas::order_laws))]

ghost use Rattle.vale_names.specs.Laws.{OrderSaysNothing, OrderFindsTheSame, OneIsOpen};

/// The answer to an opening does not depend on the order of the ports.
pub fn openings_do_not_depend_on_order()
    ensures { OrderSaysNothing }
{}

/// The port that a name finds does not depend on the order of the ports.
pub fn order_finds_the_same()
    ensures { OrderFindsTheSame }
{}

/// At most one of the ports that `Names` holds is open under a name.
pub fn one_port_is_open()
    ensures { OneIsOpen }
{}
