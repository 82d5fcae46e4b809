//! What it is for a history to play a script: the machine of one user, the calls that its lines
//! need, and the histories that hold each of these calls once, in its user's order.
#![tactic(auto)]

pub mod laws;
