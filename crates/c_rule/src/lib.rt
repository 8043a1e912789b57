//! The 24 typing rules as definitions, and the typing function.
//!
//! *IsTyped* says which typed unit belongs to a unit, *UnitFails* where a rule fails in it. The typing function *judged*
//! gives for each unit the one or the number of the other; the laws join the three. No checker stands here.
#![tactic(auto)]

pub mod laws;
