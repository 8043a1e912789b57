//! What files of C make a program: *IsJoined*, and the checks whose first failure refuses it.
//!
//! These are definitions alone; the join that meets them stands above.
#![tactic(auto)]
