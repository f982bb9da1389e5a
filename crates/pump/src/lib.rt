// The calls as other languages see them, where a map crosses the border as its file: numbers for refusals and
// kinds, and answers in what is lent, as C has them. The crate `pump_c` exports them for C, under the same names:
// c/pump.h tells each call and number.

#![tactic(auto)]

pub mod changes;
mod numbers;
pub mod questions;
