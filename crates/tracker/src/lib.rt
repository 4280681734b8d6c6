// The public face of the claim tracker: what C and Rust callers link. Every function takes any input whatever and refuses what is bad
// with document 01's numbers.
#![tactic(auto)]

pub mod calls;
pub mod forecasts;
pub mod messages;
pub mod own_book;
pub mod streams;
