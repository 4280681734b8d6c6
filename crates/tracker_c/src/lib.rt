// The exports for C callers: each calls the function of its name of the claim tracker and promises what it does.
#![tactic(auto)]

pub mod calls;
pub mod forecasts;
pub mod messages;
pub mod own_book;
pub mod streams;
