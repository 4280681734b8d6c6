// Tries stored vectors: each is run, and what it gives is compared with what it should give.
#![tactic(auto)]

mod calls;
mod forecasts;
mod streams;
mod totals;

fn main(rt: HostRuntime) {
    calls::try_calls::<2621440, 262144>(&rt);
    streams::try_streams::<1310720, 131072>(&rt);
}
