// Runs the steps of extremes.in: calls at the ends of their ranges, with claim buffers up to 4,300,801 bytes.
// It writes a line for each call: its name, number, day, count and claims, and the checksums of the claim buffer and of the balances
// after it; of a call that sets a mark or returns to one those of the balances and of the store. Before each other call the claim buffer
// holds the remainders of its places by 251.
#![tactic(auto)]

use book::Done;
use call_files::checksum;
use call_files::steps::{Lines, run};

// The lines with the checksums of what a call leaves.
struct Checksums;

// Writes a call's line with two checksums.
fn print_line(rt: &impl Print, name: &[u8], done: Done, first: u64, second: u64) {
    let Done {
        number,
        book,
        claims,
    } = done;
    let _ = rt.write_all(name);
    let _ = println!(rt;
        " {number} {} {} {claims} {first} {second}",
        book.day, book.count
    );
}

impl Lines for Checksums {
    const SETS_STORE: bool = false;

    fn call(&self, rt: &impl Print, name: &[u8], done: Done, claims: &[u8], balances: &[u64]) {
        print_line(rt, name, done, checksum(claims), checksum(balances));
    }

    fn mark(&self, rt: &impl Print, name: &[u8], done: Done, balances: &[u64], store: &[u64]) {
        print_line(rt, name, done, checksum(balances), checksum(store));
    }
}

fn main(rt: HostRuntime) {
    run::<524288, 4300801>(&rt, &Checksums, "extremes.in");
}
