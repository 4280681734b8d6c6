// Runs the steps of case_runs.in: document 01's cases that no theorem states, the edges of interim claims, of pools that pay late, of repo
// tracking, of date limits, of minimum pieces, of days before the 2023 memo, of saved books that are carried over and of marks, and the
// examples of fail, interim accounting, repo and securities lending tracking of source document 001 (Clearing Memo 278), Attachment II, and of
// fail tracking of source document 004 (Clearing Memo 219), Attachment 3.
// It writes a line for each call: its name, number, day, count and claims; under it a line for each claim (type, outcome, payer,
// payee, security, row, transfer number, interest, principal, release date, slot) and for each balance that is not zero (on loan or on
// repo, security, lender, borrower, par). Before a carry over each word of its balances holds a stamp; under a refused one stand the words
// that it changed. Under a call that sets a mark or returns to one stands a line with the checksum of all words of the store, then one for
// each mark that is set: its number, day and count.
#![tactic(auto)]

use book::Done;
use call_files::steps::{Lines, run};
use call_files::{checksum, part};
use records::Claim;

// The bytes of a claim record.
const CLAIM_BYTES: usize = 35;

// The words of a mark in a store: whether it is set, day and count, and the balances.
const MARK_WORDS: usize = 8195;

// The lines with all that a call leaves.
struct Whole;

// Writes a claim's line.
fn print_claim(rt: &impl Print, c: Claim) {
    let _ = println!(rt;
        " claim {} {} {} {} {} {} {} {} {} {} {}",
        c.claim_type,
        c.outcome,
        c.payer,
        c.payee,
        c.security,
        c.row,
        c.transfer,
        c.interest.0,
        c.principal.0,
        c.release,
        c.slot
    );
}

// Writes the lines of the n claims in a buffer.
fn print_claims(rt: &impl Print, claims: &[u8], n: usize) {
    for i in 0..n {
        match reading::read_claim(part(claims, i.saturating_mul(CLAIM_BYTES), CLAIM_BYTES)) {
            Some(claim) => print_claim(rt, claim),
            None => {
                let _ = println!(rt; " no claim");
            }
        }
    }
}

// Writes the lines of the balances that are not zero. The words of repo stand behind those of lending.
fn print_balances(rt: &impl Print, balances: &[u64]) {
    for (w, par) in balances.iter().enumerate() {
        if *par != 0 {
            let tracking = if w < book::TRACKING_WORDS {
                "lent"
            } else {
                "repo"
            };
            let _ = println!(rt;
                " {tracking} {} {} {} {par}",
                w / 256 % 16,
                w / 16 % 16,
                w % 16
            );
        }
    }
}

// Writes a call's lines.
fn print_call(rt: &impl Print, name: &[u8], done: Done, claims: &[u8], balances: &[u64]) {
    let _ = rt.write_all(name);
    let _ = println!(rt;
        " {} {} {} {}",
        done.number, done.book.day, done.book.count, done.claims
    );
    print_claims(rt, claims, done.claims);
    print_balances(rt, balances);
}

// Writes the lines of the store: its checksum, and for each mark that is set its day and count.
fn print_store(rt: &impl Print, store: &[u64]) {
    let _ = println!(rt; " store {}", checksum(store));
    for (i, words) in store.chunks(MARK_WORDS).enumerate() {
        if let [1, day, count, ..] = words {
            let _ = println!(rt; " mark {} {day} {count}", i + 1);
        }
    }
}

impl Lines for Whole {
    const SETS_STORE: bool = true;

    fn call(&self, rt: &impl Print, name: &[u8], done: Done, claims: &[u8], balances: &[u64]) {
        print_call(rt, name, done, claims, balances);
    }

    fn mark(&self, rt: &impl Print, name: &[u8], done: Done, balances: &[u64], store: &[u64]) {
        print_call(rt, name, done, b"", balances);
        print_store(rt, store);
    }
}

fn main(rt: HostRuntime) {
    run::<786432, 4096>(&rt, &Whole, "case_runs.in");
}
