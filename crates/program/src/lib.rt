// The program claimrun (document 01, section The program claimrun): all that it writes, and the theorem that its steps write it, however
// the input is cut into reads. They stand in specs/ and proofs/; here is the type that the definitions name, and the code is in the crate
// steps.
#![tactic(auto)]

use book::Book;

// What claimrun holds after a step: the book; how many bytes of the input buffer, from its start, are not worked yet; how many bytes of the
// output buffer, from its start, are to be written; whether the input has ended; whether the run is over; and whether more input is asked
// for.
#[derive(Clone, Copy, Debug, PartialEq, Eq)]
pub struct Held {
    pub book: Book,
    pub left: usize,
    pub written: usize,
    pub ended: bool,
    pub over: bool,
    pub asks: bool,
}
