// A stream of message records (document 01, section The program claimrun): what is answered to it, and the theorem that it is so however
// the input is cut into runs. They stand in specs/ and proofs/; here are the types that the definitions name, and the code is in the
// crate serving.
#![tactic(auto)]

use book::Book;

// What the input begins with: a whole record with its size, something that may still become one, or something that is none.
#[derive(Clone, Copy, Debug, PartialEq, Eq)]
pub enum Next {
    Record(usize),
    Waiting,
    Wrong,
}

// What working a record answers: the book after it, and how many bytes were written.
#[derive(Clone, Copy, Debug, PartialEq, Eq)]
pub struct Worked {
    pub book: Book,
    pub written: usize,
}

// What a run answers: the number 1 to 4 that calendar, tables, book or balances meet, or 0; the book after it, how many bytes of the input
// were worked, how many bytes of the output were written, whether a 5 has ended the stream, and whether the output is full: it has no room
// for another record behind what was written.
#[repr(C)]
#[derive(Clone, Copy, Debug, PartialEq, Eq)]
pub struct Served {
    pub number: u16,
    pub book: Book,
    pub consumed: usize,
    pub written: usize,
    pub over: bool,
    pub full: bool,
}
