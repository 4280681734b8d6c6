// The book and its balances (document 01, sections The book and Loans): their types, positions with their words, the answer to a refused
// call, clearing and copying. The definitions stand in specs/, with those of the numbers 1 to 4, 7 and 8 of what can be refused, and their laws in proofs/; the
// crate judging has the code of numbers 1 to 4, the crate loans that of 7 and 8.
#![tactic(auto)]

ghost use Rattle.std.specs.Prelude.{◌≡◌, ◌++◌, ◌≤◌, length, drop, replicate};
ghost use Rattle.records.specs.Refusals.{refusal_number};
ghost use Rattle.book.specs.Answered.{answered};
ghost use Rattle.book.specs.Book.{word, balance_at};

use records::Refusal;

// A position: what one account has lent another in one security, on loan (tracking 0) or on repo (tracking 1).
#[derive(Clone, Copy, Debug, PartialEq, Eq)]
pub struct Position {
    pub tracking: u8,
    pub security: u8,
    pub lender: u8,
    pub borrower: u8,
}

impl Position {
    // The word of the balances that holds it.
    #[tactic(auto, unfolding(crate::specs::Book::word))]
    pub fn word(self) -> usize
        ensures { result ≡ word self }
    {
        4096 * (self.tracking as usize)
            + 256 * (self.security as usize)
            + 16 * (self.lender as usize)
            + self.borrower as usize
    }

    // Its par, nothing where balances do not reach it.
    #[tactic(auto, unfolding(crate::specs::Book::balance_at))]
    pub fn par(self, balances: &[u64]) -> u64
        ensures { result ≡ balance_at balances.now self }
    {
        balances.get(self.word()).copied().unwrap_or(0)
    }
}

// What a transfer does to a position: loans each way stand beside each other, so it changes one, or none.
#[derive(Clone, Copy, Debug, PartialEq, Eq)]
pub enum Change {
    Unchanged,
    Increase(Position),
    Decrease(Position),
}

// A book's day and the number of its accepted transfers.
#[repr(C)]
#[derive(Clone, Copy, Debug, PartialEq, Eq)]
pub struct Book {
    pub day: u32,
    pub count: u32,
}

// The largest balance.
pub const LARGEST_BALANCE: u64 = 9_000_000_000;

// The balances of one tracking: those of a book saved before repo was tracked, and the first word of repo.
pub const TRACKING_WORDS: usize = 4096;

// What a call answers: its number, the book after it, and how many claims it wrote.
#[repr(C)]
#[derive(Clone, Copy, Debug, PartialEq, Eq)]
pub struct Done {
    pub number: u16,
    pub book: Book,
    pub claims: usize,
}

// The answer to a refused call: its number, the book given and no claims.
pub fn refused(number: u16, book: Book) -> Done
    ensures { result ≡ record { number = number; book = book; claims = 0 } }
{
    Done {
        number,
        book,
        claims: 0,
    }
}

impl Done {
    // The answer to a refused call: the number of the refusal, the book given and no claims.
    pub fn refused(refusal: Refusal, book: Book) -> Done
        ensures { result ≡ record { number = refusal_number refusal; book = book; claims = 0 } }
    {
        refused(refusal.number(), book)
    }

    // What a call answers on a book: its answer, or that to a refused call.
    #[tactic(auto, unfolding(crate::specs::Answered::answered))]
    pub fn answered(book: Book, call: Result<Done, Refusal>) -> Done
        ensures { result ≡ answered book call }
    {
        match call {
            Ok(done) => done,
            Err(refusal) => Done::refused(refusal, book),
        }
    }
}

// Sets every balance to zero.
pub fn clear(balances: &mut [u64])
    ensures { balances.new ≡ replicate (length balances.old) 0 }
{
    balances.fill(0);
}

// Copies words to the start of others. It is a loop of its own, since std's method would have the library for C need a name from outside.
pub fn copy(from: &[u64], to: &mut [u64])
    requires { length from.now ≤ length to.old }
    ensures { to.new ≡ from.now ++ drop (length from.now) to.old }
{
    for w in 0..from.len() {
        to[w] = from[w];
    }
}
