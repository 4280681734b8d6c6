// Files of single calls and of what they should give: an entry for each call, one after another, in the same order in both files.
// An entry of the calls: the call in a byte (0 open, 1 transfer with ones as pieces, 2 close, 3 transfer that is lent lists); the number of
// calendar words in four bytes and the words; the tables likewise; balances; day and count; the length of the message in four bytes and the
// message; the claim buffer likewise; of a transfer that is lent lists the limits, or 4294967295 and no words in the form without them, and
// the pieces. A carry over, 4, has the calendar; the saved balances; day and count; the balances that it is to write. A call that sets a
// mark, 5, or returns to one, 6, has the calendar; balances; day and count; the store in the format of balances; the mark in four bytes. A
// forecast, 7, has the account and the release date in four bytes each, and the length of the run of claim records in four and the run.
// An entry of what they give: the number in two bytes; day, count and claims in four each; balances; the claim buffer, the balances that a
// carry over is to write, or the store. Of a forecast: the number in two bytes, and the three doubles in eight each.
// Balances: how many words in four bytes, how many of them are not zero in four, and for each of these its place and its par.
use crate::{Call, MarkCall, Numbers, byte_at, bytes_at, half_at, pairs_at, part, word_at};
use book::Book;

// Bytes behind their length in a file.
#[derive(Clone, Copy)]
pub struct Bytes {
    pub at: usize,
    pub length: usize,
}

impl Bytes {
    // The bytes behind their length.
    pub fn at(s: &[u8], at: usize) -> Bytes {
        Bytes {
            at: at.saturating_add(4),
            length: word_at(s, at) as usize,
        }
    }

    // The place behind the bytes.
    pub fn next(self) -> usize {
        self.at.saturating_add(self.length)
    }

    // The bytes, fewer where the file ends first.
    pub fn of(self, s: &[u8]) -> &[u8] {
        part(s, self.at, self.length)
    }

    // The bytes, in a buffer, as far as they fit it.
    pub fn read<'a>(self, s: &[u8], buffer: &'a mut [u8]) -> &'a mut [u8] {
        let n = buffer.len().min(self.length);
        bytes_at(s, self.at, &mut buffer[..n]);
        &mut buffer[..n]
    }
}

// Balances at a place of a file.
#[derive(Clone, Copy)]
pub struct Balances(pub usize);

impl Balances {
    // How many words they are.
    pub fn count(self, s: &[u8]) -> usize {
        word_at(s, self.0) as usize
    }

    // The place behind the balances.
    pub fn next(self, s: &[u8]) -> usize {
        let pairs = word_at(s, self.0.saturating_add(4));
        self.0
            .saturating_add(8)
            .saturating_add(12 * (pairs as usize))
    }

    // Fills words with the balances.
    fn fill(self, s: &[u8], words: &mut [u64]) {
        words.fill(0);
        pairs_at(
            s,
            self.0.saturating_add(8),
            word_at(s, self.0.saturating_add(4)),
            words,
        );
    }

    // The balances, in a buffer, as far as they fit it.
    pub fn read<'a>(self, s: &[u8], buffer: &'a mut [u64]) -> &'a mut [u64] {
        let n = buffer.len().min(self.count(s));
        self.fill(s, &mut buffer[..n]);
        &mut buffer[..n]
    }
}

// A call on words, in place of tables and a message.
#[derive(Clone, Copy)]
pub enum WordsCall {
    // The words are the balances that the call is to write.
    CarryOver,
    // The words are a store; the number is the mark.
    Mark(MarkCall, u32),
}

// The arguments of a call that is lent tables.
#[derive(Clone, Copy)]
pub struct ClaimsEntry<'a> {
    pub call: Call,
    pub calendar: Numbers,
    pub tables: Numbers,
    pub balances: Balances,
    pub book: Book,
    pub message: &'a [u8],
    pub buffer: Bytes,
}

// The arguments of a call on words.
#[derive(Clone, Copy)]
pub struct WordsEntry {
    pub call: WordsCall,
    pub calendar: Numbers,
    pub balances: Balances,
    pub book: Book,
    pub words: Balances,
}

// The arguments of a forecast: an account, a release date and a run of claim records.
#[derive(Clone, Copy)]
pub struct ForecastEntry<'a> {
    pub account: u32,
    pub date: u32,
    pub run: &'a [u8],
}

// A call with its arguments, or where these stand.
#[derive(Clone, Copy)]
pub enum Entry<'a> {
    Claims(ClaimsEntry<'a>),
    Words(WordsEntry),
    Forecast(ForecastEntry<'a>),
}

// The book at a place.
pub(crate) fn book_at(s: &[u8], at: usize) -> Book {
    Book {
        day: word_at(s, at),
        count: word_at(s, at.saturating_add(4)),
    }
}

// The call with a number on words whose calendar stands at a place, and the place behind it.
fn words_entry_at(number: u8, s: &[u8], at: usize) -> (Entry<'_>, usize) {
    let calendar = Numbers::at(s, at);
    let balances = Balances(calendar.next());
    let book = balances.next(s);
    let words = Balances(book.saturating_add(8));
    let next = words.next(s);
    let mark = word_at(s, next);
    let (call, next) = match number {
        5 => (WordsCall::Mark(MarkCall::Set, mark), next.saturating_add(4)),
        6 => (
            WordsCall::Mark(MarkCall::Return, mark),
            next.saturating_add(4),
        ),
        _ => (WordsCall::CarryOver, next),
    };
    let entry = WordsEntry {
        call,
        calendar,
        balances,
        book: book_at(s, book),
        words,
    };
    (Entry::Words(entry), next)
}

// The call with a number that is lent tables whose calendar stands at a place, and the place behind it.
fn claims_entry_at(number: u8, s: &[u8], at: usize) -> (Entry<'_>, usize) {
    let calendar = Numbers::at(s, at);
    let tables = Numbers::at(s, calendar.next());
    let balances = Balances(tables.next());
    let book = balances.next(s);
    let message = Bytes::at(s, book.saturating_add(8));
    let buffer = Bytes::at(s, message.next());
    let (call, next) = Call::at(number, s, buffer.next());
    let entry = ClaimsEntry {
        call,
        calendar,
        tables,
        balances,
        book: book_at(s, book),
        message: message.of(s),
        buffer,
    };
    (Entry::Claims(entry), next)
}

// The forecast whose account stands at a place, and the place behind it.
fn forecast_at(s: &[u8], at: usize) -> (Entry<'_>, usize) {
    let run = Bytes::at(s, at.saturating_add(8));
    let entry = ForecastEntry {
        account: word_at(s, at),
        date: word_at(s, at.saturating_add(4)),
        run: run.of(s),
    };
    (Entry::Forecast(entry), run.next())
}

// The call at a place, and the place behind it.
pub fn entry_at(s: &[u8], at: usize) -> (Entry<'_>, usize) {
    let arguments = at.saturating_add(1);
    match byte_at(s, at) {
        number @ 4..=6 => words_entry_at(number, s, arguments),
        7 => forecast_at(s, arguments),
        number => claims_entry_at(number, s, arguments),
    }
}

// What a call should answer, and where what it should leave stands.
#[derive(Clone, Copy)]
pub struct Expected {
    pub number: u16,
    pub book: Book,
    pub claims: usize,
    pub balances: Balances,
}

impl Expected {
    // What a call at a place should answer.
    pub fn at(s: &[u8], at: usize) -> Expected {
        Expected {
            number: half_at(s, at),
            book: book_at(s, at.saturating_add(2)),
            claims: word_at(s, at.saturating_add(10)) as usize,
            balances: Balances(at.saturating_add(14)),
        }
    }

    // The place behind it: that of the claim buffer or of the words.
    pub fn next(self, s: &[u8]) -> usize {
        self.balances.next(s)
    }
}
