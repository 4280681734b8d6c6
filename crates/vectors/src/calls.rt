// The vectors of single calls: calls.in holds the calls, calls.expected what they should give.
// A line is written for each call that differs, with its place in the files counted from 0 and what differs, and for a file that does
// not end with its last entry; then how many agree and how many differ.
ghost use Rattle.std.specs.Prelude.{◌<◌, ◌^◌};

use crate::forecasts;
use crate::totals::Totals;
use book::Done;
use call_files::entries::{
    Balances, Bytes, ClaimsEntry, Entry, Expected, ForecastEntry, WordsCall, WordsEntry, entry_at,
};
use call_files::{half_at, read_file};
use std::fmt;
use std::rt::Files;

// Which parts of what a call gives differ from what it should give.
#[derive(Clone, Copy, Default, PartialEq)]
struct Differences {
    number: bool,
    day: bool,
    count: bool,
    claims: bool,
    balances: bool,
    buffer: bool,
    words: bool,
    figures: bool,
}

// The words of the parts that differ.
impl fmt::Display for Differences {
    fn fmt<W: fmt::Write>(&self, f: &mut fmt::Formatter<W>) -> fmt::Result {
        let parts = [
            (self.number, "number"),
            (self.day, "day"),
            (self.count, "count"),
            (self.claims, "claims"),
            (self.balances, "balances"),
            (self.buffer, "buffer"),
            (self.words, "words"),
            (self.figures, "figures"),
        ];
        for (differs, word) in parts {
            if differs {
                write!(f, " {word}")?;
            }
        }
        Ok(())
    }
}

// Buffers that hold the arguments of any call, and the words that it should leave.
#[derive(Drop)]
struct Buffers {
    calendar: [u32; 512],
    tables: [u32; 1856],
    balances: [u64; 8224],
    claims: [u8; 16384],
    words: [u64; 32812],
    left: [u64; 32812],
}

// Whether a claim buffer is the one that stands in a file, length and bytes.
fn same_bytes(claims: &[u8], t: &[u8], expected: Bytes) -> bool {
    claims.len() == expected.length && claims == expected.of(t)
}

// Whether words are those that stand in a file, in number and value; `left` gets the words of the file.
fn same_words(words: &[u64], t: &[u8], expected: Balances, left: &mut [u64]) -> bool {
    words.len() == expected.count(t) && words == &*expected.read(t, left)
}

// What differs between what a call answered and the balances that it left and what it should.
fn compare(
    done: Done,
    balances: &[u64],
    t: &[u8],
    expected: Expected,
    left: &mut [u64],
) -> Differences {
    Differences {
        number: done.number != expected.number,
        day: done.book.day != expected.book.day,
        count: done.book.count != expected.book.count,
        claims: done.claims != expected.claims,
        balances: !same_words(balances, t, expected.balances, left),
        ..Differences::default()
    }
}

// Makes a call that is lent tables. Answers what differs from what it should give, which stands at a place of a file, and the place behind
// that; so do the next three.
fn try_claims(
    s: &[u8],
    entry: ClaimsEntry,
    t: &[u8],
    place: usize,
    buffers: &mut Buffers,
) -> (Differences, usize) {
    let calendar = entry.calendar.read(s, &mut buffers.calendar);
    let tables = entry.tables.read(s, &mut buffers.tables);
    let balances = entry.balances.read(s, &mut buffers.balances);
    let claims = entry.buffer.read(s, &mut buffers.claims);
    let ClaimsEntry {
        call,
        book,
        message,
        ..
    } = entry;
    let done = call.make(s, calendar, tables, book, balances, message, claims);
    let expected = Expected::at(t, place);
    let bytes = Bytes::at(t, expected.next(t));
    let differences = Differences {
        buffer: !same_bytes(claims, t, bytes),
        ..compare(done, balances, t, expected, &mut buffers.left)
    };
    (differences, bytes.next())
}

// Makes a call on words.
fn try_words(
    s: &[u8],
    entry: WordsEntry,
    t: &[u8],
    place: usize,
    buffers: &mut Buffers,
) -> (Differences, usize) {
    let book = entry.book;
    let calendar = entry.calendar.read(s, &mut buffers.calendar);
    let balances = entry.balances.read(s, &mut buffers.balances);
    let words = entry.words.read(s, &mut buffers.words);
    let done = match entry.call {
        WordsCall::CarryOver => carry_over::carry_over(calendar, book, balances, words),
        WordsCall::Mark(call, mark) => call.make(calendar, book, balances, words, mark),
    };
    let expected = Expected::at(t, place);
    let stored = Balances(expected.next(t));
    let differences = Differences {
        words: !same_words(words, t, stored, &mut buffers.left),
        ..compare(done, balances, t, expected, &mut buffers.left)
    };
    (differences, stored.next(t))
}

// Makes a forecast.
fn try_forecast(entry: ForecastEntry, t: &[u8], place: usize) -> (Differences, usize) {
    let (number, bits) = forecasts::answer(entry.run, entry.account, entry.date);
    let differences = Differences {
        number: number != half_at(t, place),
        figures: bits != forecasts::bits_at(t, place.saturating_add(2)),
        ..Differences::default()
    };
    (differences, place.saturating_add(26))
}

// Makes a call with the arguments of a file.
fn try_entry(
    s: &[u8],
    entry: Entry,
    t: &[u8],
    place: usize,
    buffers: &mut Buffers,
) -> (Differences, usize) {
    match entry {
        Entry::Claims(entry) => try_claims(s, entry, t, place, buffers),
        Entry::Words(entry) => try_words(s, entry, t, place, buffers),
        Entry::Forecast(entry) => try_forecast(entry, t, place),
    }
}

// Counts one that differs for a file that does not end with its last entry.
fn count_end(rt: &impl Print, totals: &mut Totals, ends: bool, file: &str) {
    if !ends {
        let _ = println!(rt; "{file} does not end with its last entry");
        totals.count(false);
    }
}

// Tries the calls of a file, one after another. A proved loop has to end, so it counts them, up to more than a file holds.
fn try_all(rt: &impl Print, s: &[u8], t: &[u8], buffers: &mut Buffers) -> Totals {
    let mut totals = Totals::default();
    let mut at: usize = 0;
    let mut place: usize = 0;
    for index in 0..u32::MAX {
        if s.len() <= at {
            break;
        }
        let (entry, next) = entry_at(s, at);
        let (differences, next_place) = try_entry(s, entry, t, place, buffers);
        let agrees = differences == Differences::default();
        if !agrees {
            let _ = println!(rt; "call {index} differs:{differences}");
        }
        totals.count(agrees);
        at = next;
        place = next_place;
    }
    count_end(rt, &mut totals, at == s.len(), "calls.in");
    count_end(rt, &mut totals, place == t.len(), "calls.expected");
    totals
}

// Tries the stored calls, files of up to CALLS and EXPECTED bytes, and writes how many agree.
pub fn try_calls<const CALLS: usize, const EXPECTED: usize>(
    rt: &(impl Files + Print + Eprint + Alloc),
)
    requires calls { CALLS < 2 ^ 63 }
    requires expected { EXPECTED < 2 ^ 63 }
{
    let mut calls = [0u8; CALLS];
    let mut expected = [0u8; EXPECTED];
    let calls = read_file(rt, b"calls.in", &mut calls);
    let expected = read_file(rt, b"calls.expected", &mut expected);
    let mut buffers = Buffers {
        calendar: [0; 512],
        tables: [0; 1856],
        balances: [0; 8224],
        claims: [0; 16384],
        words: [0; 32812],
        left: [0; 32812],
    };
    try_all(rt, calls, expected, &mut buffers).print(rt, "calls");
}
