// The vectors of streams: for each, streams.in holds a book.dat, the input, and all that should be written for it.
// Each input is served in two runs, cut in its middle. A line is written for each stream that differs, with its place in the file
// counted from 0; then how many agree and how many differ.
ghost use Rattle.std.specs.Prelude.{◌<◌, ◌^◌};

use crate::totals::Totals;
use book::Book;
use call_files::entries::Bytes;
use call_files::{part, read_file};
use records::Answer;
use std::rt::Files;

// A stream: its book.dat, its input, and all that should be written for it.
#[derive(Clone, Copy)]
struct Stream<'a> {
    book: &'a [u8],
    input: &'a [u8],
    expected: &'a [u8],
}

// How far a stream is served: the book, the places in the input and in what should be written, and whether a 5 has ended the stream.
#[derive(Clone, Copy)]
struct Run {
    book: Book,
    at: usize,
    place: usize,
    over: bool,
}

// The stream at a place of the file, three parts, each behind its length; and the place behind it.
fn stream_at(s: &[u8], at: usize) -> (Stream<'_>, usize) {
    let book = Bytes::at(s, at);
    let input = Bytes::at(s, book.next());
    let expected = Bytes::at(s, input.next());
    let stream = Stream {
        book: book.of(s),
        input: input.of(s),
        expected: expected.of(s),
    };
    (stream, expected.next())
}

// Whether the answer with a number, and nothing else, should be written.
fn is_answer(number: u16, expected: &[u8]) -> bool {
    let mut out = [0u8; 6];
    let _ = writing::write_answer(&mut out, Answer { number });
    out.as_slice() == expected
}

// What each run of serve is lent, and what all runs together should write.
#[derive(Clone, Copy)]
struct Lent<'a> {
    calendar: &'a [u32],
    tables: &'a [u32],
    expected: &'a [u8],
}

impl Lent<'_> {
    // One run of serve, where what it writes is what should be written.
    fn turn(
        self,
        run: Run,
        balances: &mut [u64],
        input: &[u8],
        ended: bool,
        output: &mut [u8],
    ) -> Option<Run> {
        let Lent {
            calendar,
            tables,
            expected,
        } = self;
        let rest = part(input, run.at, input.len());
        let s = serving::serve(calendar, tables, run.book, balances, rest, ended, output);
        if part(output, 0, s.written) != part(expected, run.place, s.written) {
            return None;
        }
        Some(Run {
            book: s.book,
            at: run.at.saturating_add(s.consumed),
            place: run.place.saturating_add(s.written),
            over: s.over,
        })
    }

    // Runs of serve until one works nothing or the stream is over, where what they write is what should be written. A proved loop has to end,
    // so it counts them.
    fn turns(
        self,
        start: Run,
        balances: &mut [u64],
        input: &[u8],
        ended: bool,
        output: &mut [u8],
    ) -> Option<Run> {
        let mut run = start;
        for _ in 0..u32::MAX {
            let next = self.turn(run, balances, input, ended, output)?;
            if next.over || next.at == run.at {
                return Some(next);
            }
            run = next;
        }
        Some(run)
    }

    // Serves the first half of the input, and then the rest, where all that is written is what should be written.
    fn serve_halves(
        self,
        book: Book,
        balances: &mut [u64],
        input: &[u8],
        output: &mut [u8],
    ) -> Option<Run> {
        let start = Run {
            book,
            at: 0,
            place: 0,
            over: false,
        };
        let first = part(input, 0, input.len() / 2);
        let half = self.turns(start, balances, first, false, output)?;
        if half.over {
            return Some(half);
        }
        self.turns(half, balances, input, true, output)
    }
}

// Opens the book and serves the input; a book that is refused gets its number. Answers whether what is written is what should be, and all of
// it.
fn try_stream(stream: Stream, balances: &mut [u64], output: &mut [u8]) -> bool {
    let Stream {
        book,
        input,
        expected,
    } = stream;
    if book.len() != 9220 {
        return is_answer(1, expected);
    }
    let mut calendar = [0u32; 480];
    let mut tables = [0u32; 1824];
    let day = book_file::load(book, &mut calendar, &mut tables);
    let done = opens::open(&calendar, &tables, balances, day);
    if done.number != 0 {
        return is_answer(done.number, expected);
    }
    let lent = Lent {
        calendar: &calendar,
        tables: &tables,
        expected,
    };
    lent.serve_halves(done.book, balances, input, output)
        .is_some_and(|run| run.place == expected.len())
}

// Tries the streams of a file, one after another.
fn try_all(rt: &impl Print, s: &[u8], balances: &mut [u64], output: &mut [u8]) -> Totals {
    let mut totals = Totals::default();
    let mut at: usize = 0;
    for index in 0..u32::MAX {
        if s.len() <= at {
            break;
        }
        let (stream, next) = stream_at(s, at);
        let agrees = try_stream(stream, balances, output);
        if !agrees {
            let _ = println!(rt; "stream {index} differs");
        }
        totals.count(agrees);
        at = next;
    }
    totals
}

// Tries the stored streams, a file of up to FILE bytes, with an output of OUTPUT bytes, and writes how many agree.
pub fn try_streams<const FILE: usize, const OUTPUT: usize>(
    rt: &(impl Files + Print + Eprint + Alloc),
)
    requires file { FILE < 2 ^ 63 }
    requires output { OUTPUT < 2 ^ 63 }
{
    let mut file = [0u8; FILE];
    let mut balances = [0u64; 8192];
    let mut output = [0u8; OUTPUT];
    let file = read_file(rt, b"streams.in", &mut file);
    try_all(rt, file, &mut balances, &mut output).print(rt, "streams");
}
