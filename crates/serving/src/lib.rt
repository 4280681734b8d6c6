// Serves a stream of message records (document 01, section The program claimrun): a run of input bytes is worked record after record into
// an output buffer. Calendar, tables, book and balances are judged once for a run.
#![tactic(auto)]

ghost use Rattle.std.specs.Prelude.{◌≡◌, true, false, cond, ◌+◌, ◌*◌, ◌≤◌, length};
ghost use Rattle.lists.specs.First.{first_of};
ghost use Rattle.lists.specs.Put.{put};
ghost use Rattle.book.specs.Soundness.{book_causes};
ghost use Rattle.history.specs.Results.{Gives};
ghost use Rattle.records.specs.MessageRecords.{header};
ghost use Rattle.stream.specs.Stream.{next, claim_room, call_with, answer_bytes};
ghost use Rattle.stream.specs.Serving.{worked, working, serving, is_full, left_served, leaves_for, leaves};

use book::{Book, Done};
use judging::Market;
use records::{Answer, Refusal};
use stream::{Next, Served, Worked};

// The size of a record's claim buffer.
const CLAIM_ROOM: usize = 65536;

// The room in the output that a record asks for: its claim buffer and its answer.
pub const RECORD_ROOM: usize = 65542;

// Whether the input begins with this length and kind.
fn is_header(input: &[u8], following: u8, kind: u8) -> bool
    requires { 4 ≤ length input.now }
    ensures { result ≡ header following kind input.now }
{
    if input[0] != following {
        return false;
    }
    if input[1] != 0 {
        return false;
    }
    if input[2] != kind {
        return false;
    }
    input[3] == 0
}

// The beginning of a record: more input may make it whole.
fn cut(ended: bool) -> Next
    ensures { result ≡ cond ended Next.Wrong Next.Waiting }
{
    if ended { Next::Wrong } else { Next::Waiting }
}

// What the input begins with.
fn next_record(input: &[u8], ended: bool) -> Next
    ensures { result ≡ next ended input.now }
{
    if input.len() == 0 {
        return Next::Waiting;
    }
    if input.len() < 4 {
        return cut(ended);
    }
    if is_header(input, 139, 1) {
        if 141 <= input.len() {
            return Next::Record(141);
        }
        return cut(ended);
    }
    if is_header(input, 2, 2) {
        return Next::Record(4);
    }
    Next::Wrong
}

// The call that a record asks for, on a sound book.
fn call(
    market: &Market<'_>,
    book: Book,
    balances: &mut [u64],
    message: &[u8],
    claims: &mut [u8],
) -> Done
    requires { first_of (book_causes market.now.calendar market.now.tables book.day balances.old) ≡ 0 }
    ensures { Gives market.now.calendar market.now.tables book balances.old
        (call_with claims.old message.now) result claims.new balances.new }
{
    if reading::read_close(message) {
        closes::close_sound(market, book, balances, message, claims)
    } else {
        transfers::transfer_sound(market, book, balances, message, claims)
    }
}

// Writes an answer at a place of the output.
pub fn put_answer(output: &mut [u8], at: usize, number: u16)
    requires { at + 6 ≤ length output.old }
    ensures { output.new ≡ put output.old at (answer_bytes number) }
{
    let _ = writing::write_answer(&mut output[at..], Answer { number });
}

// Works a record on a sound book, in a claim buffer of 64 KiB: its claims and then its answer are written from the output's start.
fn work(
    market: &Market<'_>,
    book: Book,
    balances: &mut [u64],
    message: &[u8],
    output: &mut [u8],
    room: usize,
) -> Worked
    requires { (first_of (book_causes market.now.calendar market.now.tables book.day balances.old) ≡ 0) × (65542 ≤ length output.old)
        × (room ≡ claim_room) }
    ensures { worked result balances.new output.new
        ≡ working market.now.calendar market.now.tables book balances.old message.now output.old }
{
    let done = call(market, book, balances, message, &mut output[..room]);
    let after = done.book;
    let n = 35 * done.claims;
    put_answer(output, n, done.number);
    Worked {
        book: after,
        written: n + 6,
    }
}

// The answer of a run that judged calendar, tables, book and balances sound, in an output of some room.
fn sound_run(book: Book, consumed: usize, written: usize, over: bool, room: usize) -> Served
    requires { written ≤ room }
    ensures { result ≡ record { number = 0; book = book; consumed = consumed; written = written; over = over; full = is_full room written } }
{
    Served {
        number: 0,
        book,
        consumed,
        written,
        over,
        full: room - written < RECORD_ROOM,
    }
}

// Serves a run of input on a sound book: numbers 1 to 4 do not apply.
fn serve_sound(
    market: &Market<'_>,
    book: Book,
    balances: &mut [u64],
    input: &[u8],
    ended: bool,
    output: &mut [u8],
) -> Served
    requires { first_of (book_causes market.now.calendar market.now.tables book.day balances.old) ≡ 0 }
    ensures { left_served result balances.new output.new
        ≡ leaves_for 0 book balances.old output.old
        (serving market.now.calendar market.now.tables ended book balances.old input.now
        (length output.old)) }
{
    let mut b = book;
    let mut at: usize = 0;
    let mut out: usize = 0;
    while RECORD_ROOM <= output.len() - out {
        let size = match next_record(&input[at..], ended) {
            Next::Record(size) => size,
            Next::Waiting => return sound_run(b, at, out, false, output.len()),
            Next::Wrong => {
                put_answer(output, out, Refusal::Message.number());
                return sound_run(b, at, out + 6, true, output.len());
            }
        };
        let w = work(
            market,
            b,
            balances,
            &input[at..at + size],
            &mut output[out..],
            CLAIM_ROOM,
        );
        b = w.book;
        at += size;
        out += w.written;
    }
    sound_run(b, at, out, false, output.len())
}

// Serves a run of input: works its records into the output while there is room for another, and stops at one that is not whole yet, or
// after a 5. With ended, no more input follows. Calendar, tables, book or balances that are not sound get their number 1 to 4, and
// nothing is worked.
pub fn serve(
    calendar: &[u32],
    tables: &[u32],
    book: Book,
    balances: &mut [u64],
    input: &[u8],
    ended: bool,
    output: &mut [u8],
) -> Served
    ensures { left_served result balances.new output.new
        ≡ leaves calendar.now tables.now ended book balances.old input.now output.old }
{
    match judging::judge_book(calendar, tables, book.day, balances) {
        Ok(market) => serve_sound(&market, book, balances, input, ended, output),
        Err(refusal) => Served {
            number: refusal.number(),
            book,
            consumed: 0,
            written: 0,
            over: false,
            full: false,
        },
    }
}
