// Files of steps: the calls of a run, with the tables, the saved books and the words of a store that they start from.
// A file is its number of steps in four bytes, then the steps. A step is its kind in a byte, the length of its name in a byte, the
// name, the length of its message in four bytes, the message, and the length of its claim buffer in four bytes. Kinds: 0 opens a book
// (message: the day), 1 is a transfer with ones as pieces, 2 a close, 3 a transfer that is lent lists (behind the length of its claim buffer
// the number of limits and each of them, in four bytes, or 4294967295 and none in the form without them; then the pieces), 4 carries a saved
// book over (message: day, count, how many words of the calendar and how many balances it is lent, how many balances are saved, how many of
// these are not zero, and their places and pars as in kind 129), 5 sets a mark and 6 returns to one (message: the mark, and how many words of
// the calendar, balances and words of the store it is lent), 128 sets calendar and tables (message: their words), 129 sets the book
// (message: day, count, how many balances are not zero, and for each of these its place in four bytes and its par in eight), 130 writes words
// of the store (message: how many, and for each of these its place in four bytes and its value in eight).
ghost use Rattle.std.specs.Prelude.{◌<◌, ◌^◌};

use crate::entries::{Balances, book_at};
use crate::{Call, MarkCall, byte_at, fill, pairs_at, part, read_file, word_at, words_at};
use book::{Book, Done};
use std::rt::Files;

// What a step does.
#[derive(Clone, Copy)]
enum Task {
    Call(Call),
    CarryOver,
    Mark(MarkCall),
    SetTables,
    SetBook,
    SetStore,
}

// A step: what it does, its name, its message, and the length of its claim buffer.
#[derive(Clone, Copy)]
struct Step<'a> {
    task: Task,
    name: &'a [u8],
    message: &'a [u8],
    room: usize,
}

impl Task {
    // The task with a number, and the place behind the lists of a call, which stand at a place.
    fn at(number: u8, s: &[u8], at: usize) -> (Task, usize) {
        match number {
            4 => (Task::CarryOver, at),
            5 => (Task::Mark(MarkCall::Set), at),
            6 => (Task::Mark(MarkCall::Return), at),
            128 => (Task::SetTables, at),
            130 => (Task::SetStore, at),
            129..=255 => (Task::SetBook, at),
            _ => {
                let (call, next) = Call::at(number, s, at);
                (Task::Call(call), next)
            }
        }
    }
}

impl Step<'_> {
    // The step at a place, and the place behind it.
    fn at(s: &[u8], at: usize) -> (Step<'_>, usize) {
        let name = at.saturating_add(2);
        let name_length = byte_at(s, at.saturating_add(1)) as usize;
        let length = name.saturating_add(name_length);
        let message = length.saturating_add(4);
        let message_length = word_at(s, length) as usize;
        let room = message.saturating_add(message_length);
        let (task, next) = Task::at(byte_at(s, at), s, room.saturating_add(4));
        let step = Step {
            task,
            name: part(s, name, name_length),
            message: part(s, message, message_length),
            room: word_at(s, room) as usize,
        };
        (step, next)
    }
}

// What a program writes of the calls of its file.
pub trait Lines {
    // Whether a step of kind 130 writes words of the store; else it sets the book, as all kinds from 129 on do.
    const SETS_STORE: bool;

    // Writes a call without a mark: its name, what it answers, its claim buffer and the balances that it leaves.
    fn call(&self, rt: &impl Print, name: &[u8], done: Done, claims: &[u8], balances: &[u64]);

    // Writes a call that sets a mark or returns to one: its name, what it answers, and the balances and the store that it leaves.
    fn mark(&self, rt: &impl Print, name: &[u8], done: Done, balances: &[u64], store: &[u64]);
}

// What the steps of a run work on: each on what the last one left. The store has one word behind its marks.
#[derive(Drop)]
struct World {
    calendar: [u32; 480],
    tables: [u32; 1824],
    book: Book,
    balances: [u64; 8192],
    store: [u64; 32781],
}

// Changes each word by a stamp, its place and one more. Done twice, it leaves them as they were.
fn stamp(words: &mut [u64]) {
    for (i, word) in words.iter_mut().enumerate() {
        *word ^= i as u64 + 1;
    }
}

// Carries the book of a message over, lent the parts of the buffers that it names.
fn carry_parts(message: &[u8], calendar: &[u32], saved: &mut [u64], balances: &mut [u64]) -> Done {
    let c = calendar.len().min(word_at(message, 8) as usize);
    let b = balances.len().min(word_at(message, 12) as usize);
    let saved = Balances(16).read(message, saved);
    carry_over::carry_over(
        &calendar[..c],
        book_at(message, 0),
        saved,
        &mut balances[..b],
    )
}

// Carries the book of a message over to balances that hold stamps; refused, they are what differs from the stamps: the words that are not
// zero then are those that it changed.
fn carry(message: &[u8], calendar: &[u32], balances: &mut [u64]) -> Done {
    let mut saved = [0u64; 8192];
    balances.fill(0);
    stamp(balances);
    let done = carry_parts(message, calendar, &mut saved, balances);
    if done.number != 0 {
        stamp(balances);
    }
    done
}

// Sets the mark of a message or returns to it, lent the parts of the buffers that it names.
fn make_mark(
    call: MarkCall,
    message: &[u8],
    calendar: &[u32],
    book: Book,
    balances: &mut [u64],
    store: &mut [u64],
) -> Done {
    let c = calendar.len().min(word_at(message, 4) as usize);
    let b = balances.len().min(word_at(message, 8) as usize);
    let n = store.len().min(word_at(message, 12) as usize);
    call.make(
        &calendar[..c],
        book,
        &mut balances[..b],
        &mut store[..n],
        word_at(message, 0),
    )
}

// The book that a call is given: an opening's day stands in its message.
fn given(call: Call, message: &[u8], book: Book) -> Book {
    match call {
        Call::Open => Book {
            day: word_at(message, 0),
            count: 0,
        },
        _ => book,
    }
}

// The book after a call: a refused opening leaves the one that was there.
fn book_after(call: Call, book: Book, done: Done) -> Book {
    match call {
        Call::Open if done.number != 0 => book,
        _ => done.book,
    }
}

impl World {
    // Tables, balances and a store of zeros.
    fn zeros() -> World {
        World {
            calendar: [0; 480],
            tables: [0; 1824],
            book: Book { day: 0, count: 0 },
            balances: [0; 8192],
            store: [0; 32781],
        }
    }

    // Makes a call that is lent tables and a claim buffer.
    fn make(&mut self, s: &[u8], call: Call, message: &[u8], claims: &mut [u8]) -> Done {
        let done = call.make(
            s,
            &self.calendar,
            &self.tables,
            given(call, message, self.book),
            &mut self.balances,
            message,
            claims,
        );
        self.book = book_after(call, self.book, done);
        done
    }

    // Takes a step. Before a call that is no call on marks, the claim buffer holds the remainders of its places by 251.
    fn take<L: Lines>(
        &mut self,
        rt: &impl Print,
        lines: &L,
        s: &[u8],
        step: Step,
        claims: &mut [u8],
    ) {
        let Step {
            task,
            name,
            message,
            room,
        } = step;
        let n = claims.len().min(room);
        let claims = &mut claims[..n];
        match task {
            Task::Call(call) => {
                fill(claims);
                let done = self.make(s, call, message, claims);
                lines.call(rt, name, done, claims, &self.balances);
            }
            Task::CarryOver => {
                fill(claims);
                let done = carry(message, &self.calendar, &mut self.balances);
                self.book = done.book;
                lines.call(rt, name, done, claims, &self.balances);
            }
            Task::Mark(call) => {
                let done = make_mark(
                    call,
                    message,
                    &self.calendar,
                    self.book,
                    &mut self.balances,
                    &mut self.store,
                );
                self.book = done.book;
                lines.mark(rt, name, done, &self.balances, &self.store);
            }
            Task::SetTables => {
                words_at(message, 0, &mut self.calendar);
                words_at(message, 1920, &mut self.tables);
            }
            Task::SetStore if L::SETS_STORE => pairs_at(
                message,
                4,
                word_at(message, 0),
                &mut self.store,
            ),
            Task::SetStore | Task::SetBook => {
                self.book = book_at(message, 0);
                self.balances.fill(0);
                pairs_at(message, 12, word_at(message, 8), &mut self.balances);
            }
        }
    }
}

// Takes the steps of a file one after another, with a claim buffer.
fn take_all(rt: &impl Print, lines: &impl Lines, s: &[u8], claims: &mut [u8]) {
    let mut world = World::zeros();
    let mut at: usize = 4;
    for _ in 0..word_at(s, 0) {
        let (step, next) = Step::at(s, at);
        world.take(rt, lines, s, step, claims);
        at = next;
    }
}

// Reads a file of up to FILE bytes and takes its steps, with a claim buffer of CLAIMS bytes.
pub fn run<const FILE: usize, const CLAIMS: usize>(
    rt: &(impl Files + Print + Eprint + Alloc),
    lines: &impl Lines,
    path: &str,
)
    requires file { FILE < 2 ^ 63 }
    requires claims { CLAIMS < 2 ^ 63 }
{
    let mut file = [0u8; FILE];
    let mut claims = [0u8; CLAIMS];
    take_all(
        rt,
        lines,
        read_file(rt, path.as_bytes(), &mut file),
        &mut claims,
    );
}
