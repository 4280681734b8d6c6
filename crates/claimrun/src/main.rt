// The program claimrun (document 01): reads book.dat in the working directory, opens the book, and serves the records of standard input to
// standard output. Between a read and a write everything is done by steps::begin and steps::step, whose contracts say what is written; here
// is the loop around them: write, read, step.
#![tactic(auto)]

ghost use Rattle.std.specs.Prelude.{◌≡◌, false, ◌≤◌, length, IfOk, IfSome};
ghost use Rattle.std.specs.Result.{result_ok};
ghost use Rattle.std.specs.Io.{ReadsAtMost, WritesAtMost};
ghost use Rattle.program.specs.Steps.{begins, holding};
ghost use Rattle.program.specs.Statement.{Ran, RanBook};

use program::Held;
use std::env::{Env, FillError};
use std::io::{ErrorKind, Read};
use std::rt::Files;
use std::time::Clock;
use std::{fs, io};

const BOOK_FILE: &str = "book.dat";

const VERSION: [u8; 15] = *b"claimrun 2.3.0\n";

const ARGUMENTS: &str = "claimrun: takes no arguments other than --help or --version\n";

const HELP: [u8; 333] = *b"\
claimrun reads book.dat (calendar, tables, opening day: 9,220 bytes) in the folder\n\
where it is started, then message records from standard input. For each record it\n\
writes its claims and its answer to standard output. A book.dat that is missing or\n\
wrong gets one answer; an answer 5 ends the run. --version shows the version number.\n";

// Whether a call that failed is to be tried again: at once after a signal, and after a pause where the descriptor is not ready.
fn is_passing(rt: &impl Clock, error: &io::Error) -> bool {
    match error.kind() {
        ErrorKind::Interrupted => true,
        ErrorKind::WouldBlock => {
            pauses::pause(rt);
            true
        }
        _ => false,
    }
}

// One read; one that fails in passing is tried again. The tries are counted, to a number that no run uses up.
fn read_some(rt: &impl Clock, from: &mut impl Read, buf: &mut [u8]) -> io::Result<usize>
    ensures { ReadsAtMost result buf.new }
{
    for _ in 0..u64::MAX {
        match from.read(buf) {
            Err(error) if is_passing(rt, &error) => {}
            outcome => return outcome,
        }
    }
    Err(io::Error::from(ErrorKind::WouldBlock))
}

// One write, likewise. It is a loop of its own, since a caller would not know how many bytes a closure has read into a buffer.
fn write_some(rt: &(impl Print + Clock), buf: &[u8]) -> io::Result<usize>
    ensures { WritesAtMost result buf.now }
{
    for _ in 0..u64::MAX {
        match rt.write_some(buf) {
            Err(error) if is_passing(rt, &error) => {}
            outcome => return outcome,
        }
    }
    Err(io::Error::from(ErrorKind::WouldBlock))
}

// What a read or a write gives; one that failed for good is said on standard error.
fn told<T>(rt: &(impl Eprint + Alloc), what: &str, outcome: io::Result<T>) -> Option<T>
    ensures { result ≡ result_ok outcome }
{
    match outcome {
        Ok(given) => Some(given),
        Err(error) => {
            failures::tell(rt, what, error);
            None
        }
    }
}

// Writes all bytes to standard output.
fn write_all(rt: &(impl Print + Clock), buf: &[u8]) -> io::Result<()> {
    let mut rest = buf;
    while !rest.is_empty() {
        match write_some(rt, rest)? {
            0 => return Err(io::Error::from(ErrorKind::WriteZero)),
            n => rest = &rest[n..],
        }
    }
    Ok(())
}

// Writes all bytes to standard output, or says on standard error that it cannot.
fn write_out(rt: &(impl Print + Eprint + Clock + Alloc), buf: &[u8]) -> Option<()> {
    told(rt, "claimrun: standard output", write_all(rt, buf))
}

// How many bytes standard input gives where they are asked for, none at its end and where none are asked for. A read that fails for good is
// said on standard error.
fn read_in(
    rt: &(impl Eprint + Clock + Alloc),
    from: &mut impl Read,
    asks: bool,
    buf: &mut [u8],
) -> Option<usize>
    ensures { IfSome result (λ n. (n ≤ length buf.new) × (asks ≡ false → n ≡ 0)) }
{
    if !asks {
        return Some(0);
    }
    told(rt, "claimrun: standard input", read_some(rt, from, buf))
}

// Fills the buffer from a file, and answers how many bytes the file gave.
fn fill(rt: &impl Clock, file: &mut impl Read, buf: &mut [u8]) -> io::Result<usize>
    ensures { ReadsAtMost result buf.new }
{
    let mut at: usize = 0;
    while at < buf.len() {
        match read_some(rt, file, &mut buf[at..])? {
            0 => break,
            n => at += n,
        }
    }
    Ok(at)
}

// The bytes of book.dat, as far as a buffer holds them.
fn read_book<'a>(rt: &(impl Files + Clock), buf: &'a mut [u8]) -> io::Result<&'a [u8]>
    ensures { IfOk result (λ s. length s.now ≤ length buf.old) }
{
    let mut file = fs::open(rt, BOOK_FILE)?;
    let n = fill(rt, &mut file, buf)?;
    Ok(&buf[..n])
}

// Writes what is to be written, reads where input is asked for, and takes a step, until the run is over; answers what it holds then, which is
// what the steps left. The turns are counted, to a number that no run uses up.
fn run(
    rt: &(impl Print + Eprint + Clock + Alloc),
    from: &mut impl Read,
    calendar: &[u32],
    tables: &[u32],
    begun: Held,
    balances: &mut [u64],
    input: &mut [u8],
    output: &mut [u8],
) -> Held
    requires { (begun.left ≤ length input.old) × (begun.written ≤ length output.old) }
    ensures { Ran calendar.now tables.now
        (holding begun balances.old input.old output.old) result balances.new input.new }
{
    let mut held = begun;
    for _ in 0..u64::MAX {
        let written = held.written;
        if write_out(rt, &output[..written]).is_none() || held.over {
            return held;
        }
        let left = held.left;
        let Some(n) = read_in(rt, from, held.asks, &mut input[left..]) else {
            return held;
        };
        held = steps::step(calendar, tables, held, balances, input, n, output);
    }
    held
}

// Judges the bytes of book.dat and runs on standard input; answers what is held at the end.
fn serve_book(
    rt: &(impl Print + Eprint + Clock + Alloc),
    from: &mut impl Read,
    file: &[u8],
    calendar: &mut [u32; 480],
    tables: &mut [u32; 1824],
    balances: &mut [u64],
    input: &mut [u8],
    output: &mut [u8],
) -> Held
    requires { 6 ≤ length output.old }
    ensures { RanBook (begins file.now calendar.old tables.old balances.old output.old)
        input.old result balances.new input.new }
{
    let held = steps::begin(file, calendar, tables, balances, output);
    run(rt, from, calendar, tables, held, balances, input, output)
}

// Whether there is an argument with a number.
fn has_argument(rt: &impl Env, i: usize) -> bool {
    let mut word = [0u8; 1];
    !matches!(rt.arg(i, &mut word), Err(FillError::NotPresent))
}

// The first argument, in a buffer; nothing where it is longer.
fn first_argument<'a>(rt: &impl Env, word: &'a mut [u8]) -> &'a [u8]
    ensures { length result.now ≤ length word.old }
{
    match rt.arg(1, word) {
        Ok(n) => &word[..n],
        Err(_) => b"",
    }
}

// Answers --help and --version; any other arguments get a line on standard error.
fn answer_arguments(rt: &(impl Env + Print + Eprint + Clock + Alloc)) {
    let mut word = [0u8; 16];
    match first_argument(rt, &mut word) {
        b"--help" if !has_argument(rt, 2) => {
            write_out(rt, &HELP);
        }
        b"--version" if !has_argument(rt, 2) => {
            write_out(rt, &VERSION);
        }
        _ => {
            let _ = rt.eprint(ARGUMENTS);
        }
    }
}

fn main(rt: HostRuntime) {
    if has_argument(&rt, 1) {
        answer_arguments(&rt);
        return;
    }
    let mut file = [0u8; 9221];
    let mut calendar = [0u32; 480];
    let mut tables = [0u32; 1824];
    let mut balances = [0u64; 8192];
    let mut input = [0u8; 65536];
    let mut output = [0u8; 262144];
    let mut from = rt.stdin();
    // A book.dat that cannot be read is judged as an empty one.
    let book = read_book(&rt, &mut file).unwrap_or(b"");
    serve_book(
        &rt,
        &mut from,
        book,
        &mut calendar,
        &mut tables,
        &mut balances,
        &mut input,
        &mut output,
    );
}
