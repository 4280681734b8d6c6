// What the programs that try the calls share: files read whole, numbers and words taken from bytes, checksums, calls by their numbers.
// Bytes behind the end of a file count as 0, so every place may be asked for.
#![tactic(auto)]

ghost use Rattle.std.specs.Prelude.{◌<◌, ◌≤◌, length};
ghost use Rattle.std.specs.Counts.{IsPrefixLen};

use book::{Book, Done};
use std::fs;
use std::io::{self, ErrorKind, Read};
use std::rt::Files;

pub mod entries;
pub mod steps;

// The length that stands for a list that is not lent.
const NOT_LENT: u32 = 4294967295;

// The modulus of the checksums, a prime.
const MODULUS: u64 = 4294967291;

// Numbers of four bytes in a file: where they stand, and how many there are.
#[derive(Clone, Copy)]
pub struct Numbers {
    pub at: usize,
    pub count: u32,
}

impl Numbers {
    // The numbers behind their count.
    fn at(s: &[u8], at: usize) -> Numbers {
        Numbers {
            at: at.saturating_add(4),
            count: word_at(s, at),
        }
    }

    // The place behind the numbers.
    fn next(self) -> usize {
        self.at.saturating_add(4 * (self.count as usize))
    }

    // The numbers, in a buffer, as far as they fit it.
    pub fn read<'a>(self, s: &[u8], buffer: &'a mut [u32]) -> &'a [u32] {
        let n = buffer.len().min(self.count as usize);
        words_at(s, self.at, &mut buffer[..n]);
        &buffer[..n]
    }
}

// The lists of a transfer that is lent them: limits, but for the form without them, and pieces.
#[derive(Clone, Copy)]
pub struct Lists {
    pub limits: Option<Numbers>,
    pub pieces: Numbers,
}

// The list at a place, but for one that is not lent, and the place behind it.
fn list_at(s: &[u8], at: usize) -> (Option<Numbers>, usize) {
    let numbers = Numbers::at(s, at);
    if numbers.count == NOT_LENT {
        return (None, numbers.at);
    }
    (Some(numbers), numbers.next())
}

impl Lists {
    // The limits and the pieces at a place, and the place behind them. Pieces that are not lent are none.
    fn at(s: &[u8], at: usize) -> (Lists, usize) {
        let (limits, pieces) = list_at(s, at);
        let (pieces, next) = list_at(s, pieces);
        let pieces = pieces.unwrap_or(Numbers { at: next, count: 0 });
        (Lists { limits, pieces }, next)
    }
}

// A call that is lent tables.
#[derive(Clone, Copy)]
pub enum Call {
    Open,
    Transfer,
    LentTransfer(Lists),
    Close,
}

// A call that sets a mark of a store or returns to it.
#[derive(Clone, Copy)]
pub enum MarkCall {
    Set,
    Return,
}

// The n bytes from a place on, fewer where the end comes first.
pub fn part(s: &[u8], at: usize, n: usize) -> &[u8]
    ensures { length result.now ≤ n }
{
    let rest = s.get(at..).unwrap_or(b"");
    rest.get(..n).unwrap_or(rest)
}

// The byte at a place.
fn byte_at(s: &[u8], at: usize) -> u8 {
    s.get(at).copied().unwrap_or(0)
}

// The N bytes at a place.
fn array_at<const N: usize>(s: &[u8], at: usize) -> [u8; N] {
    let mut bytes = [0u8; N];
    bytes_at(s, at, &mut bytes);
    bytes
}

// The number of two bytes at a place.
pub fn half_at(s: &[u8], at: usize) -> u16 {
    u16::from_le_bytes(array_at(s, at))
}

// The number of four bytes at a place.
fn word_at(s: &[u8], at: usize) -> u32 {
    u32::from_le_bytes(array_at(s, at))
}

// The number of eight bytes at a place.
pub fn double_at(s: &[u8], at: usize) -> u64 {
    u64::from_le_bytes(array_at(s, at))
}

// Fills words with the numbers of four bytes each from a place on.
fn words_at(s: &[u8], at: usize, words: &mut [u32]) {
    for (i, word) in words.iter_mut().enumerate() {
        *word = word_at(s, at.saturating_add(i.saturating_mul(4)));
    }
}

// Fills bytes with those from a place on.
fn bytes_at(s: &[u8], at: usize, bytes: &mut [u8]) {
    let given = part(s, at, bytes.len());
    let n = given.len();
    bytes[..n].copy_from_slice(given);
    bytes[n..].fill(0);
}

// Sets the words that n pairs of a place of four bytes and a value of eight bytes name, where they are there.
fn pairs_at(s: &[u8], at: usize, n: u32, words: &mut [u64]) {
    for i in 0..n {
        let from = at.saturating_add(12 * (i as usize));
        if let Some(word) = words.get_mut(word_at(s, from) as usize) {
            *word = double_at(s, from.saturating_add(4));
        }
    }
}

// The checksum with one more number.
fn mixed(sum: u64, n: u64) -> u64
    requires { sum < 4294967291 }
    ensures { result < 4294967291 }
{
    (sum * 257 + n % MODULUS + 1) % MODULUS
}

// The checksum of bytes or of balances.
pub fn checksum<T: Copy + Into<u64>>(numbers: &[T]) -> u64 {
    let mut sum: u64 = 0;
    for n in numbers {
        sum = mixed(sum, (*n).into());
    }
    sum
}

// Fills a buffer with the remainders of the places by 251.
fn fill(s: &mut [u8]) {
    for (i, byte) in s.iter_mut().enumerate() {
        *byte = (i % 251) as u8;
    }
}

impl Call {
    // The call with a number, and the place behind its lists, which stand at a place. Any number that is no other call's is a close's.
    fn at(number: u8, s: &[u8], at: usize) -> (Call, usize) {
        match number {
            0 => (Call::Open, at),
            1 => (Call::Transfer, at),
            3 => {
                let (lists, next) = Lists::at(s, at);
                (Call::LentTransfer(lists), next)
            }
            _ => (Call::Close, at),
        }
    }

    // Makes the call; an opening is on the day of the book given, and a transfer that is not lent lists has ones as pieces.
    pub fn make(
        self,
        s: &[u8],
        calendar: &[u32],
        tables: &[u32],
        book: Book,
        balances: &mut [u64],
        message: &[u8],
        claims: &mut [u8],
    ) -> Done {
        match self {
            Call::Open => opens::open(calendar, tables, balances, book.day),
            Call::Transfer => {
                let ones = [1u32; 16];
                transfers::transfer(calendar, tables, &ones, book, balances, message, claims)
            }
            Call::LentTransfer(lists) => {
                lent_transfer(s, lists, calendar, tables, book, balances, message, claims)
            }
            Call::Close => closes::close(calendar, tables, book, balances, message, claims),
        }
    }
}

// Makes a transfer that is lent limits and pieces of the file, up to 32 of each.
fn lent_transfer(
    s: &[u8],
    lists: Lists,
    calendar: &[u32],
    tables: &[u32],
    book: Book,
    balances: &mut [u64],
    message: &[u8],
    claims: &mut [u8],
) -> Done {
    let mut pieces = [0u32; 32];
    let pieces = lists.pieces.read(s, &mut pieces);
    match lists.limits {
        Some(limits) => {
            let mut room = [0u32; 32];
            let limits = limits.read(s, &mut room);
            transfers::transfer_with_limits(
                calendar, tables, limits, pieces, book, balances, message, claims,
            )
        }
        None => transfers::transfer(calendar, tables, pieces, book, balances, message, claims),
    }
}

impl MarkCall {
    // Sets a mark of a store, with the book as it was given, or returns to it.
    pub fn make(
        self,
        calendar: &[u32],
        book: Book,
        balances: &mut [u64],
        store: &mut [u64],
        mark: u32,
    ) -> Done {
        match self {
            MarkCall::Set => match marks::set_mark(calendar, book, balances, store, mark) {
                Ok(()) => Done {
                    number: 0,
                    book,
                    claims: 0,
                },
                Err(refusal) => Done::refused(refusal, book),
            },
            MarkCall::Return => marks::return_to_mark(calendar, book, balances, store, mark),
        }
    }
}

// Reads until a buffer is full, the file ends or a read fails, and answers how many bytes stand at the buffer's start.
fn read_full(file: &mut impl Read, buffer: &mut [u8]) -> usize
    ensures { IsPrefixLen result buffer.new }
{
    let mut done: usize = 0;
    while done < buffer.len() {
        match file.read(&mut buffer[done..]) {
            Ok(0) | Err(_) => return done,
            Ok(n) => done += n,
        }
    }
    done
}

// Opens a file. The system's paths are text here, so no other path leads to one.
fn open<R: Files>(rt: &R, path: &[u8]) -> io::Result<R::File> {
    match str::from_utf8(path) {
        Ok(path) => fs::open(rt, path),
        Err(_) => Err(io::Error::from(ErrorKind::InvalidFilename)),
    }
}

// The bytes of a file, read to the start of a buffer, as far as it holds them; none where the file cannot be opened.
pub fn read_file<'a>(
    rt: &(impl Files + Eprint + Alloc),
    path: &[u8],
    buffer: &'a mut [u8],
) -> &'a [u8]
    ensures { length result.now ≤ length buffer.old }
{
    match open(rt, path) {
        Ok(mut file) => {
            let n = read_full(&mut file, buffer);
            &buffer[..n]
        }
        Err(error) => {
            failures::tell(rt, str::from_utf8(path).unwrap_or("a path"), error);
            b""
        }
    }
}
