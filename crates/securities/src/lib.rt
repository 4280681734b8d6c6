// Securities and their payments (document 01, section Securities and payments), date limits (document 02, card 5) and minimum pieces (card
// 6). Limits and pieces are judged where they are taken; the rules of the tables wait for a good calendar.
#![tactic(auto)]

ghost use Rattle.std.specs.Prelude.{◌≡◌, ◌+◌, ◌≤◌, ◌<◌, ◌↔◌, true, eqb, length, List, ℕ, IfSome, IsSome};
ghost use Rattle.lists.specs.All.{all};
ghost use Rattle.days.specs.Days.{is_date, last_open};
ghost use Rattle.securities.specs.Lent.{from_one_to, good_limits, good_pieces, is_mbs, maximum_of, piece_of};
ghost use Rattle.securities.specs.Securities.{security_of, type_of, frequency_of, row_of, row_at, rows_from, good_row, good_rows, good_security, good_tables};

use days::{Calendar, Date};
use std::marker::Model;

// The words of the tables: 16 securities of 114 words, type, frequency and 16 rows of 7.
pub const TABLE_WORDS: usize = 1824;

const SECURITIES: usize = 16;

const SECURITY_WORDS: usize = 114;

const ROWS: usize = 16;

const ROW_WORDS: usize = 7;

// The largest factor, in billionths of a dollar for each dollar of par.
const LARGEST_FACTOR: u32 = 2_000_000_000;

// The mask with the bits of all 16 accounts on.
const LARGEST_MASK: u32 = 65535;

// The words of date limits, and the largest number.
const LIMIT_WORDS: usize = 5;

const LARGEST_LIMIT: u32 = 16;

// The words of pieces, and the largest piece.
const PIECE_WORDS: usize = 16;

const LARGEST_PIECE: u32 = 1_000_000;

// A row of a security, with its number there. Factors are billionths of a dollar for each dollar of par; redeems is 1 where the payment
// redeems the security; bit a of the mask is on if account a's payment went to a non-interest-bearing account.
#[derive(Clone, Copy, Debug, PartialEq, Eq)]
pub struct Row {
    pub index: u8,
    pub record_date: u32,
    pub beneficiary_date: u32,
    pub payment_date: u32,
    pub interest_factor: u32,
    pub principal_factor: u32,
    pub redeems: u32,
    pub mask: u32,
}

impl Row {
    // The row that seven words hold.
    #[tactic(auto, unfolding(crate::specs::Securities::row_of))]
    fn of(index: u8, words: &[u32]) -> Row
        requires { length words.now ≡ 7 }
        ensures { result ≡ row_of index words.now }
    {
        Row {
            index,
            record_date: words[0],
            beneficiary_date: words[1],
            payment_date: words[2],
            interest_factor: words[3],
            principal_factor: words[4],
            redeems: words[5],
            mask: words[6],
        }
    }
}

// Lent tables.
#[derive(Drop)]
pub struct Tables<'a> {
    words: &'a [u32],
}

impl<'a> Model for Tables<'a> {
    ghost Value = { List ℕ };

    ghost view = { λ t. t.words.now };

    ghost invariant = { λ t. length t.words.now ≡ 1824 };
}

impl<'a> Tables<'a> {
    // The tables of words, if they are 1,824.
    pub fn new(words: &'a [u32]) -> Option<Tables<'a>>
        ensures value { IfSome result (λ t. t ≡ words.now) }
        ensures variant { IsSome result ↔ (length words.now ≡ 1824) }
    {
        if words.len() == TABLE_WORDS {
            Some(Tables { words })
        } else {
            None
        }
    }

    // Whether the tables keep every rule: number 3 where they do not.
    pub fn is_good(&self, calendar: &Calendar<'_>) -> bool
        ensures { result ≡ good_tables calendar.now self.now }
    {
        let last = last_day(calendar);
        for s in (0..SECURITIES).rev() {
            let at = SECURITY_WORDS * s;
            if !good_security(last, &self.words[at..at + SECURITY_WORDS]) {
                return false;
            }
        }
        true
    }

    // The type of a security.
    pub fn security_type(&self, s: u8) -> u32
        requires { s < 16 }
        ensures { result ≡ type_of (security_of self.now s) }
    {
        self.words[SECURITY_WORDS * s as usize]
    }

    // Whether a security is MBS: types 3 and 4.
    pub fn is_mbs(&self, s: u8) -> bool
        requires { s < 16 }
        ensures { result ≡ is_mbs (type_of (security_of self.now s)) }
    {
        3 <= self.security_type(s)
    }

    // The frequency of a security.
    pub fn frequency(&self, s: u8) -> u32
        requires { s < 16 }
        ensures { result ≡ frequency_of (security_of self.now s) }
    {
        self.words[SECURITY_WORDS * s as usize + 1]
    }

    // The row with a number of a security.
    pub fn row(&self, s: u8, index: u8) -> Row
        requires { (s < 16) × (index < 16) }
        ensures { result ≡ row_at self.now s index }
    {
        let at = SECURITY_WORDS * s as usize + 2 + ROW_WORDS * index as usize;
        Row::of(index, &self.words[at..at + ROW_WORDS])
    }
}

// Date limits: maximum numbers of Beneficiary Dates for MBS, then monthly, quarterly, semiannual, annual.
#[derive(Drop)]
pub struct Limits<'a> {
    numbers: &'a [u32],
}

impl<'a> Model for Limits<'a> {
    ghost Value = { List ℕ };

    ghost view = { λ l. l.numbers.now };

    ghost invariant = { λ l. length l.numbers.now ≡ 5 };
}

impl<'a> Limits<'a> {
    // The date limits of numbers that have their length and keep every rule: number 12 where there are none.
    pub fn new(numbers: &'a [u32]) -> Option<Limits<'a>>
        ensures value { IfSome result (λ l. l ≡ numbers.now) }
        ensures variant { IsSome result ↔ (good_limits numbers.now ≡ true) }
    {
        if good_limits(numbers) {
            Some(Limits { numbers })
        } else {
            None
        }
    }

    // The date limits of five numbers, whatever they are.
    pub fn of(numbers: &'a [u32; 5]) -> Limits<'a>
        ensures { result ≡ numbers.now }
    {
        Limits { numbers }
    }

    // The maximum number of a security: MBS has one of its own, other types go by frequency.
    pub fn maximum(&self, tables: &Tables<'_>, s: u8) -> u32
        requires { (s < 16) × (frequency_of (security_of tables.now s) ≤ 4) }
        ensures { result ≡ maximum_of tables.now self.now s }
    {
        if tables.is_mbs(s) {
            self.numbers[0]
        } else {
            self.numbers[tables.frequency(s) as usize]
        }
    }
}

// Lent minimum pieces that have their length and range, a number for each security.
#[derive(Drop)]
pub struct Pieces<'a> {
    numbers: &'a [u32],
}

impl<'a> Model for Pieces<'a> {
    ghost Value = { List ℕ };

    ghost view = { λ p. p.numbers.now };

    ghost invariant = { λ p. good_pieces p.numbers.now ≡ true };
}

impl<'a> Pieces<'a> {
    // The pieces of numbers that have their length and range: number 13 where there are none.
    pub fn new(numbers: &'a [u32]) -> Option<Pieces<'a>>
        ensures value { IfSome result (λ p. p ≡ numbers.now) }
        ensures variant { IsSome result ↔ (good_pieces numbers.now ≡ true) }
    {
        if good_pieces(numbers) {
            Some(Pieces { numbers })
        } else {
            None
        }
    }

    // The pieces of good numbers.
    pub fn of(numbers: &'a [u32]) -> Pieces<'a>
        requires { good_pieces numbers.now ≡ true }
        ensures { result ≡ numbers.now }
    {
        Pieces { numbers }
    }

    // The piece of a security.
    pub fn piece(&self, s: u8) -> u32
        requires { s < 16 }
        ensures value { result ≡ piece_of self.now s }
        ensures positive { 0 < result }
    {
        self.numbers[s as usize]
    }
}

// The number of the last open day, 0 where no day is open.
fn last_day(calendar: &Calendar<'_>) -> u32
    ensures { result ≡ last_open calendar.now }
{
    match calendar.last_open() {
        Some(d) => d.0,
        None => 0,
    }
}

// Whether a number is a date.
fn is_date(n: u32) -> bool
    ensures { result ≡ is_date n }
{
    Date::new(n).is_some()
}

// Whether every word is zero.
fn all_zero(words: &[u32]) -> bool
    ensures { result ≡ all (λ w. eqb w 0) words.now }
{
    words.iter().all(|w| *w == 0)
}

// Whether a filled row keeps the rules that it has by itself.
fn good_row(last: u32, row: Row) -> bool
    ensures { result ≡ good_row last row }
{
    if !is_date(row.record_date) {
        return false;
    }
    if !is_date(row.beneficiary_date) {
        return false;
    }
    if !is_date(row.payment_date) {
        return false;
    }
    if LARGEST_FACTOR < row.interest_factor {
        return false;
    }
    if LARGEST_FACTOR < row.principal_factor {
        return false;
    }
    if 1 < row.redeems {
        return false;
    }
    if LARGEST_MASK < row.mask {
        return false;
    }
    if row.payment_date < row.record_date {
        return false;
    }
    if row.payment_date < row.beneficiary_date {
        return false;
    }
    row.payment_date <= last
}

// Whether the 16 rows of a security keep their rules.
fn good_rows(last: u32, rows: &[u32]) -> bool
    requires { length rows.now ≡ 112 }
    ensures { result ≡ good_rows last 0 0 (rows_from 16 0 rows.now) }
{
    let mut record_date: u32 = 0;
    let mut beneficiary_date: u32 = 0;
    for i in 0..ROWS {
        let at = ROW_WORDS * i;
        let end = at + ROW_WORDS;
        let words = &rows[at..end];
        if all_zero(words) {
            return all_zero(&rows[end..]);
        }
        let row = Row::of(i as u8, words);
        if !good_row(last, row) {
            return false;
        }
        if row.record_date <= record_date {
            return false;
        }
        if row.beneficiary_date <= beneficiary_date {
            return false;
        }
        record_date = row.record_date;
        beneficiary_date = row.beneficiary_date;
    }
    true
}

// Whether the words of a security keep its rules.
fn good_security(last: u32, words: &[u32]) -> bool
    requires { length words.now ≡ 114 }
    ensures { result ≡ good_security last words.now }
{
    let security_type = words[0];
    if security_type == 0 {
        return all_zero(words);
    }
    if 4 < security_type {
        return false;
    }
    let frequency = words[1];
    if frequency < 1 {
        return false;
    }
    if 4 < frequency {
        return false;
    }
    good_rows(last, &words[2..])
}

// Whether a number is 1 to the largest.
fn from_one_to(largest: u32, n: u32) -> bool
    ensures { result ≡ from_one_to largest n }
{
    if n < 1 {
        return false;
    }
    n <= largest
}

// Whether every number is 1 to the largest.
fn all_from_one_to(largest: u32, numbers: &[u32]) -> bool
    ensures { result ≡ all (from_one_to largest) numbers.now }
{
    numbers.iter().all(|n| from_one_to(largest, *n))
}

// Whether date limits have their length and keep every rule.
fn good_limits(limits: &[u32]) -> bool
    ensures { result ≡ good_limits limits.now }
{
    if limits.len() != LIMIT_WORDS {
        return false;
    }
    if !all_from_one_to(LARGEST_LIMIT, limits) {
        return false;
    }
    if limits[1] < limits[2] {
        return false;
    }
    if limits[2] < limits[3] {
        return false;
    }
    limits[4] <= limits[3]
}

// Whether pieces have their length and range.
fn good_pieces(pieces: &[u32]) -> bool
    ensures { result ≡ good_pieces pieces.now }
{
    if pieces.len() != PIECE_WORDS {
        return false;
    }
    all_from_one_to(LARGEST_PIECE, pieces)
}
