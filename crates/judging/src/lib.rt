// Judges calendar, tables, a book's day and its balances (document 01, section The book), with the numbers 1 to 4 of what can be refused,
// and date limits and minimum pieces (document 02, cards 5 and 6), with numbers 12 and 13; so a saved book that is carried over (card 8), or
// one that is marked or left for a mark (card 9).
// Calendar, tables, balances, limits and pieces are taken in any length where a function judges their length; what it finds good it hands on
// as the type that says so.
#![tactic(auto)]

ghost use Rattle.std.specs.Prelude.{◌≡◌, length, IfOk};
ghost use Rattle.lists.specs.First.{first_of};
ghost use Rattle.lists.specs.Sums.{sum};
ghost use Rattle.records.specs.Refusals.{judged_number};
ghost use Rattle.book.specs.Book.{position};
ghost use Rattle.book.specs.Soundness.{bad_day, good_balance, bad_balances, table_causes, state_causes, book_causes, lent_book_causes, opening_causes};
ghost use Rattle.book.specs.Soundness.{carry_causes, present_causes};
ghost use Rattle.judging.specs.Quick.{excess_of, own_pars};

use days::Calendar;
use records::Refusal;
use securities::{Limits, Pieces, Tables};

// The words of the balances.
const BALANCE_WORDS: usize = 8192;

// Calendar and tables of a call, handed on once both keep their rules.
#[derive(Drop)]
pub struct Market<'a> {
    pub calendar: Calendar<'a>,
    pub tables: Tables<'a>,
}

// What a transfer is lent besides the book.
#[derive(Drop)]
pub struct Lent<'a> {
    pub market: Market<'a>,
    pub limits: Limits<'a>,
    pub pieces: Pieces<'a>,
}

// Numbers 1 to 3 of calendar, tables and balances.
fn judge_tables<'a>(
    calendar: &'a [u32],
    tables: &'a [u32],
    balances: &[u64],
) -> Result<Market<'a>, Refusal>
    ensures value { IfOk result (λ m. (m.calendar ≡ calendar.now) × (m.tables ≡ tables.now)) }
    ensures number { judged_number result ≡ first_of (table_causes calendar.now tables.now balances.now) }
{
    let Some(calendar) = Calendar::new(calendar) else {
        return Err(Refusal::Length);
    };
    let Some(tables) = Tables::new(tables) else {
        return Err(Refusal::Length);
    };
    if balances.len() != BALANCE_WORDS {
        return Err(Refusal::Length);
    }
    if calendar.is_bad() {
        return Err(Refusal::Calendar);
    }
    if !tables.is_good(&calendar) {
        return Err(Refusal::Tables);
    }
    Ok(Market { calendar, tables })
}

// Whether a day is not open or has no open day after it.
fn bad_day(calendar: &Calendar<'_>, day: u32) -> bool
    ensures { result ≡ bad_day calendar.now day }
{
    !calendar.is_open(day) || calendar.open_after(day).is_none()
}

// Whether word w may hold a par.
fn good_balance(w: usize, par: u64) -> bool
    ensures { result ≡ good_balance (position w) par }
{
    par == 0 || (par <= book::LARGEST_BALANCE && w / 16 % 16 != w % 16)
}

// Whether a balance is too large, or nonzero where an account would lend itself: the words one by one.
fn judge_balances(balances: &[u64]) -> bool
    ensures { result ≡ bad_balances balances.now }
{
    for (w, par) in balances.iter().enumerate() {
        if !good_balance(w, *par) {
            return true;
        }
    }
    false
}

// What balances have above the largest, added up.
fn excesses(balances: &[u64]) -> u64
    requires { length balances.now ≡ 8192 }
    ensures { result ≡ sum excess_of balances.now }
{
    let mut total: u64 = 0;
    for par in balances {
        total += par / 17179869184 + (par % 17179869184 + 8179869183) / 17179869184;
    }
    total
}

// What the accounts have lent themselves, added up; no balance is too large.
fn own_pars(balances: &[u64]) -> u64
    requires { (length balances.now ≡ 8192) × (sum excess_of balances.now ≡ 0) }
    ensures { result ≡ own_pars balances.now 512 }
{
    let mut total: u64 = 0;
    for n in 0..512 {
        total += balances[256 * (n / 16) + 17 * (n % 16)];
    }
    total
}

// Whether a balance is too large, or nonzero where an account would lend itself. The balances of a book have a quick test first; only where
// it finds something are the words judged one by one.
fn bad_balances(balances: &[u64]) -> bool
    ensures { result ≡ bad_balances balances.now }
{
    if balances.len() == BALANCE_WORDS && excesses(balances) == 0 && own_pars(balances) == 0 {
        return false;
    }
    judge_balances(balances)
}

// Number 4 of a book's day and its balances.
pub fn judge_state(calendar: &Calendar<'_>, day: u32, balances: &[u64]) -> Result<(), Refusal>
    ensures { judged_number result ≡ first_of (state_causes calendar.now day balances.now) }
{
    if bad_day(calendar, day) || bad_balances(balances) {
        return Err(Refusal::Book);
    }
    Ok(())
}

// Numbers 1 to 4 of a close or a run of a stream.
pub fn judge_book<'a>(
    calendar: &'a [u32],
    tables: &'a [u32],
    day: u32,
    balances: &[u64],
) -> Result<Market<'a>, Refusal>
    ensures value { IfOk result (λ m. (m.calendar ≡ calendar.now) × (m.tables ≡ tables.now)) }
    ensures number { judged_number result ≡ first_of (book_causes calendar.now tables.now day balances.now) }
{
    let market = judge_tables(calendar, tables, balances)?;
    judge_state(&market.calendar, day, balances)?;
    Ok(market)
}

// Numbers 1, 2, 3, 12, 13 and 4 of a transfer.
pub fn judge_transfer<'a>(
    calendar: &'a [u32],
    tables: &'a [u32],
    limits: &'a [u32],
    pieces: &'a [u32],
    day: u32,
    balances: &[u64],
) -> Result<Lent<'a>, Refusal>
    ensures value { IfOk result (λ l. (l.market.calendar ≡ calendar.now) × (l.market.tables ≡ tables.now) × (l.limits ≡ limits.now) × (l.pieces ≡ pieces.now)) }
    ensures number { judged_number result
        ≡ first_of (lent_book_causes calendar.now tables.now limits.now pieces.now day balances.now) }
{
    let market = judge_tables(calendar, tables, balances)?;
    let Some(limits) = Limits::new(limits) else {
        return Err(Refusal::Limits);
    };
    let Some(pieces) = Pieces::new(pieces) else {
        return Err(Refusal::Pieces);
    };
    judge_state(&market.calendar, day, balances)?;
    Ok(Lent {
        market,
        limits,
        pieces,
    })
}

// Numbers 1 to 4 of an opening; what the balances hold does not matter.
pub fn judge_opening(
    calendar: &[u32],
    tables: &[u32],
    balances: &[u64],
    day: u32,
) -> Result<(), Refusal>
    ensures { judged_number result ≡ first_of (opening_causes calendar.now tables.now balances.now day) }
{
    let market = judge_tables(calendar, tables, balances)?;
    if bad_day(&market.calendar, day) {
        return Err(Refusal::Book);
    }
    Ok(())
}

// Numbers 1, 2 and 4 of carrying a saved book over; what the balances hold does not matter.
pub fn judge_carry(
    calendar: &[u32],
    day: u32,
    saved: &[u64],
    balances: &[u64],
) -> Result<(), Refusal>
    ensures { judged_number result ≡ first_of (carry_causes calendar.now day saved.now balances.now) }
{
    let Some(calendar) = Calendar::new(calendar) else {
        return Err(Refusal::Length);
    };
    if saved.len() != book::TRACKING_WORDS {
        return Err(Refusal::Length);
    }
    if balances.len() != BALANCE_WORDS {
        return Err(Refusal::Length);
    }
    if calendar.is_bad() {
        return Err(Refusal::Calendar);
    }
    judge_state(&calendar, day, saved)
}

// Numbers 1, 2 and 4 of calendar and present book where a mark is set or gone back to.
pub fn judge_present<'a>(
    calendar: &'a [u32],
    day: u32,
    balances: &[u64],
) -> Result<Calendar<'a>, Refusal>
    ensures value { IfOk result (λ c. c ≡ calendar.now) }
    ensures number { judged_number result ≡ first_of (present_causes calendar.now day balances.now) }
{
    let Some(calendar) = Calendar::new(calendar) else {
        return Err(Refusal::Length);
    };
    if balances.len() != BALANCE_WORDS {
        return Err(Refusal::Length);
    }
    if calendar.is_bad() {
        return Err(Refusal::Calendar);
    }
    judge_state(&calendar, day, balances)?;
    Ok(calendar)
}
