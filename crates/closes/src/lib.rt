// The close call (document 01, section Close): the day moves to the next open day, and the par on loan and on repo at each Record Date
// that is crossed gives its claims.
#![tactic(auto)]

ghost use Rattle.std.specs.Prelude.{◌≡◌, true, length};
ghost use Rattle.lists.specs.First.{first_of};
ghost use Rattle.claims.specs.Passes.{Free, Passed};
ghost use Rattle.book.specs.Answered.{answered};
ghost use Rattle.book.specs.Soundness.{book_causes};
ghost use Rattle.history.specs.Calls.{Call};
ghost use Rattle.history.specs.Results.{Gives};
ghost use Rattle.lending.specs.Levels.{close_level};

use book::{Book, Done};
use judging::Market;
use lending::given::Close;
use records::Refusal;

// Stores the n claims of a close from the buffer's start; where there are none, no row is looked at again.
fn store(close: &Close<'_>, n: usize, claims: &mut [u8]) -> usize
    requires { Free true claims.old 0 (close_level close.now) × (n ≡ length (close_level close.now)) }
    ensures { Passed true claims.old claims.new 0 result (close_level close.now) }
{
    if n == 0 {
        return 0;
    }
    close.pass_close(true, claims)
}

// The close of a sound book: numbers 1 to 4 do not apply.
fn try_close(
    market: &Market<'_>,
    book: Book,
    balances: &[u64],
    message: &[u8],
    claims: &mut [u8],
) -> Result<Done, Refusal>
    requires { first_of (book_causes market.now.calendar market.now.tables book.day balances.now) ≡ 0 }
    ensures { Gives market.now.calendar market.now.tables book balances.now
        (Call.close (record { message = message.now; buffer = claims.old })) (answered book result) claims.new balances.now }
{
    if !reading::read_close(message) {
        return Err(Refusal::Message);
    }
    let Some(next) = market.calendar.open_after(book.day) else {
        return Err(Refusal::LastDay);
    };
    if market.calendar.open_after(next.0).is_none() {
        return Err(Refusal::LastDay);
    }
    let close = Close {
        calendar: &market.calendar,
        tables: &market.tables,
        day: book.day,
        next: next.0,
        balances,
    };
    let n = close.pass_close(false, claims);
    if claims.len() < 35 * n {
        return Err(Refusal::Room);
    }
    let m = store(&close, n, claims);
    let count = book.count;
    Ok(Done {
        number: 0,
        book: Book { day: next.0, count },
        claims: m,
    })
}

// The answer to a close of a sound book.
pub fn close_sound(
    market: &Market<'_>,
    book: Book,
    balances: &mut [u64],
    message: &[u8],
    claims: &mut [u8],
) -> Done
    requires { first_of (book_causes market.now.calendar market.now.tables book.day balances.old) ≡ 0 }
    ensures { Gives market.now.calendar market.now.tables book balances.old
        (Call.close (record { message = message.now; buffer = claims.old })) result claims.new balances.new }
{
    Done::answered(book, try_close(market, book, balances, message, claims))
}

// The close of any book: the first number that applies, or the claims of the Record Dates crossed and the next open day.
pub fn close(
    calendar: &[u32],
    tables: &[u32],
    book: Book,
    balances: &mut [u64],
    message: &[u8],
    claims: &mut [u8],
) -> Done
    ensures { Gives calendar.now tables.now book balances.old
        (Call.close (record { message = message.now; buffer = claims.old })) result claims.new balances.new }
{
    match judging::judge_book(calendar, tables, book.day, balances) {
        Ok(market) => close_sound(&market, book, balances, message, claims),
        Err(refusal) => Done::refused(refusal, book),
    }
}
