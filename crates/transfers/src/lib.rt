// The transfer call (document 01, sections Fail claims and Loans; document 02, cards 1, 5, 6 and 7): a message is judged, its par is posted,
// and its claims are written. Every form is lent the pieces of the securities. The form with limits is lent maximum numbers of Beneficiary
// Dates too, the form without them keeps the published ones.
#![tactic(auto)]

ghost use Rattle.std.specs.Prelude.{◌≡◌, true, ◌||◌, leb};
ghost use Rattle.lists.specs.First.{first_of};
ghost use Rattle.records.specs.MessageRecords.{transfer_kind, transfer_of, reads};
ghost use Rattle.records.specs.Refusals.{judged_number};
ghost use Rattle.securities.specs.Lent.{ones};
ghost use Rattle.book.specs.Answered.{answered};
ghost use Rattle.book.specs.Soundness.{book_causes, lent_book_causes};
ghost use Rattle.history.specs.Calls.{lent_transfer, published_transfer};
ghost use Rattle.history.specs.Causes.{out_of_range, transfer_causes};
ghost use Rattle.history.specs.Results.{Gives};

use book::{Book, Done};
use judging::Market;
use records::{Refusal, Transfer};
use securities::{Limits, Pieces, Tables};
use tags::Tag;

// The published maximum numbers of Beneficiary Dates: MBS, then monthly, quarterly, semiannual, annual.
const MAXIMUM_NUMBERS: [u32; 5] = [7, 6, 3, 2, 1];

// Whether an account or the security is none of the book's.
fn beyond(t: Transfer) -> bool
    ensures { result ≡ (leb 16 t.sender || leb 16 t.receiver || leb 16 t.security) }
{
    if 16 <= t.sender {
        return true;
    }
    if 16 <= t.receiver {
        return true;
    }
    16 <= t.security
}

// Whether a field is out of range: number 6.
fn out_of_range(tables: &Tables<'_>, t: Transfer) -> bool
    ensures { result ≡ out_of_range tables.now t }
{
    if beyond(t) {
        return true;
    }
    if tables.security_type(t.security) == 0 {
        return true;
    }
    if 1 < t.class {
        return true;
    }
    if 12 < t.code {
        return true;
    }
    if t.par == 0 {
        return true;
    }
    if 100000000 < t.par {
        return true;
    }
    t.sender == t.receiver
}

// The causes of a transfer that reads: numbers 6, 132 to 139, 11, 14, 15, 7 and 8.
fn judge_own(
    tables: &Tables<'_>,
    pieces: &Pieces<'_>,
    book: Book,
    balances: &[u64],
    t: Transfer,
    tag: Tag,
) -> Result<(), Refusal>
    ensures { judged_number result ≡ first_of (transfer_causes tables.now pieces.now book balances.now t tag) }
{
    if out_of_range(tables, t) {
        return Err(Refusal::Field);
    }
    tags::edits(tag, t.class, book.day)?;
    if 4294967295 <= book.count {
        return Err(Refusal::Count);
    }
    loans::judge_posting(pieces, book.day, balances, t)
}

// The transfer of a sound book with good limits and good pieces: numbers 1 to 4, 12 and 13 do not apply.
fn try_transfer(
    market: &Market<'_>,
    limits: &Limits<'_>,
    pieces: &Pieces<'_>,
    book: Book,
    balances: &mut [u64],
    message: &[u8],
    claims: &mut [u8],
) -> Result<Done, Refusal>
    requires { first_of (lent_book_causes market.now.calendar market.now.tables limits.now pieces.now book.day balances.old) ≡ 0 }
    ensures { Gives market.now.calendar market.now.tables book balances.old
        (lent_transfer limits.now pieces.now (record { message = message.now; buffer = claims.old }))
        (answered book result) claims.new balances.new }
{
    let Some(t) = reading::read_transfer(message) else {
        return Err(Refusal::Message);
    };
    let tag = tags::tag_on(
        book.day,
        reading::first_line(message),
        reading::second_line(message),
    );
    judge_own(&market.tables, pieces, book, balances, t, tag)?;
    let day = book.day;
    let count = book.count + 1;
    let rows = fails::recent_rows(&market.tables, limits, day, t, tag);
    let n = fails::transfer_claims(
        false,
        claims,
        &market.calendar,
        &market.tables,
        day,
        count,
        t,
        rows,
    );
    if claims.len() < 35 * n {
        return Err(Refusal::Room);
    }
    loans::post(balances, t);
    let m = fails::transfer_claims(
        true,
        claims,
        &market.calendar,
        &market.tables,
        day,
        count,
        t,
        rows,
    );
    Ok(Done {
        number: 0,
        book: Book { day, count },
        claims: m,
    })
}

// The answer to a transfer of a sound book with good limits and good pieces.
fn transfer_lent(
    market: &Market<'_>,
    limits: &Limits<'_>,
    pieces: &Pieces<'_>,
    book: Book,
    balances: &mut [u64],
    message: &[u8],
    claims: &mut [u8],
) -> Done
    requires { first_of (lent_book_causes market.now.calendar market.now.tables limits.now pieces.now book.day balances.old) ≡ 0 }
    ensures { Gives market.now.calendar market.now.tables book balances.old
        (lent_transfer limits.now pieces.now (record { message = message.now; buffer = claims.old }))
        result claims.new balances.new }
{
    Done::answered(
        book,
        try_transfer(market, limits, pieces, book, balances, message, claims),
    )
}

// The transfer of any book with any limits and pieces: the first number that applies, or its par posted and its claims.
pub fn transfer_with_limits(
    calendar: &[u32],
    tables: &[u32],
    limits: &[u32],
    pieces: &[u32],
    book: Book,
    balances: &mut [u64],
    message: &[u8],
    claims: &mut [u8],
) -> Done
    ensures { Gives calendar.now tables.now book balances.old
        (lent_transfer limits.now pieces.now (record { message = message.now; buffer = claims.old }))
        result claims.new balances.new }
{
    match judging::judge_transfer(calendar, tables, limits, pieces, book.day, balances) {
        Ok(lent) => transfer_lent(
            &lent.market,
            &lent.limits,
            &lent.pieces,
            book,
            balances,
            message,
            claims,
        ),
        Err(refusal) => Done::refused(refusal, book),
    }
}

// The transfer of a sound book with the published numbers and ones as pieces: numbers 1 to 4 do not apply.
pub fn transfer_sound(
    market: &Market<'_>,
    book: Book,
    balances: &mut [u64],
    message: &[u8],
    claims: &mut [u8],
) -> Done
    requires { first_of (book_causes market.now.calendar market.now.tables book.day balances.old) ≡ 0 }
    ensures { Gives market.now.calendar market.now.tables book balances.old
        (published_transfer ones (record { message = message.now; buffer = claims.old }))
        result claims.new balances.new }
{
    let numbers = MAXIMUM_NUMBERS;
    let ones = [1u32; 16];
    transfer_lent(
        market,
        &Limits::of(&numbers),
        &Pieces::of(&ones),
        book,
        balances,
        message,
        claims,
    )
}

// The transfer of any book and pieces with the published numbers.
pub fn transfer(
    calendar: &[u32],
    tables: &[u32],
    pieces: &[u32],
    book: Book,
    balances: &mut [u64],
    message: &[u8],
    claims: &mut [u8],
) -> Done
    ensures { Gives calendar.now tables.now book balances.old
        (published_transfer pieces.now (record { message = message.now; buffer = claims.old }))
        result claims.new balances.new }
{
    let numbers = MAXIMUM_NUMBERS;
    transfer_with_limits(
        calendar, tables, &numbers, pieces, book, balances, message, claims,
    )
}
