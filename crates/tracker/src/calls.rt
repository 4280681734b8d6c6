// Opening, carrying over, marks, transfer and close for C and Rust callers. A slice passes as a pointer and a count of its elements.
ghost use Rattle.std.specs.Prelude.{◌≡◌};
ghost use Rattle.history.specs.Calls.{Call, lent_transfer, published_transfer};
ghost use Rattle.history.specs.Results.{Gives, left_open, opened};
ghost use Rattle.carry_over.specs.CarriedOver.{carried};
ghost use Rattle.marks.specs.Marks.{left_mark, marked, returned};

use crate::messages::answered_number;
use book::{Book, Done};

// Opens a book on a day: its count and all balances become zero. Refused, with 1 to 4, it returns day 20000101 and count 0 and leaves
// the balances.
pub fn claim_tracker_open(calendar: &[u32], tables: &[u32], balances: &mut [u64], day: u32) -> Done
    ensures { (left_open result balances.new ≡ opened calendar.now tables.now balances.old day)
        × (result.claims ≡ 0) }
{
    opens::open(calendar, tables, balances, day)
}

// Carries over a book saved with 4,096 balances, those on loan: the balances become these, with repo empty. The book comes back as it was
// given; refused, with 1, 2 or 4, the balances are left.
pub fn claim_tracker_carry_over(
    calendar: &[u32],
    book: Book,
    saved: &[u64],
    balances: &mut [u64],
) -> Done
    ensures { (left_open result balances.new ≡ carried calendar.now book saved.now balances.old)
        × (result.claims ≡ 0) }
{
    carry_over::carry_over(calendar, book, saved, balances)
}

// Sets a mark, 1 to 4, of a store: its words become 1, day, count and balances, whatever they were. All other words are left; refused, with
// 1, 2, 4 or 16, all are.
pub fn claim_tracker_set_mark(
    calendar: &[u32],
    book: Book,
    balances: &[u64],
    store: &mut [u64],
    mark: u32,
) -> u16
    ensures { left_mark result store.new ≡ marked calendar.now book balances.now store.old mark }
{
    answered_number(marks::set_mark(calendar, book, balances, store, mark))
}

// Goes back to a mark: it returns the book of the mark, and the balances become those of the mark. Refused, with 1, 2, 4, 16 or 17, it returns
// the book given and leaves the balances.
pub fn claim_tracker_return_to_mark(
    calendar: &[u32],
    book: Book,
    balances: &mut [u64],
    store: &[u64],
    mark: u32,
) -> Done
    ensures { (left_open result balances.new ≡ returned calendar.now book balances.old store.now mark)
        × (result.claims ≡ 0) }
{
    marks::return_to_mark(calendar, book, balances, store, mark)
}

// Works a transfer with the published maximum numbers: judges its par by the pieces of the securities, posts it, and writes its claims from
// the claim buffer's start. Refused, it returns the first number that applies and the book given, and leaves balances and claim buffer.
pub fn claim_tracker_transfer(
    calendar: &[u32],
    tables: &[u32],
    pieces: &[u32],
    book: Book,
    balances: &mut [u64],
    message: &[u8],
    claims: &mut [u8],
) -> Done
    ensures { Gives calendar.now tables.now book balances.old
        (published_transfer pieces.now (record { message = message.now; buffer = claims.old }))
        result claims.new balances.new }
{
    transfers::transfer(calendar, tables, pieces, book, balances, message, claims)
}

// Works a transfer as claim_tracker_transfer does, with the date limits that it is lent: maximum numbers of Beneficiary Dates for MBS, then
// monthly, quarterly, semiannual, annual.
pub fn claim_tracker_transfer_with_limits(
    calendar: &[u32],
    tables: &[u32],
    limits: &[u32],
    pieces: &[u32],
    book: Book,
    balances: &mut [u64],
    message: &[u8],
    claims: &mut [u8],
) -> Done
    ensures { Gives calendar.now tables.now book balances.old
        (lent_transfer limits.now pieces.now (record { message = message.now; buffer = claims.old }))
        result claims.new balances.new }
{
    transfers::transfer_with_limits(
        calendar, tables, limits, pieces, book, balances, message, claims,
    )
}

// Works a close: the day moves to the next open day, and the lending and repo claims of the Record Dates crossed are written from the
// claim buffer's start. Refused, it returns the first number that applies and the book given, and leaves balances and claim buffer.
pub fn claim_tracker_close(
    calendar: &[u32],
    tables: &[u32],
    book: Book,
    balances: &mut [u64],
    message: &[u8],
    claims: &mut [u8],
) -> Done
    ensures { Gives calendar.now tables.now book balances.old
        (Call.close (record { message = message.now; buffer = claims.old })) result claims.new balances.new }
{
    closes::close(calendar, tables, book, balances, message, claims)
}
