// Transfer and close in the second form: the call updates the day and transfer count of the caller's own book.
ghost use Rattle.history.specs.Calls.{Call, published_transfer};
ghost use Rattle.history.specs.Results.{Gives};
ghost use Rattle.tracker.specs.Forms.{together};

use book::Book;
use tracker::own_book::Reply;

// Works a transfer on the caller's own book, as claim_tracker_transfer does on a book by value.
#[unsafe(no_mangle)]
pub extern "C" fn claim_tracker_transfer_in(
    calendar: &[u32],
    tables: &[u32],
    pieces: &[u32],
    book: &mut Book,
    balances: &mut [u64],
    message: &[u8],
    claims: &mut [u8],
) -> Reply
    ensures { Gives calendar.now tables.now book.old balances.old
        (published_transfer pieces.now (record { message = message.now; buffer = claims.old }))
        (together result book.new) claims.new balances.new }
{
    tracker::own_book::claim_tracker_transfer_in(
        calendar, tables, pieces, book, balances, message, claims,
    )
}

// Works a close on the caller's own book, as claim_tracker_close does on a book by value.
#[unsafe(no_mangle)]
pub extern "C" fn claim_tracker_close_in(
    calendar: &[u32],
    tables: &[u32],
    book: &mut Book,
    balances: &mut [u64],
    message: &[u8],
    claims: &mut [u8],
) -> Reply
    ensures { Gives calendar.now tables.now book.old balances.old
        (Call.close (record { message = message.now; buffer = claims.old })) (together result book.new)
        claims.new balances.new }
{
    tracker::own_book::claim_tracker_close_in(calendar, tables, book, balances, message, claims)
}
