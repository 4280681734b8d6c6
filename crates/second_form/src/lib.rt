// By-value callers of the second form: each keeps a book of its own, lends it to the call, and returns it as the call leaves it.
#![tactic(auto)]

ghost use Rattle.history.specs.Calls.{Call, published_transfer};
ghost use Rattle.history.specs.Results.{Gives};

use book::{Book, Done};

// A transfer on a book of its own.
pub fn transfer_lent(
    calendar: &[u32],
    tables: &[u32],
    pieces: &[u32],
    book: Book,
    balances: &mut [u64],
    message: &[u8],
    claims: &mut [u8],
) -> Done
    ensures { Gives calendar.now tables.now book balances.old
        (published_transfer pieces.now (record { message = message.now; buffer = claims.old }))
        result claims.new balances.new }
{
    let mut own = book;
    let reply = tracker::own_book::claim_tracker_transfer_in(
        calendar, tables, pieces, &mut own, balances, message, claims,
    );
    Done {
        number: reply.number,
        book: own,
        claims: reply.claims,
    }
}

// A close on a book of its own.
pub fn close_lent(
    calendar: &[u32],
    tables: &[u32],
    book: Book,
    balances: &mut [u64],
    message: &[u8],
    claims: &mut [u8],
) -> Done
    ensures { Gives calendar.now tables.now book balances.old
        (Call.close (record { message = message.now; buffer = claims.old })) result claims.new balances.new }
{
    let mut own = book;
    let reply = tracker::own_book::claim_tracker_close_in(
        calendar, tables, &mut own, balances, message, claims,
    );
    Done {
        number: reply.number,
        book: own,
        claims: reply.claims,
    }
}
