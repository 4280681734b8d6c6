// Transfer and close in the second form: the call updates the day and transfer count of the caller's own book.
ghost use Rattle.history.specs.Calls.{Call, published_transfer};
ghost use Rattle.history.specs.Results.{Gives};
ghost use Rattle.tracker.specs.Forms.{together};

use book::Book;

// What a call of the second form replies: its number, and how many claims it wrote.
#[repr(C)]
#[derive(Clone, Copy)]
pub struct Reply {
    pub number: u16,
    pub claims: usize,
}

// Works a transfer on the caller's own book, as claim_tracker_transfer does on a book by value.
pub fn claim_tracker_transfer_in(
    calendar: &[u32],
    tables: &[u32],
    pieces: &[u32],
    book: &mut Book,
    balances: &mut [u64],
    message: &[u8],
    claims: &mut [u8],
) -> Reply
    ensures { Gives calendar.now tables.now book.old balances.old
        (published_transfer pieces.now (record { message = message.now; buffer = claims.old }))
        (together result book.new) claims.new balances.new }
{
    let d = crate::calls::claim_tracker_transfer(
        calendar, tables, pieces, *book, balances, message, claims,
    );
    *book = d.book;
    Reply {
        number: d.number,
        claims: d.claims,
    }
}

// Works a close on the caller's own book, as claim_tracker_close does on a book by value.
pub fn claim_tracker_close_in(
    calendar: &[u32],
    tables: &[u32],
    book: &mut Book,
    balances: &mut [u64],
    message: &[u8],
    claims: &mut [u8],
) -> Reply
    ensures { Gives calendar.now tables.now book.old balances.old
        (Call.close (record { message = message.now; buffer = claims.old })) (together result book.new)
        claims.new balances.new }
{
    let d = crate::calls::claim_tracker_close(calendar, tables, *book, balances, message, claims);
    *book = d.book;
    Reply {
        number: d.number,
        claims: d.claims,
    }
}
