// A stream of message records for C and Rust callers.
ghost use Rattle.std.specs.Prelude.{◌≡◌};
ghost use Rattle.stream.specs.Serving.{left_served, leaves};

use book::Book;
use stream::Served;

// Serves a run of input: works its records into the output while there is room for another (65,542 bytes), and stops at one that is not
// whole yet, or after a 5. With ended, no more input follows. Calendar, tables, book or balances that are not sound get their number 1
// to 4, and nothing is worked or written.
pub fn claim_tracker_serve(
    calendar: &[u32],
    tables: &[u32],
    book: Book,
    balances: &mut [u64],
    input: &[u8],
    ended: bool,
    output: &mut [u8],
) -> Served
    ensures { left_served result balances.new output.new
        ≡ leaves calendar.now tables.now ended book balances.old input.now output.old }
{
    serving::serve(calendar, tables, book, balances, input, ended, output)
}
