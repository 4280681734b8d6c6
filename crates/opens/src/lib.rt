// The opening call (document 01, section The book): a day is judged, and the count and all balances are set to zero.
#![tactic(auto)]

ghost use Rattle.std.specs.Prelude.{◌≡◌};
ghost use Rattle.history.specs.Results.{left_open, opened};

use book::{Book, Done};
use days::Date;

// The opening of a book on a day. Refused, it returns day 20000101 and count 0 and leaves the balances.
pub fn open(calendar: &[u32], tables: &[u32], balances: &mut [u64], day: u32) -> Done
    ensures { (left_open result balances.new ≡ opened calendar.now tables.now balances.old day)
        × (result.claims ≡ 0) }
{
    if let Err(refusal) = judging::judge_opening(calendar, tables, balances, day) {
        let first = Book {
            day: Date::FIRST.0,
            count: 0,
        };
        return Done::refused(refusal, first);
    }
    book::clear(balances);
    Done {
        number: 0,
        book: Book { day, count: 0 },
        claims: 0,
    }
}
