// Carrying a running book over (document 02, card 8): a book saved with 4,096 balances, those on loan, gets the form with 8,192, repo empty.
// The definitions stand in specs/, with the form with lending alone; that lists of calls go on as in that form, and that a history counts
// both sides of the move, is proved in proofs/.
#![tactic(auto)]

ghost use Rattle.std.specs.Prelude.{◌≡◌};
ghost use Rattle.history.specs.Results.{left_open};
ghost use Rattle.carry_over.specs.CarriedOver.{carried};

use book::{Book, Done};

// Carries a book over: the balances become the saved ones on loan, with repo empty. The book comes back as it was given; refused, with 1, 2
// or 4, the balances are left.
pub fn carry_over(calendar: &[u32], book: Book, saved: &[u64], balances: &mut [u64]) -> Done
    ensures { (left_open result balances.new ≡ carried calendar.now book saved.now balances.old)
        × (result.claims ≡ 0) }
{
    if let Err(refusal) = judging::judge_carry(calendar, book.day, saved, balances) {
        return Done::refused(refusal, book);
    }
    let (lending, repo) = balances.split_at_mut(book::TRACKING_WORDS);
    book::copy(saved, lending);
    book::clear(repo);
    Done {
        number: 0,
        book,
        claims: 0,
    }
}
