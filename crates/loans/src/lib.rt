// The loans and repos of transfers (document 01, section Loans; document 02, card 3), the pieces that par comes in (card 6) and the days
// before lending (card 7): what is posted to the balances, with the numbers 14, 15, 7 and 8 of what can be refused.
#![tactic(auto)]

ghost use Rattle.std.specs.Prelude.{◌≡◌, ◌<◌, length};
ghost use Rattle.lists.specs.First.{first_of};
ghost use Rattle.records.specs.Refusals.{judged_number};
ghost use Rattle.book.specs.Loans.{tracking_of, step_of, change_of, changed, loan_causes, clears_balance, off_piece, lends_early, posting_causes};

use book::{Change, Position};
use records::{Refusal, Transfer};
use securities::Pieces;

// The tracking of a code and its place there: 7 to 12 do for repo what 1 to 6 do for lending.
fn tracked(code: u8) -> (u8, u8)
    ensures { (result.0 ≡ tracking_of code) × (result.1 ≡ step_of code) }
{
    if 6 < code { (1, code - 6) } else { (0, code) }
}

// What a transfer's code asks for. Codes 1, 4 and 5 add to what the sender has lent the receiver, 2, 3 and 6 take from what the receiver has
// lent the sender, and 7 to 12 do for repo what 1 to 6 do for lending.
fn change_of(t: Transfer) -> Change
    ensures { result ≡ change_of t }
{
    let (tracking, step) = tracked(t.code);
    match step {
        1 | 4 | 5 => Change::Increase(Position {
            tracking,
            security: t.security,
            lender: t.sender,
            borrower: t.receiver,
        }),
        2 | 3 | 6 => Change::Decrease(Position {
            tracking,
            security: t.security,
            lender: t.receiver,
            borrower: t.sender,
        }),
        _ => Change::Unchanged,
    }
}

// Number 7 for a decrease above the balance, 8 for an increase past the largest balance.
fn judge_loan(balances: &[u64], t: Transfer) -> Result<(), Refusal>
    ensures { judged_number result ≡ first_of (loan_causes balances.now t) }
{
    let par = t.par as u64;
    match change_of(t) {
        Change::Increase(p) => {
            if book::LARGEST_BALANCE - par < p.par(balances) {
                return Err(Refusal::Increase);
            }
        }
        Change::Decrease(p) => {
            if p.par(balances) < par {
                return Err(Refusal::Decrease);
            }
        }
        Change::Unchanged => {}
    }
    Ok(())
}

// Whether the code takes from a balance, and par is exactly the whole of it.
fn clears_balance(balances: &[u64], t: Transfer) -> bool
    ensures { result ≡ clears_balance balances.now (change_of t) t.par }
{
    match change_of(t) {
        Change::Decrease(p) => p.par(balances) == t.par as u64,
        _ => false,
    }
}

// Whether par is no multiple of the security's piece and does not clear the whole balance that the code takes from.
fn off_piece(pieces: &Pieces<'_>, balances: &[u64], t: Transfer) -> bool
    requires { t.security < 16 }
    ensures { result ≡ off_piece pieces.now balances.now t }
{
    t.par % pieces.piece(t.security) != 0 && !clears_balance(balances, t)
}

// Whether a code of lending, 1 to 6, comes on a day before the 2023 memo.
#[tactic(auto, unfolding(book::specs::Loans::lends_early))]
fn lends_early(day: u32, code: u8) -> bool
    ensures { result ≡ lends_early day code }
{
    days::before_memo(day) && matches!(code, 1..=6)
}

// Numbers 14, 15, 7 and 8 of a transfer.
pub fn judge_posting(
    pieces: &Pieces<'_>,
    day: u32,
    balances: &[u64],
    t: Transfer,
) -> Result<(), Refusal>
    requires { t.security < 16 }
    ensures { judged_number result ≡ first_of (posting_causes pieces.now day balances.now t) }
{
    if off_piece(pieces, balances, t) {
        return Err(Refusal::OffPiece);
    }
    if lends_early(day, t.code) {
        return Err(Refusal::Early);
    }
    judge_loan(balances, t)
}

// Adds an accepted transfer's par to its balance or takes it away.
pub fn post(balances: &mut [u64], t: Transfer)
    requires { (length balances.old ≡ 8192) × (t.sender < 16) × (t.receiver < 16) × (t.security < 16) × (first_of (loan_causes balances.old t) ≡ 0) }
    ensures { balances.new ≡ changed balances.old (change_of t) t.par }
{
    let par = t.par as u64;
    match change_of(t) {
        Change::Increase(p) => balances[p.word()] += par,
        Change::Decrease(p) => balances[p.word()] -= par,
        Change::Unchanged => {}
    }
}
