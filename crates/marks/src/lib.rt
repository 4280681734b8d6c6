// Marks of a book (document 02, card 9): a lent store holds four, each with a day, a count and the balances. One call sets a mark, one goes back
// to it. The definitions stand in specs/; that after a return the book is that of the history that ended at the mark, and later calls go on
// from there, is proved in proofs/ of every trial.
#![tactic(auto)]

ghost use Rattle.std.specs.Prelude.{◌≡◌, ◌↔◌, true, length, IfSome, IsSome, IfOk};
ghost use Rattle.lists.specs.First.{first_of};
ghost use Rattle.records.specs.Refusals.{judged_number};
ghost use Rattle.history.specs.Results.{left_open};
ghost use Rattle.marks.specs.Marks.{is_mark, place_of, day_in, count_in, balances_in, words_for, saved_causes, set_causes, return_causes, mark_in};
ghost use Rattle.marks.specs.Marks.{left_mark, marked, returned};

use book::{Book, Done};
use days::Calendar;
use records::Refusal;

// The words of a mark, and those of the store.
const MARK_WORDS: usize = 8195;

const STORE_WORDS: usize = 32780;

// The book and the balances that a mark holds.
#[derive(Drop)]
struct Saved<'a> {
    book: Book,
    balances: &'a [u64],
}

// Whether there is such a mark.
#[tactic(auto, unfolding(crate::specs::Marks::is_mark))]
fn is_mark(mark: u32) -> bool
    ensures { result ≡ is_mark mark }
{
    matches!(mark, 1..=4)
}

// The first word of a mark, if there is such a mark and the store has its length.
fn place_in(store: &[u64], mark: u32) -> Option<usize>
    ensures value { IfSome result (λ at. at ≡ place_of mark) }
    ensures variant { IsSome result ↔ ((is_mark mark ≡ true) × (length store.now ≡ 32780)) }
{
    if is_mark(mark) && store.len() == STORE_WORDS {
        Some(MARK_WORDS * (mark as usize - 1))
    } else {
        None
    }
}

// Numbers 1, 2, 4 and 16 of setting a mark, whose first word it gives with the calendar.
fn judge_setting<'a>(
    calendar: &'a [u32],
    day: u32,
    balances: &[u64],
    store: &[u64],
    mark: u32,
) -> Result<(Calendar<'a>, usize), Refusal>
    ensures value { IfOk result (λ s. (s.0 ≡ calendar.now) × (s.1 ≡ place_of mark)) }
    ensures number { judged_number result ≡ first_of (set_causes calendar.now day balances.now store.now mark) }
{
    let calendar = judging::judge_present(calendar, day, balances)?;
    let Some(at) = place_in(store, mark) else {
        return Err(Refusal::Mark);
    };
    Ok((calendar, at))
}

// Number 17 of the words of a mark.
fn judge_saved<'a>(calendar: &Calendar<'_>, words: &'a [u64]) -> Result<Saved<'a>, Refusal>
    requires { length words.now ≡ 8195 }
    ensures value { IfOk result (λ s. (s.book ≡ record { day = day_in words.now; count = count_in words.now }) × (s.balances.now ≡ balances_in words.now)) }
    ensures number { judged_number result ≡ first_of (saved_causes calendar.now words.now) }
{
    if words[0] != 1 {
        return Err(Refusal::Saved);
    }
    let Ok(count) = u32::try_from(words[2]) else {
        return Err(Refusal::Saved);
    };
    let Ok(day) = u32::try_from(words[1]) else {
        return Err(Refusal::Saved);
    };
    let balances = &words[3..];
    if judging::judge_state(calendar, day, balances).is_err() {
        return Err(Refusal::Saved);
    }
    Ok(Saved {
        book: Book { day, count },
        balances,
    })
}

// Numbers 1, 2, 4, 16 and 17 of going back to a mark.
fn judge_return<'a>(
    calendar: &[u32],
    day: u32,
    balances: &[u64],
    store: &'a [u64],
    mark: u32,
) -> Result<Saved<'a>, Refusal>
    ensures value { IfOk result (λ s. (s.book ≡ record { day = day_in (mark_in store.now mark); count = count_in (mark_in store.now mark) })
        × (s.balances.now ≡ balances_in (mark_in store.now mark))) }
    ensures number { judged_number result ≡ first_of (return_causes calendar.now day balances.now store.now mark) }
{
    let (calendar, at) = judge_setting(calendar, day, balances, store, mark)?;
    judge_saved(&calendar, &store[at..at + MARK_WORDS])
}

// Writes the words of a mark.
fn write_mark(book: Book, balances: &[u64], words: &mut [u64])
    requires { (length balances.now ≡ 8192) × (length words.old ≡ 8195) }
    ensures { words.new ≡ words_for book balances.now }
{
    let (head, rest) = words.split_at_mut(3);
    head.copy_from_slice(&[1, book.day as u64, book.count as u64]);
    book::copy(balances, rest);
}

// Sets a mark: its words become 1, day, count and balances, whatever they were. All other words of the store are left; refused, with 1, 2, 4 or
// 16, all are.
pub fn set_mark(
    calendar: &[u32],
    book: Book,
    balances: &[u64],
    store: &mut [u64],
    mark: u32,
) -> Result<(), Refusal>
    ensures { left_mark (judged_number result) store.new ≡ marked calendar.now book balances.now store.old mark }
{
    let (_, at) = judge_setting(calendar, book.day, balances, store, mark)?;
    write_mark(book, balances, &mut store[at..at + MARK_WORDS]);
    Ok(())
}

// Goes back to a mark: book and balances become those that its words hold; the store is left. Refused, with 1, 2, 4, 16 or 17, the book comes
// back as it was given and the balances are left.
pub fn return_to_mark(
    calendar: &[u32],
    book: Book,
    balances: &mut [u64],
    store: &[u64],
    mark: u32,
) -> Done
    ensures { (left_open result balances.new ≡ returned calendar.now book balances.old store.now mark)
        × (result.claims ≡ 0) }
{
    match judge_return(calendar, book.day, balances, store, mark) {
        Ok(saved) => {
            book::copy(saved.balances, balances);
            Done {
                number: 0,
                book: saved.book,
                claims: 0,
            }
        }
        Err(refusal) => Done::refused(refusal, book),
    }
}
