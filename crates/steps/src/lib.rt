// What the program claimrun does between a read and a write (document 01, section The program claimrun): book.dat is judged and the book
// opened, then each step works what was read into the output.
#![tactic(auto)]

ghost use Rattle.std.specs.Prelude.{◌≡◌, not, ◌&&◌, ◌+◌, ◌≤◌, length, take, drop};
ghost use Rattle.lists.specs.Put.{put};
ghost use Rattle.stream.specs.Stream.{answer_bytes};
ghost use Rattle.program.specs.Steps.{refused_held, begins, left_beginning, has_ended, is_over, held_after, resting, holding, stepped};

use book::Book;
use days::Date;
use program::Held;
use records::Refusal;
use stream::Served;

// The bytes of book.dat: calendar, tables and the opening's day.
const BOOK_BYTES: usize = 9220;

// Answers a book.dat that is refused, from the output's start; the run is over.
fn refuse(output: &mut [u8], number: u16) -> Held
    requires { 6 ≤ length output.old }
    ensures { (result ≡ refused_held) × (output.new ≡ put output.old 0 (answer_bytes number)) }
{
    serving::put_answer(output, 0, number);
    Held {
        book: Book {
            day: Date::FIRST.0,
            count: 0,
        },
        left: 0,
        written: 6,
        ended: false,
        over: true,
        asks: false,
    }
}

// Judges the bytes of book.dat, fills calendar and tables from them and opens the book. Where the number of bytes or the opening is
// refused, the answer stands at the output's start and the run is over.
pub fn begin(
    file: &[u8],
    calendar: &mut [u32],
    tables: &mut [u32],
    balances: &mut [u64],
    output: &mut [u8],
) -> Held
    requires { (length calendar.old ≡ 480) × (length tables.old ≡ 1824) × (6 ≤ length output.old) }
    ensures { left_beginning result calendar.new tables.new balances.new output.new
        ≡ begins file.now calendar.old tables.old balances.old output.old }
{
    if file.len() != BOOK_BYTES {
        return refuse(output, Refusal::Length.number());
    }
    let day = book_file::load(file, calendar, tables);
    let done = opens::open(calendar, tables, balances, day);
    if done.number != 0 {
        return refuse(output, done.number);
    }
    let book = done.book;
    Held {
        book,
        left: 0,
        written: 0,
        ended: false,
        over: false,
        asks: true,
    }
}

// Moves n bytes from a place to the buffer's start.
fn move_down(buf: &mut [u8], from: usize, n: usize)
    requires { from + n ≤ length buf.old }
    ensures { buf.new ≡ put buf.old 0 (take n (drop from buf.old)) }
{
    buf.copy_within(from..from + n, 0);
}

// Whether the input has ended: it had before, or bytes were asked for and none came.
#[tactic(auto, unfolding(program::specs::Steps::has_ended))]
fn has_ended(held: Held, got: usize) -> bool
    ensures { result ≡ has_ended held got }
{
    held.ended || held.asks && got == 0
}

// Whether the run is over: on a book that is not sound, after a 5, or at the end of the input with room left.
#[tactic(auto, unfolding(program::specs::Steps::is_over))]
fn is_over(s: Served, ended: bool) -> bool
    ensures { result ≡ is_over s ended }
{
    s.number != 0 || s.over || ended && !s.full
}

// What is held after a run of serve on have bytes.
#[tactic(auto, unfolding(program::specs::Steps::held_after))]
fn held_after(s: Served, ended: bool, have: usize) -> Held
    requires { s.consumed ≤ have }
    ensures { result ≡ held_after s ended have }
{
    let over = is_over(s, ended);
    Held {
        book: s.book,
        left: have - s.consumed,
        written: s.written,
        ended,
        over,
        asks: !over && !s.full,
    }
}

// What is held where the run is over: nothing more is written.
fn rest(held: Held) -> Held
    ensures { result ≡ resting held }
{
    Held {
        written: 0,
        over: true,
        asks: false,
        ..held
    }
}

// One step: works the bytes not worked yet and those read behind them into the output, and moves what is left to the input's start. Where
// bytes were asked for and none were read, the input has ended.
pub fn step(
    calendar: &[u32],
    tables: &[u32],
    held: Held,
    balances: &mut [u64],
    input: &mut [u8],
    got: usize,
    output: &mut [u8],
) -> Held
    requires { held.left + got ≤ length input.old }
    ensures { holding result balances.new input.new output.new
        ≡ stepped calendar.now tables.now (holding held balances.old input.old output.old) got }
{
    if held.over {
        return rest(held);
    }
    let ended = has_ended(held, got);
    let have = held.left + got;
    let book = held.book;
    let s = serving::serve(
        calendar,
        tables,
        book,
        balances,
        &input[0..have],
        ended,
        output,
    );
    let consumed = s.consumed;
    move_down(input, consumed, have - consumed);
    held_after(s, ended, have)
}
