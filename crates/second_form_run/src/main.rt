// Runs document 01's loan cases in both forms: start 50,000, return 20,000, ADSR 15,000 and ADSR 15,001, then the close of 20230331,
// first with no room for its claim. Before it come a start off its piece and one with a piece of 0, after it the return of the whole
// balance off the piece (document 02, card 6). It writes a line for each call: name, number, day, count, claims written and the par that
// account 1 has lent account 2 after it; then April's claim in cents, and whether both forms leave the same balances and claim buffers.
#![tactic(auto)]

ghost use Rattle.std.specs.Prelude.{◌≤◌, ◌<◌};

use book::{Book, Done};
use records::Transfer;

// The word of the balances for the par of security 0 that account 1 has lent account 2.
const LENT: usize = 18;

// The days Monday to Friday of a month that begins on a weekday, counted from Monday.
fn month_word(weekday: u32, length: u32) -> u32
    requires { (weekday < 7) × (length ≤ 31) }
{
    let mut word: u32 = 0;
    for d in 0..length {
        if (weekday + d) % 7 < 5 {
            word |= 1 << d;
        }
    }
    word
}

// Fills the calendar with Monday to Friday; it begins on a Saturday.
fn fill_calendar(calendar: &mut [u32; 480]) {
    let mut weekday: u32 = 5;
    for m in 0..480 {
        let length = days::month_length(2000 + m / 12, m % 12 + 1);
        calendar[m as usize] = month_word(weekday, length);
        weekday = (weekday + length) % 7;
    }
}

// Security 0: agency MBS, monthly, rows for April and May 2023.
fn fill_tables(tables: &mut [u32; 1824]) {
    tables[0] = 3;
    tables[1] = 1;
    tables[2] = 20230401;
    tables[3] = 20230401;
    tables[4] = 20230415;
    tables[5] = 5000000;
    tables[9] = 20230501;
    tables[10] = 20230501;
    tables[11] = 20230515;
    tables[12] = 5000000;
}

// A form of the calls: by value, or the second form, on the caller's own book.
#[derive(Clone, Copy)]
enum Form {
    ByValue,
    OwnBook,
}

impl Form {
    // A transfer.
    fn transfer(
        self,
        calendar: &[u32],
        tables: &[u32],
        pieces: &[u32],
        book: Book,
        balances: &mut [u64],
        message: &[u8],
        claims: &mut [u8],
    ) -> Done {
        match self {
            Form::ByValue => tracker::calls::claim_tracker_transfer(
                calendar, tables, pieces, book, balances, message, claims,
            ),
            Form::OwnBook => second_form::transfer_lent(
                calendar, tables, pieces, book, balances, message, claims,
            ),
        }
    }

    // A close.
    fn close(
        self,
        calendar: &[u32],
        tables: &[u32],
        book: Book,
        balances: &mut [u64],
        message: &[u8],
        claims: &mut [u8],
    ) -> Done {
        match self {
            Form::ByValue => tracker::calls::claim_tracker_close(
                calendar, tables, book, balances, message, claims,
            ),
            Form::OwnBook => {
                second_form::close_lent(calendar, tables, book, balances, message, claims)
            }
        }
    }
}

// A run of the cases in one form: what its calls are lent and leave, but for messages and claims.
#[derive(Drop)]
struct Run {
    form: Form,
    calendar: [u32; 480],
    tables: [u32; 1824],
    book: Book,
    balances: [u64; 8192],
}

// A loan's transfer of security 0 between accounts.
fn loan(code: u8, sender: u8, receiver: u8, par: u32) -> Transfer {
    Transfer {
        sender,
        receiver,
        security: 0,
        class: 0,
        code,
        par,
    }
}

// Writes the interest of the claim that a buffer begins with.
fn print_cents(rt: &impl Print, claims: &[u8]) {
    let _ = match reading::read_claim(claims) {
        Some(claim) => println!(rt; "cents {}", claim.interest.0),
        None => println!(rt; "no claim"),
    };
}

impl Run {
    // The calendar and the tables of the cases, with no book and no balances yet.
    fn new(form: Form) -> Run {
        let mut run = Run {
            form,
            calendar: [0; 480],
            tables: [0; 1824],
            book: Book { day: 0, count: 0 },
            balances: [0; 8192],
        };
        fill_calendar(&mut run.calendar);
        fill_tables(&mut run.tables);
        run
    }

    // Writes a call's line, and takes the book after it.
    fn tell(&mut self, rt: &impl Print, name: &str, done: Done) {
        let Done {
            number,
            book,
            claims,
        } = done;
        let lent = self.balances[LENT];
        let _ = println!(rt;
            "{name} {number} {} {} {claims} {lent}",
            book.day, book.count
        );
        self.book = book;
    }

    // Opens the book of the cases.
    fn open(&mut self, rt: &impl Print) {
        let done = tracker::calls::claim_tracker_open(
            &self.calendar,
            &self.tables,
            &mut self.balances,
            20230331,
        );
        self.tell(rt, "opening", done);
    }

    // Makes a transfer with a piece of security 0.
    fn transfer(&mut self, rt: &impl Print, name: &str, piece: u32, fields: Transfer) {
        let line = [32u8; 64];
        let mut message = [0u8; 141];
        let _ = writing::write_transfer(&mut message, fields, &line, &line);
        let mut claims = [0u8; 35];
        let mut pieces = [1u32; 16];
        pieces[0] = piece;
        let done = self.form.transfer(
            &self.calendar,
            &self.tables,
            &pieces,
            self.book,
            &mut self.balances,
            &message,
            &mut claims,
        );
        self.tell(rt, name, done);
    }

    // Makes a close.
    fn close(&mut self, rt: &impl Print, name: &str, claims: &mut [u8]) {
        let mut message = [0u8; 4];
        let _ = writing::write_close(&mut message);
        let done = self.form.close(
            &self.calendar,
            &self.tables,
            self.book,
            &mut self.balances,
            &message,
            claims,
        );
        self.tell(rt, name, done);
    }

    // Runs the cases, and answers the claim buffer of the close.
    fn run(&mut self, rt: &impl Print) -> [u8; 70] {
        let thousands = "start 1,500 in pieces of 1,000";
        let nothings = "start 1,500 in pieces of 0";
        let sevens = "return 15,000 in pieces of 7";
        self.open(rt);
        self.transfer(rt, "start 50,000", 1, loan(1, 1, 2, 50000));
        self.transfer(rt, "return 20,000", 1, loan(3, 2, 1, 20000));
        self.transfer(rt, "ADSR 15,000", 1, loan(6, 2, 1, 15000));
        self.transfer(rt, "ADSR 15,001", 1, loan(6, 2, 1, 15001));
        self.transfer(rt, thousands, 1000, loan(1, 1, 2, 1500));
        self.transfer(rt, nothings, 0, loan(1, 1, 2, 1500));
        let mut short = [0u8; 34];
        self.close(rt, "close without room", &mut short);
        let mut claims = [0u8; 70];
        self.close(rt, "close", &mut claims);
        print_cents(rt, &claims);
        self.transfer(rt, sevens, 7, loan(3, 2, 1, 15000));
        claims
    }
}

// Writes whether both forms leave the same balances and claim buffers.
fn print_same(rt: &impl Print, same_balances: bool, same_claims: bool) {
    let what = if !same_balances {
        "other balances"
    } else if !same_claims {
        "other claims"
    } else {
        "the same balances and claims"
    };
    let _ = println!(rt; "{what}");
}

fn main(rt: HostRuntime) {
    let mut by_value = Run::new(Form::ByValue);
    let _ = println!(&rt; "by value");
    let claims = by_value.run(&rt);
    let mut own_book = Run::new(Form::OwnBook);
    let _ = println!(&rt; "the caller's own book");
    let own_claims = own_book.run(&rt);
    print_same(
        &rt,
        by_value.balances == own_book.balances,
        claims == own_claims,
    );
}
