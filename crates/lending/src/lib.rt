// The claims of a close on the par on loan and on repo (document 01, section Close; document 02, card 3), counted and stored by one set
// of loops: a pass with write false counts them, one with write true stores them too. Calendar and tables are sound, and balances are at
// most 9,000,000,000.
#![tactic(auto)]

ghost use Rattle.std.specs.Prelude.{◌≡◌, true, ◌≤◌, ◌<◌, length};
ghost use Rattle.lists.specs.All.{all};
ghost use Rattle.claims.specs.Close.{tracking_claims};
ghost use Rattle.claims.specs.Passes.{Free, Passed};
ghost use Rattle.claims.specs.Turns.{Ready, Sound, small};
ghost use Rattle.amounts.specs.Numbers.{type_number};
ghost use Rattle.lending.specs.Levels.{loan_level, lender_level, tracking_level, row_level, turn_level, security_level, close_level};

pub mod given;

use crate::given::{Close, Entry};
use amounts::{ClaimType, claim_on, put_claim};
use claims::Parties;
use records::Dollars;
use securities::Row;

const SECURITIES: u8 = 16;

const ROWS: u8 = 16;

const ACCOUNTS: u8 = 16;

impl Entry<'_> {
    // The claim that a borrower pays a lender: none where there is no par.
    fn pass_loan(
        &self,
        write: bool,
        buffer: &mut [u8],
        n: usize,
        lender: u8,
        borrower: u8,
        par: u64,
    ) -> usize
        requires { (borrower < 16) × (par ≤ 9000000000) × Free write buffer.old n (loan_level self.now lender borrower par) }
        ensures { Passed write buffer.old buffer.new n result (loan_level self.now lender borrower par) }
    {
        if par == 0 {
            return n;
        }
        if write {
            let parties = Parties {
                security: self.security,
                payee: lender,
                payer: borrower,
            };
            let c = claim_on(
                self.calendar,
                self.tables,
                self.day,
                0,
                parties,
                Dollars(par),
                self.claim_type.number(),
                self.row,
            );
            put_claim(buffer, n, c);
        }
        n + 1
    }

    // The claims of a lender, by borrower; lent is what it has lent each of the 16.
    fn pass_lender(
        &self,
        write: bool,
        buffer: &mut [u8],
        n: usize,
        lender: u8,
        lent: &[u64],
    ) -> usize
        requires { (length lent.now ≡ 16) × (all small lent.now ≡ true) × Free write buffer.old n (lender_level self.now lender lent.now) }
        ensures { Passed write buffer.old buffer.new n result (lender_level self.now lender lent.now) }
    {
        let mut m = n;
        for (borrower, par) in lent.iter().enumerate() {
            m = self.pass_loan(write, buffer, m, lender, borrower as u8, *par);
        }
        m
    }

    // The claims by lender and borrower; held is the balances of the tracking in the security. What they are made from is copied first, so
    // that it need not be read again behind each claim that is stored.
    fn pass_tracking(&self, write: bool, buffer: &mut [u8], n: usize, held: &[u64]) -> usize
        requires { (length held.now ≡ 256) × (all small held.now ≡ true) × Free write buffer.old n (tracking_level self.now held.now) }
        ensures { Passed write buffer.old buffer.new n result (tracking_level self.now held.now) }
    {
        let entry = *self;
        let mut m = n;
        for lender in 0..ACCOUNTS {
            let at = 16 * lender as usize;
            m = entry.pass_lender(write, buffer, m, lender, &held[at..at + 16]);
        }
        m
    }
}

impl<'a> Close<'a> {
    // A row of a security with the type of its claims.
    fn entry(&self, claim_type: ClaimType, security: u8, row: Row) -> Entry<'a>
        requires { Ready security row }
        ensures { tracking_level result
            ≡ (λ held. tracking_claims self.now.calendar.now self.now.tables.now self.now.day (type_number claim_type) security held row) }
    {
        Entry {
            calendar: self.calendar,
            tables: self.tables,
            day: self.day,
            claim_type,
            security,
            row,
        }
    }

    // The claims on a row, lending before repo.
    fn pass_row(&self, write: bool, buffer: &mut [u8], n: usize, security: u8, row: Row) -> usize
        requires { Ready security row × Free write buffer.old n (row_level self.now security row) }
        ensures { Passed write buffer.old buffer.new n result (row_level self.now security row) }
    {
        let on_loan = 256 * security as usize;
        let on_repo = 4096 + on_loan;
        let lending = self.entry(ClaimType::Lending, security, row);
        let repo = self.entry(ClaimType::Repo, security, row);
        let m = lending.pass_tracking(write, buffer, n, &self.balances[on_loan..on_loan + 256]);
        repo.pass_tracking(write, buffer, m, &self.balances[on_repo..on_repo + 256])
    }

    // The claims on a row if the close crosses it.
    fn pass_turn(&self, write: bool, buffer: &mut [u8], n: usize, security: u8, row: Row) -> usize
        requires { Sound self.now.calendar.now self.now.tables.now self.now.day self.now.next security row
            × Free write buffer.old n (turn_level self.now security row) }
        ensures { Passed write buffer.old buffer.new n result (turn_level self.now security row) }
    {
        if self.day < row.record_date && row.record_date <= self.next {
            self.pass_row(write, buffer, n, security, row)
        } else {
            n
        }
    }

    // The claims on a security's rows.
    fn pass_security(&self, write: bool, buffer: &mut [u8], n: usize, security: u8) -> usize
        requires { (security < 16) × Free write buffer.old n (security_level self.now security) }
        ensures { Passed write buffer.old buffer.new n result (security_level self.now security) }
    {
        let mut m = n;
        for index in 0..ROWS {
            m = self.pass_turn(write, buffer, m, security, self.tables.row(security, index));
        }
        m
    }

    // The claims of the close, in the order security, row, tracking, lender, borrower. It answers how many there are.
    pub fn pass_close(&self, write: bool, buffer: &mut [u8]) -> usize
        requires { Free write buffer.old 0 (close_level self.now) }
        ensures { Passed write buffer.old buffer.new 0 result (close_level self.now) }
    {
        let mut m = 0;
        for security in 0..SECURITIES {
            m = self.pass_security(write, buffer, m, security);
        }
        m
    }
}
