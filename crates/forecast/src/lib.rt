// The cash forecast (document 02, card 10): for one account and one release date, the cents to pay and to receive by a run of claim records,
// and their difference, as doubles. The definitions are those of the crate cash. Every run is taken, of any length.
#![tactic(auto)]

ghost use Rattle.std.specs.Prelude.{◌≡◌, cond, ◌&&◌, ◌+◌, ◌≤◌, eqb};
ghost use Rattle.claims.specs.Written.{read_claim};
ghost use Rattle.cash.specs.Cash.{good_parties, counts, cents_of, exact_limit, bad_wanted, past_limit};
ghost use Rattle.cash.specs.Cash.{whole_cash, as_doubles, forecast_of};
ghost use Rattle.forecast.specs.Adding.{capped, with_read, sums_of, good_so_far, judged, answered};

use cash::{Cash, CashForecast};
use days::Date;
use records::{Cents, Claim, Refusal};

// The sums of an account over records.
#[derive(Clone, Copy, Debug, PartialEq, Eq)]
pub struct Sums {
    pub pay: u64,
    pub receive: u64,
}

// Each whole number up to this one is exact as a double.
const LIMIT: u64 = 9007199254740992;

// The bytes of a claim record.
const CLAIM_BYTES: usize = 35;

// A sum with an amount more, or the first number past the limit.
fn plus(sum: u64, amount: u64) -> u64
    requires { sum ≤ exact_limit + 1 }
    ensures { result ≡ capped (sum + amount) }
{
    if LIMIT + 1 - sum <= amount {
        LIMIT + 1
    } else {
        sum + amount
    }
}

// A sum with what a claim adds to it: its cents, where it counts on the date and this party of it is the account.
fn with_claim(sum: u64, c: Claim, party: u8, account: u32, date: u32) -> u64
    requires { sum ≤ exact_limit + 1 }
    ensures { result ≡ capped (sum + cond (counts date c && eqb party account) (cents_of c) 0) }
{
    if c.release != date {
        return sum;
    }
    if c.outcome != 0 {
        return sum;
    }
    if party as u32 != account {
        return sum;
    }
    plus(plus(sum, c.interest.0), c.principal.0)
}

// Whether payer and payee of a claim are two different accounts.
fn good_parties(c: Claim) -> bool
    ensures { result ≡ good_parties c }
{
    if c.payer == c.payee {
        return false;
    }
    if 15 < c.payer {
        return false;
    }
    c.payee <= 15
}

// The sums with the record at the start of some bytes, unless that is bad.
fn with_record(sums: Sums, bytes: &[u8], account: u32, date: u32) -> Result<Sums, Refusal>
    requires { (sums.pay ≤ exact_limit + 1) × (sums.receive ≤ exact_limit + 1) }
    ensures { result ≡ judged (with_read (good_so_far sums) (read_claim bytes.now) account date) }
{
    let Some(c) = reading::read_claim(bytes) else {
        return Err(Refusal::Claims);
    };
    if !good_parties(c) {
        return Err(Refusal::Claims);
    }
    Ok(Sums {
        pay: with_claim(sums.pay, c, c.payer, account, date),
        receive: with_claim(sums.receive, c, c.payee, account, date),
    })
}

// The sums of an account over a run of claim records, in one pass, unless a record is bad.
fn sums_of(claims: &[u8], account: u32, date: u32) -> Result<Sums, Refusal>
    ensures { result ≡ judged (sums_of claims.now account date) }
{
    let mut sums = Sums { pay: 0, receive: 0 };
    let mut rest = claims;
    while !rest.is_empty() {
        sums = with_record(sums, rest, account, date)?;
        rest = &rest[CLAIM_BYTES.min(rest.len())..];
    }
    Ok(sums)
}

// Whole cents as doubles, without loss, with their difference.
fn cash_of(pay: Cents, receive: Cents) -> Cash
    requires { (pay.0 ≤ exact_limit) × (receive.0 ≤ exact_limit) }
    ensures { result ≡ as_doubles (whole_cash pay.0 receive.0) }
{
    let p = pay.0;
    let q = receive.0;
    Cash {
        pay: p as f64,
        receive: q as f64,
        difference: (q as i64 - p as i64) as f64,
    }
}

// Whether the account is above 15 or the date is none.
fn bad_wanted(account: u32, date: u32) -> bool
    ensures { result ≡ bad_wanted account date }
{
    if 15 < account {
        return true;
    }
    Date::new(date).is_none()
}

// Whether one of the sums is past the limit.
fn past_limit(sums: Sums) -> bool
    ensures { result ≡ past_limit sums.pay sums.receive }
{
    if LIMIT < sums.pay {
        return true;
    }
    LIMIT < sums.receive
}

// The figures of an account for a release date, from a run of claim records.
fn figures(claims: &[u8], account: u32, date: u32) -> Result<Cash, Refusal>
    ensures { answered result ≡ forecast_of claims.now account date }
{
    if bad_wanted(account, date) {
        return Err(Refusal::Claims);
    }
    let sums = sums_of(claims, account, date)?;
    if past_limit(sums) {
        return Err(Refusal::Sum);
    }
    Ok(cash_of(Cents(sums.pay), Cents(sums.receive)))
}

// The cash forecast of an account for a release date, from a run of claim records. Refused, with 18 or 19, it has three zeros.
pub fn forecast(claims: &[u8], account: u32, date: u32) -> CashForecast
    ensures { result ≡ forecast_of claims.now account date }
{
    match figures(claims, account, date) {
        Ok(cash) => CashForecast { number: 0, cash },
        Err(refusal) => CashForecast {
            number: refusal.number(),
            cash: cash_of(Cents(0), Cents(0)),
        },
    }
}
