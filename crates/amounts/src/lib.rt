// One claim on a row (document 01, section Amounts, outcomes, release): its amounts, outcome, release and slot, and its record in a
// claim buffer.
#![tactic(auto)]

ghost use Rattle.std.specs.Prelude.{◌≡◌, cond, ◌&&◌, ℕ, ◌+◌, ◌*◌, ◌≤◌, ◌<◌, eqb, leb, length};
ghost use Rattle.lists.specs.Put.{put};
ghost use Rattle.days.specs.Days.{day_number};
ghost use Rattle.claims.specs.Amounts.{interim_type, cents_on, is_tracked, outcome_of, is_late, release_of, is_early, slot_of, claim_on};
ghost use Rattle.claims.specs.Claimable.{Claimable};
ghost use Rattle.claims.specs.Written.{claim_bytes};
ghost use Rattle.amounts.specs.Numbers.{type_number, outcome_number};

use claims::Parties;
use days::{Calendar, Date};
use records::{Cents, Claim, Dollars};
use securities::{Row, Tables};

// The type of a claim.
#[derive(Clone, Copy, Debug, PartialEq, Eq)]
pub enum ClaimType {
    Fail,
    Interim,
    Lending,
    Repo,
}

impl ClaimType {
    // The number that a claim's record gives for it.
    #[tactic(auto, unfolding(crate::specs::Numbers::type_number))]
    pub fn number(self) -> u8
        ensures { result ≡ type_number self }
    {
        match self {
            ClaimType::Fail => 1,
            ClaimType::Interim => 2,
            ClaimType::Lending => 3,
            ClaimType::Repo => 4,
        }
    }
}

// Whether a claim of the type is one on par on loan or on repo.
#[tactic(auto, unfolding(claims::specs::Amounts::is_tracked, crate::specs::Numbers::type_number))]
fn is_tracked(claim_type: u8) -> bool
    ensures { result ≡ is_tracked claim_type }
{
    claim_type == ClaimType::Lending.number() || claim_type == ClaimType::Repo.number()
}

// Whether a claim of the type is a fail or interim claim with Payment Date on or before the day.
#[tactic(auto, unfolding(claims::specs::Amounts::is_late, crate::specs::Numbers::type_number))]
fn is_late(claim_type: u8, day: u32, row: Row) -> bool
    ensures { result ≡ is_late claim_type day row }
{
    claim_type <= ClaimType::Interim.number() && row.payment_date <= day
}

// What becomes of a claim: it settles, or it is a notice.
#[derive(Clone, Copy, Debug, PartialEq, Eq)]
enum Outcome {
    Settle,
    // Both amounts are zero.
    Nothing,
    // The payment redeems a security on loan or on repo.
    Redeemed,
    // The payer's mask bit is on.
    Masked,
}

impl Outcome {
    // The outcome, the first that applies.
    #[tactic(auto, unfolding(claims::specs::Amounts::outcome_of, days::specs::Days::bit_on, crate::specs::Numbers::outcome_number))]
    fn of(claim_type: u8, payer: u8, row: Row, interest: Cents, principal: Cents) -> Outcome
        requires { payer < 16 }
        ensures { outcome_number result ≡ outcome_of claim_type payer row interest.0 principal.0 }
    {
        if interest.0 == 0 && principal.0 == 0 {
            Outcome::Nothing
        } else if is_tracked(claim_type) && row.redeems == 1 {
            Outcome::Redeemed
        } else if (row.mask >> payer) % 2 == 1 {
            Outcome::Masked
        } else {
            Outcome::Settle
        }
    }

    // The number that a claim's record gives for it.
    #[tactic(auto, unfolding(crate::specs::Numbers::outcome_number))]
    fn number(self) -> u8
        ensures { result ≡ outcome_number self }
    {
        match self {
            Outcome::Settle => 0,
            Outcome::Nothing => 1,
            Outcome::Redeemed => 2,
            Outcome::Masked => 3,
        }
    }
}

// The cents on whole dollars of par at a factor in billionths of a dollar; half a cent goes up.
#[tactic(auto, unfolding(claims::specs::Amounts::cents_on))]
fn cents_on(par: Dollars, factor: u32) -> Cents
    requires { (par.0 ≤ 9000000000) × (factor ≤ 2000000000) }
    ensures { result.0 ≡ cents_on par.0 factor }
{
    Cents((par.0 * u64::from(factor) + 5000000) / 10000000)
}

// The number of a day, 0 where there is none.
#[tactic(auto, unfolding(days::specs::Days::day_number))]
fn number_of(day: Option<Date>) -> u32
    ensures { result ≡ day_number day }
{
    day.map_or(0, |date| date.0)
}

// The release date, 0 for a notice.
#[tactic(auto, using(days::proofs::OpenDays::day_number_lem), unfolding(claims::specs::Amounts::release_of, crate::specs::Numbers::outcome_number))]
fn release(calendar: &Calendar<'_>, claim_type: u8, day: u32, row: Row, outcome: Outcome) -> u32
    ensures { result ≡ release_of calendar.now claim_type day row (outcome_number outcome) }
{
    match outcome {
        Outcome::Settle if is_late(claim_type, day, row) => number_of(calendar.open_after(day)),
        Outcome::Settle => number_of(calendar.open_from(row.payment_date)),
        _ => 0,
    }
}

// Whether securities of a type are released early in the day.
#[tactic(auto, unfolding(claims::specs::Amounts::is_early))]
fn is_early(security_type: u32) -> bool
    ensures { result ≡ is_early security_type }
{
    security_type == 1 || security_type == 4
}

// The slot, 0 for a notice.
#[tactic(auto, unfolding(claims::specs::Amounts::slot_of, crate::specs::Numbers::outcome_number))]
fn slot(security_type: u32, claim_type: u8, day: u32, row: Row, outcome: Outcome) -> u8
    ensures { result ≡ slot_of security_type claim_type day row (outcome_number outcome) }
{
    match outcome {
        Outcome::Settle if is_late(claim_type, day, row) => 2,
        Outcome::Settle if is_early(security_type) => 1,
        Outcome::Settle => 3,
        _ => 0,
    }
}

// The claim of a type, given by its number, on a row.
#[tactic(auto, unfolding(claims::specs::Amounts::claim_on, claims::specs::Amounts::amount, claims::specs::Amounts::factor_for, claims::specs::Amounts::cents_for))]
pub fn claim_on(
    calendar: &Calendar<'_>,
    tables: &Tables<'_>,
    day: u32,
    number: u32,
    parties: Parties,
    par: Dollars,
    claim_type: u8,
    row: Row,
) -> Claim
    requires { Claimable parties par.0 row }
    ensures { result ≡ claim_on calendar.now tables.now day number parties par.0 claim_type row }
{
    let interest = cents_on(par, row.interest_factor);
    let principal = cents_on(par, row.principal_factor);
    let outcome = Outcome::of(claim_type, parties.payer, row, interest, principal);
    let security_type = tables.security_type(parties.security);
    Claim {
        claim_type,
        outcome: outcome.number(),
        payer: parties.payer,
        payee: parties.payee,
        security: parties.security,
        row: row.index,
        transfer: number,
        interest,
        principal,
        release: release(calendar, claim_type, day, row, outcome),
        slot: slot(security_type, claim_type, day, row, outcome),
    }
}

// Stores a claim's record at the record place n of a claim buffer.
pub fn put_claim(buffer: &mut [u8], n: usize, c: Claim)
    requires { 35 * n + 35 ≤ length buffer.old }
    ensures { buffer.new ≡ put buffer.old (35 * n) (claim_bytes c) }
{
    let at = 35 * n;
    // There is room, so the writer refuses nothing.
    let _ = writing::write_claim(&mut buffer[at..], c);
}
