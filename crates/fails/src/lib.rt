// The claims of a transfer (document 01, section Fail claims; document 02, card 1, interim claims, card 2, long-delay pools, card 5, date
// limits, and card 7, days before the 2023 memo). Failed: the most recent rows that the day has reached by Beneficiary Date, up to the
// maximum number of the limits lent, and of these each with a Beneficiary Date after the Contract Date; MBS leaves out those that wait for
// their Payment Date behind the first that does. Before the memo: of MBS each such row of the last half year. Interim: the rows behind
// them that it has reached by Record Date. Tables keep their rules, so filled rows come first and both dates rise. A pass with write false
// counts the claims, one with write true stores them too.
#![tactic(auto)]

ghost use Rattle.std.specs.Prelude.{◌≡◌, true, ◌-◌, ◌≤◌, ◌<◌};
ghost use Rattle.days.specs.Days.{is_date};
ghost use Rattle.securities.specs.Securities.{security_of, frequency_of};
ghost use Rattle.claims.specs.Passes.{Free, Passed};
ghost use Rattle.claims.specs.Reached.{is_reached, reached_from, reached_rows, interim_end, is_waiting, waiting_row, after_both, Claiming};
ghost use Rattle.fails.specs.Recent.{column, untagged_rows, rows_before, rows_now, recent_rows, due_type, recent_claims};

use amounts::ClaimType;
use claims::Parties;
use days::Calendar;
use records::Transfer;
use securities::{Limits, Row, Tables};
use tags::Tag;

// The rows of a security.
const ROWS: u8 = 16;

// The rows on which a transfer claims: those from first up to reached as failed if their Beneficiary Date is behind the number after and,
// behind the waiting row, their Payment Date is not after the day; those from reached up to end as interim.
#[derive(Clone, Copy, Debug, PartialEq, Eq)]
pub struct Recent {
    pub after: u32,
    pub first: u8,
    pub reached: u8,
    pub end: u8,
    pub waiting: u8,
}

// No rows: the tracking code is not 0.
const NO_ROWS: Recent = Recent {
    after: 0,
    first: 0,
    reached: 0,
    end: 0,
    waiting: 0,
};

// The date by which the day reaches a row.
#[derive(Clone, Copy, Debug, PartialEq, Eq)]
enum RowDate {
    Record,
    Beneficiary,
}

impl RowDate {
    // Whether a row has that date on or before the day.
    #[tactic(auto, unfolding(claims::specs::Reached::is_reached, claims::specs::Reached::date_at))]
    fn is_reached(self, day: u32, row: Row) -> bool
        ensures { result ≡ is_reached (column self) day row }
    {
        let date = match self {
            RowDate::Record => row.record_date,
            RowDate::Beneficiary => row.beneficiary_date,
        };
        0 < date && date <= day
    }
}

// The row behind those of a security, from a first one on, that the day has reached by that date.
fn reached_rows(tables: &Tables<'_>, security: u8, day: u32, by: RowDate, first: u8) -> u8
    requires { (security < 16) × (first ≤ 16) }
    ensures { result ≡ reached_from (column by) tables.now security day first }
{
    (first..ROWS)
        .find(
            |i|
                requires { (i.now < 16) × (security < 16) }
            { !by.is_reached(day, tables.row(security, *i)) },
        )
        .unwrap_or(ROWS)
}

// The row behind the interim rows, which begin behind the rows that the day has reached by Beneficiary Date; of MBS alone there are any.
#[tactic(auto, using(claims::proofs::Reached::few_reached), unfolding(claims::specs::Reached::interim_end, claims::specs::Reached::reached_rows))]
fn interim_end(tables: &Tables<'_>, security: u8, day: u32, reached: u8) -> u8
    requires { (security < 16) × (reached ≡ reached_rows tables.now security day) }
    ensures { result ≡ interim_end tables.now security day }
{
    if tables.is_mbs(security) {
        reached_rows(tables, security, day, RowDate::Record, reached)
    } else {
        reached
    }
}

// Whether a row waits for its Payment Date and has its Beneficiary Date after the Contract Date.
#[tactic(auto, unfolding(claims::specs::Reached::is_waiting, claims::specs::Fails::waits))]
fn is_waiting(contract: u32, day: u32, row: Row) -> bool
    ensures { result ≡ is_waiting contract day row }
{
    contract < row.beneficiary_date && day < row.payment_date
}

// The first row of MBS, from a first one up to the reached ones, that waits for its Payment Date and has its Beneficiary Date after the
// Contract Date; the row behind them for other types and where there is none.
fn waiting_row(
    tables: &Tables<'_>,
    security: u8,
    contract: u32,
    day: u32,
    first: u8,
    reached: u8,
) -> u8
    requires { (security < 16) × (first ≤ reached) × (reached ≡ reached_rows tables.now security day) }
    ensures { result ≡ waiting_row tables.now security contract day first }
{
    if !tables.is_mbs(security) {
        return reached;
    }
    (first..reached)
        .find(
            |i|
                requires { (i.now < 16) × (security < 16) }
            { is_waiting(contract, day, tables.row(security, *i)) },
        )
        .unwrap_or(reached)
}

// The number behind which a date is after the Contract Date and on or after another date.
#[tactic(auto, unfolding(claims::specs::Reached::after_both))]
fn after_both(contract: u32, from: u32) -> u32
    ensures { result ≡ after_both contract from }
{
    contract.max(from.saturating_sub(1))
}

// The rows of a transfer without a date in its tag: none is claimed as failed.
#[tactic(auto, unfolding(crate::specs::Recent::untagged_rows, claims::specs::Reached::reached_rows))]
fn untagged_rows(tables: &Tables<'_>, day: u32, t: Transfer) -> Recent
    requires { t.security < 16 }
    ensures { result ≡ untagged_rows tables.now day t }
{
    let reached = reached_rows(tables, t.security, day, RowDate::Beneficiary, 0);
    Recent {
        after: 0,
        first: reached,
        reached,
        end: interim_end(tables, t.security, day, reached),
        waiting: reached,
    }
}

// The rows of a transfer with a Contract Date before the 2023 memo: of MBS all that are reached, within the half year; of other types none.
#[tactic(auto, unfolding(crate::specs::Recent::rows_before, crate::specs::Recent::untagged_rows, claims::specs::Reached::first_before))]
fn rows_before(
    tables: &Tables<'_>,
    day: u32,
    t: Transfer,
    contract: u32,
    untagged: Recent,
) -> Recent
    requires { (t.security < 16) × (is_date day ≡ true) × (untagged ≡ untagged_rows tables.now day t) }
    ensures { result ≡ rows_before tables.now day t contract }
{
    Recent {
        after: after_both(contract, days::six_months_before(day)),
        first: if tables.is_mbs(t.security) {
            0
        } else {
            untagged.reached
        },
        ..untagged
    }
}

// The rows of a transfer with a Contract Date from the memo on: the most recent that are reached, up to the maximum number.
#[tactic(auto, unfolding(crate::specs::Recent::rows_now, crate::specs::Recent::untagged_rows))]
fn rows_now(
    tables: &Tables<'_>,
    limits: &Limits<'_>,
    day: u32,
    t: Transfer,
    contract: u32,
    untagged: Recent,
) -> Recent
    requires { (t.security < 16) × (frequency_of (security_of tables.now t.security) ≤ 4) × (untagged ≡ untagged_rows tables.now day t) }
    ensures { result ≡ rows_now tables.now limits.now day t contract }
{
    let reached = untagged.reached;
    let maximum = limits.maximum(tables, t.security);
    let first = u32::from(reached).saturating_sub(maximum) as u8;
    Recent {
        after: contract,
        first,
        waiting: waiting_row(tables, t.security, contract, day, first, reached),
        ..untagged
    }
}

// The rows on which a transfer claims, found once for both passes.
#[tactic(auto, unfolding(crate::specs::Recent::recent_rows, tags::specs::ContractDateTag::tagged, tags::specs::ContractDateTag::contract_date))]
pub fn recent_rows(
    tables: &Tables<'_>,
    limits: &Limits<'_>,
    day: u32,
    t: Transfer,
    tag: Tag,
) -> Recent
    requires { (t.security < 16) × (frequency_of (security_of tables.now t.security) ≤ 4) × (is_date day ≡ true) }
    ensures { result ≡ recent_rows tables.now limits.now day t tag }
{
    if t.code != 0 {
        return NO_ROWS;
    }
    let untagged = untagged_rows(tables, day, t);
    match tag {
        Tag::On(date) if days::before_memo(day) => rows_before(tables, day, t, date.0, untagged),
        Tag::On(date) => rows_now(tables, limits, day, t, date.0, untagged),
        _ => untagged,
    }
}

// The claim type of a row, none where it is not claimed.
#[tactic(auto, unfolding(crate::specs::Recent::due_type, claims::specs::Reached::is_kept_by, claims::specs::Fails::waits))]
fn due_type(rows: Recent, day: u32, row: Row) -> Option<ClaimType>
    ensures { result ≡ due_type day rows row }
{
    if rows.reached <= row.index {
        Some(ClaimType::Interim)
    } else if rows.after < row.beneficiary_date
        && (row.index <= rows.waiting || row.payment_date <= day)
    {
        Some(ClaimType::Fail)
    } else {
        None
    }
}

// The claims on the rows, counted, or stored from the buffer's start; how many there are.
pub fn transfer_claims(
    write: bool,
    buffer: &mut [u8],
    calendar: &Calendar<'_>,
    tables: &Tables<'_>,
    day: u32,
    number: u32,
    t: Transfer,
    rows: Recent,
) -> usize
    requires { Claiming tables.now t × (rows.first ≤ rows.end) × (rows.end ≤ 16)
        × Free write buffer.old 0 (recent_claims calendar.now tables.now day number t rows) }
    ensures { Passed write buffer.old buffer.new 0 result
        (recent_claims calendar.now tables.now day number t rows) }
{
    let parties = Parties {
        security: t.security,
        payee: t.receiver,
        payer: t.sender,
    };
    let mut n = 0;
    for index in rows.first..rows.end {
        let row = tables.row(t.security, index);
        if let Some(claim_type) = due_type(rows, day, row) {
            if write {
                let c = amounts::claim_on(
                    calendar,
                    tables,
                    day,
                    number,
                    parties,
                    t.dollars(),
                    claim_type.number(),
                    row,
                );
                amounts::put_claim(buffer, n, c);
            }
            n += 1;
        }
    }
    n
}
