// Dates and open days (document 01, section Days). A number that is no date is not open, and no search finds a day from it.
#![tactic(auto)]

ghost use Rattle.std.specs.Prelude.{◌≡◌, true, ◌+◌, ◌*◌, ◌-◌, ◌≤◌, ◌<◌, ◌↔◌, List, ℕ, length, drop, IfSome, IsSome};
ghost use Rattle.days.specs.Days.{is_date, leap_day, month_length, checked, word_of, date_of, bad_from, bad_calendar};
ghost use Rattle.days.specs.Days.{is_open, lowest_from, seek_from, open_at, open_after, open_from, last_open, as_day};
ghost use Rattle.days.specs.MemoDay.{before_memo, day_within, six_months_before};

use std::marker::Model;

// A date: the number yyyymmdd, so date order is number order.
#[derive(Clone, Copy, Debug, PartialEq, Eq, PartialOrd, Ord)]
pub struct Date(pub u32);

impl Date {
    pub const FIRST: Date = Date(20000101);

    pub const LAST: Date = Date(20391231);

    // The date with the number n, if there is one.
    pub fn new(n: u32) -> Option<Date>
        ensures { result ≡ checked n }
    {
        if n < Self::FIRST.0 {
            return None;
        }
        if Self::LAST.0 < n {
            return None;
        }
        let m = n / 100 % 100;
        if m < 1 {
            return None;
        }
        if 12 < m {
            return None;
        }
        let d = n % 100;
        if d < 1 {
            return None;
        }
        // Every month has 28 days.
        if d <= 28 {
            return Some(Date(n));
        }
        if month_length(n / 10000, m) < d {
            return None;
        }
        Some(Date(n))
    }
}

// The leap day of year y, 1 or 0. Every fourth year has one, 2000 too, the only hundred here: 4 - y % 4 is 4 then, and less in the others.
fn leap_day(y: u32) -> u32
    requires { (1999 ≤ y) × (y < 2040) }
    ensures { result ≡ leap_day y }
{
    (4 - y % 4) / 4
}

// The length of month m of year y: 30 days, one more in a long month, two less in February, or one less where it has the leap day.
// Long are the odd months up to July and the even ones from August on, since from there on m / 8 is 1.
// Counted from March as 0, February is 11, the last, so dividing by 11 gives 1 for February and 0 for every other month.
pub fn month_length(y: u32, m: u32) -> u32
    requires { (1999 ≤ y) × (y < 2040) × (1 ≤ m) × (m ≤ 12) }
    ensures { result ≡ month_length y m }
{
    let long = (m + m / 8) % 2;
    let february = (m + 9) % 12 / 11;
    30 + long - february * (2 - leap_day(y))
}

// The word of a date's month.
fn word_of(n: u32) -> usize
    requires { is_date n ≡ true }
    ensures { (result ≡ word_of n) × (result < 480) }
{
    ((n / 10000 - 2000) * 12 + (n / 100 % 100 - 1)) as usize
}

// The number of day d, counted from 0, of the month of word m.
fn date_of(m: usize, d: u32) -> u32
    requires { (m < 480) × (d < 32) }
    ensures { result ≡ date_of m d }
{
    let n = m as u32;
    (2000 + n / 12) * 10000 + (n % 12 + 1) * 100 + (d + 1)
}

// Whether one of a year's twelve words has a bit for a day that its month lacks. Year 0 is 2000.
fn bad_year(y: u32, words: &[u32]) -> bool
    requires { (y < 40) × (length words.now ≡ 12) }
    ensures { result ≡ bad_from (12 * y) words.now }
{
    for m in 0..12 {
        let n = month_length(2000 + y, m + 1);
        if words[m as usize] >> n != 0 {
            return true;
        }
    }
    false
}

// The words of a calendar.
pub const CALENDAR_WORDS: usize = 480;

// A lent calendar: 480 words, one a month from January 2000, of which bit d − 1 is on when the month's day d is open.
#[derive(Drop)]
pub struct Calendar<'a> {
    months: &'a [u32],
}

impl<'a> Model for Calendar<'a> {
    ghost Value = { List ℕ };

    ghost view = { λ c. c.months.now };

    ghost invariant = { λ c. length c.months.now ≡ 480 };
}

impl<'a> Calendar<'a> {
    // The calendar of words, if they are 480.
    pub fn new(words: &'a [u32]) -> Option<Calendar<'a>>
        ensures value { IfSome result (λ c. c ≡ words.now) }
        ensures variant { IsSome result ↔ (length words.now ≡ 480) }
    {
        if words.len() == CALENDAR_WORDS {
            Some(Calendar { months: words })
        } else {
            None
        }
    }

    // Whether a bit is on for a day that its month lacks: number 2.
    pub fn is_bad(&self) -> bool
        ensures { result ≡ bad_calendar self.now }
    {
        for y in 0..40 {
            let a = 12 * (y as usize);
            if bad_year(y, &self.months[a..a + 12]) {
                return true;
            }
        }
        false
    }

    // Whether a number is an open date.
    pub fn is_open(&self, n: u32) -> bool
        ensures { result ≡ is_open self.now n }
    {
        match Date::new(n) {
            Some(_) => (self.months[word_of(n)] >> (n % 100 - 1)) % 2 == 1,
            None => false,
        }
    }

    // The first open day after a date.
    pub fn open_after(&self, n: u32) -> Option<Date>
        ensures { result ≡ as_day (open_after self.now n) }
    {
        open_at(self.months, n, 1)
    }

    // The first open day on or after a date.
    pub fn open_from(&self, n: u32) -> Option<Date>
        ensures { result ≡ as_day (open_from self.now n) }
    {
        open_at(self.months, n, 0)
    }

    // The last open day.
    pub fn last_open(&self) -> Option<Date>
        ensures { result ≡ as_day (last_open self.now) }
    {
        for m in (0..CALENDAR_WORDS).rev() {
            let w = self.months[m];
            if w != 0 {
                return Some(Date(date_of(m, 31 - u32::leading_zeros(w))));
            }
        }
        None
    }
}

// The lowest bit of w that is on at k or above, 32 where there is none.
fn lowest_from(w: u32, k: u32) -> u32
    requires { k < 32 }
    ensures { result ≡ lowest_from (32 - k) k w }
{
    u32::trailing_zeros(w & (0xffff_ffff << k))
}

// The first open day at bit k0 of word m0 or later.
fn seek(months: &[u32], m0: usize, k0: u32) -> Option<Date>
    requires { (k0 < 32) × (length months.now ≡ 480) }
    ensures { result ≡ as_day (seek_from (drop m0 months.now) m0 k0) }
{
    let mut k = k0;
    for m in m0..months.len() {
        let d = lowest_from(months[m], k);
        if d < 32 {
            return Some(Date(date_of(m, d)));
        }
        k = 0;
    }
    None
}

// The first open day from a date on, past its first skip bits. It is part of its callers' code, so that a close looks once at the Payment
// Date of a row for all claims on it.
#[inline(always)]
fn open_at(months: &[u32], n: u32, skip: u32) -> Option<Date>
    requires { (length months.now ≡ 480) × (skip ≤ 1) }
    ensures { result ≡ as_day (open_at months.now n skip) }
{
    Date::new(n)?;
    seek(months, word_of(n), n % 100 - 1 + skip)
}

// The first day under the 2023 memo.
const MEMO_DAY: u32 = 20230130;

// Whether a day is before the 2023 memo.
pub fn before_memo(day: u32) -> bool
    ensures { result ≡ before_memo day }
{
    day < MEMO_DAY
}

// Day d of month m of year y, or that month's last day if it is shorter.
fn day_within(y: u32, m: u32, d: u32) -> u32
    requires { (1999 ≤ y) × (y < 2040) × (1 ≤ m) × (m ≤ 12) × (d ≤ 31) }
    ensures { result ≡ day_within y m d }
{
    let last = month_length(y, m);
    if d <= last {
        return y * 10000 + m * 100 + d;
    }
    y * 10000 + m * 100 + last
}

// The same day six months earlier, or that month's last day if it is shorter.
pub fn six_months_before(n: u32) -> u32
    requires { is_date n ≡ true }
    ensures { result ≡ six_months_before n }
{
    let y = n / 10000;
    let m = n / 100 % 100;
    let d = n % 100;
    if 6 < m {
        return day_within(y, m - 6, d);
    }
    day_within(y - 1, m + 6, d)
}
