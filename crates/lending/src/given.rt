// What the passes of a close are given, gathered once for each level.

ghost use Rattle.std.specs.Prelude.{◌≡◌, true, length};
ghost use Rattle.lists.specs.All.{all};
ghost use Rattle.claims.specs.Turns.{Ready, SoundClose, small};

use amounts::ClaimType;
use days::Calendar;
use securities::{Row, Tables};

// A close of a sound book: its day, the next open day and the balances at it.
#[derive(Clone, Copy)]
pub struct Close<'a> {
    pub calendar: &'a Calendar<'a>,
    pub tables: &'a Tables<'a>,
    pub day: u32,
    pub next: u32,
    pub balances: &'a [u64],
    ghost sound: { SoundClose calendar.now tables.now day next },
    ghost words: { length balances.now ≡ 8192 },
    ghost small: { all small balances.now ≡ true },
}

// What the claims of a type on a row of a security are made from.
#[derive(Clone, Copy)]
pub(crate) struct Entry<'a> {
    pub(crate) calendar: &'a Calendar<'a>,
    pub(crate) tables: &'a Tables<'a>,
    pub(crate) day: u32,
    pub(crate) claim_type: ClaimType,
    pub(crate) security: u8,
    pub(crate) row: Row,
    ghost ready: { Ready security row },
}
