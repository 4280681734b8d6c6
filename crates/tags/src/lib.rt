// The Contract Date tag of a transfer's two free text lines, and its edits (document 01, section Contract Date tag; document 02, card 7).
// Every answer is a case of Tag; nothing is assumed of the bytes.
#![tactic(auto)]

ghost use Rattle.std.specs.Prelude.{◌≡◌, ◌+◌, ◌≤◌, length, get_or};
ghost use Rattle.lists.specs.First.{first_of};
ghost use Rattle.lists.specs.Sums.{sum};
ghost use Rattle.records.specs.Refusals.{judged_number};
ghost use Rattle.tags.specs.Quick.{brace_of};
ghost use Rattle.tags.specs.ContractDateTag.{openers, end_from, tag_holding, tag_at, tag_of, on_day, edit_causes};

use days::Date;
use records::Refusal;

const OPENER: [u8; 10] = *b"{98A:CNTR/";

// What the Contract Date tag says: there is no opener; there are several; no } follows; it follows at once; what it holds is not a date;
// the date.
#[derive(Clone, Copy, Debug, PartialEq, Eq)]
pub enum Tag {
    Absent,
    Several,
    Unended,
    Empty,
    NotDate,
    On(Date),
}

// How many openers a line has, and the place of the first, 0 where there is none.
#[derive(Clone, Copy)]
struct Found {
    count: usize,
    first: usize,
}

// The openers of a line, which is searched up to its end.
fn scan(line: &[u8]) -> Found
    requires { length line.now ≡ 64 }
    ensures { (result.count ≡ length (openers line.now)) × (result.first ≡ get_or (openers line.now) 0 0)
        × (result.first ≤ 54) × (result.count ≤ 55) }
{
    let mut count: usize = 0;
    let mut first: usize = 0;
    'scan: for i in 0..line.len() - 9 {
        let part = &line[i..i + 10];
        for j in 0..10 {
            if part[j] != OPENER[j] {
                continue 'scan;
            }
        }
        if count == 0 {
            first = i;
        }
        count += 1;
    }
    Found { count, first }
}

// What a byte adds to the count of {.
fn brace(byte: u8) -> u8
    ensures { result ≡ brace_of byte }
{
    if byte == b'{' {
        return 1;
    }
    0
}

// How many bytes of a line are {, counted without a way out of the loop, so that many can be taken at once.
fn braces(line: &[u8]) -> u8
    requires { length line.now ≡ 64 }
    ensures { result ≡ sum brace_of line.now }
{
    let mut n: u8 = 0;
    for i in 0..64 {
        n += brace(line[i]);
    }
    n
}

// The openers of a line: only one that has a { is searched.
fn openers_in(line: &[u8]) -> Found
    requires { length line.now ≡ 64 }
    ensures { (result.count ≡ length (openers line.now)) × (result.first ≡ get_or (openers line.now) 0 0)
        × (result.first ≤ 54) × (result.count ≤ 55) }
{
    if braces(line) == 0 {
        return Found { count: 0, first: 0 };
    }
    scan(line)
}

// The place of the first } from a place on, the line's length where there is none.
fn end_from(line: &[u8], start: usize) -> usize
    requires { start ≤ length line.now }
    ensures { result ≡ end_from line.now start }
{
    let mut i = start;
    loop {
        if line.len() <= i {
            break i;
        }
        if line[i] == b'}' {
            break i;
        }
        i += 1;
    }
}

// The tag that holds these bytes: a date if they are exactly eight digits that are one.
fn tag_holding(content: &[u8]) -> Tag
    ensures { result ≡ tag_holding content.now }
{
    if content.len() != 8 {
        return Tag::NotDate;
    }
    let mut n: u32 = 0;
    for &b in content {
        if b < b'0' {
            return Tag::NotDate;
        }
        if b'9' < b {
            return Tag::NotDate;
        }
        n = n * 10 + (b - b'0') as u32;
    }
    match Date::new(n) {
        Some(date) => Tag::On(date),
        None => Tag::NotDate,
    }
}

// The tag whose opener stands at a place of a line.
fn tag_at(line: &[u8], at: usize) -> Tag
    requires { (length line.now ≡ 64) × (at ≤ 54) }
    ensures { result ≡ tag_at line.now at }
{
    let start = at + 10;
    let end = end_from(line, start);
    if line.len() <= end {
        return Tag::Unended;
    }
    if end == start {
        return Tag::Empty;
    }
    tag_holding(&line[start..end])
}

// The tag of a transfer's two lines.
fn tag_of(first: &[u8], second: &[u8]) -> Tag
    requires { (length first.now ≡ 64) × (length second.now ≡ 64) }
    ensures { result ≡ tag_of first.now second.now }
{
    let a = openers_in(first);
    let b = openers_in(second);
    let count = a.count + b.count;
    if count == 0 {
        return Tag::Absent;
    }
    if 1 < count {
        return Tag::Several;
    }
    if a.count == 1 {
        return tag_at(first, a.first);
    }
    tag_at(second, b.first)
}

// The tag as the book's day takes it: before the 2023 memo an empty one means the day itself.
fn on_day(day: u32, tag: Tag) -> Tag
    ensures { result ≡ on_day day tag }
{
    let Tag::Empty = tag else {
        return tag;
    };
    if days::before_memo(day) {
        return Tag::On(Date(day));
    }
    Tag::Empty
}

// The tag of a transfer's two lines on the book's day.
pub fn tag_on(day: u32, first: &[u8], second: &[u8]) -> Tag
    requires { (length first.now ≡ 64) × (length second.now ≡ 64) }
    ensures { result ≡ on_day day (tag_of first.now second.now) }
{
    on_day(day, tag_of(first, second))
}

// The edits of a transfer: the first that refuses it.
pub fn edits(tag: Tag, class: u8, day: u32) -> Result<(), Refusal>
    ensures { judged_number result ≡ first_of (edit_causes tag class day) }
{
    match tag {
        Tag::Absent => Ok(()),
        Tag::Several => Err(Refusal::SeveralTags),
        Tag::Unended => Err(Refusal::UnendedTag),
        Tag::Empty => Err(Refusal::TagNotDate),
        Tag::NotDate => Err(Refusal::TagNotDate),
        Tag::On(date) => date_edits(date, class, day),
    }
}

// The edits of a tag with a date.
fn date_edits(date: Date, class: u8, day: u32) -> Result<(), Refusal>
    ensures { judged_number result ≡ first_of (edit_causes (Tag.On date) class day) }
{
    if day < date.0 {
        return Err(Refusal::LaterDate);
    }
    if class != 1 {
        return Ok(());
    }
    if date.0 != day {
        return Err(Refusal::OtherDate);
    }
    Ok(())
}
