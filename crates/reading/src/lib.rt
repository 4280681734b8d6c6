// Reads the message records of kinds 1 to 4 from the start of a slice. Every slice is taken, of any length: what is no record is refused.
#![tactic(auto)]

ghost use Rattle.std.specs.Prelude.{◌≡◌, ◌+◌, ◌^◌, ◌≤◌, ◌<◌, length};
ghost use Rattle.lists.specs.Numbers.{number_of};
ghost use Rattle.lists.specs.Fields.{part};
ghost use Rattle.records.specs.MessageRecords.{transfer_kind, close_kind, claim_kind, answer_kind};
ghost use Rattle.records.specs.MessageRecords.{transfer_of, claim_of, first_line, second_line};
ghost use Rattle.records.specs.MessageRecords.{headed, reading, transfer_answer, close_answer, claim_answer, answer_answer};

use records::{Answer, Cents, Claim, Transfer};

// The number that bytes hold, lowest first, from a place on.
fn number_at(s: &[u8], at: usize, width: usize) -> u64
    requires { (width ≤ 8) × (at + width ≤ length s.now) }
    ensures { (result ≡ number_of (part at width s.now)) × (result < 256 ^ width) }
{
    let mut n: u64 = 0;
    for i in (0..width).rev() {
        n = n * 256 + s[at + i] as u64;
    }
    n
}

// The byte at a place.
fn u8_at(s: &[u8], at: usize) -> u8
    requires { at + 1 ≤ length s.now }
    ensures { result ≡ number_of (part at 1 s.now) }
{
    s[at]
}

// The two-byte number at a place.
fn u16_at(s: &[u8], at: usize) -> u16
    requires { at + 2 ≤ length s.now }
    ensures { result ≡ number_of (part at 2 s.now) }
{
    number_at(s, at, 2) as u16
}

// The four-byte number at a place.
pub fn u32_at(s: &[u8], at: usize) -> u32
    requires { at + 4 ≤ length s.now }
    ensures { result ≡ number_of (part at 4 s.now) }
{
    number_at(s, at, 4) as u32
}

// Whether the message begins with a whole record of this length and kind.
fn is_headed(message: &[u8], following: u16, kind: u16) -> bool
    requires { 2 ≤ following }
    ensures { result ≡ headed following kind message.now }
{
    if message.len() < 2 + following as usize {
        return false;
    }
    if u16_at(message, 0) != following {
        return false;
    }
    u16_at(message, 2) == kind
}

// The transfer whose fields stand in the bytes.
fn transfer_at(s: &[u8]) -> Transfer
    requires { 141 ≤ length s.now }
    ensures { result ≡ transfer_of s.now }
{
    Transfer {
        sender: u8_at(s, 4),
        receiver: u8_at(s, 5),
        security: u8_at(s, 6),
        class: u8_at(s, 7),
        code: u8_at(s, 8),
        par: u32_at(s, 9),
    }
}

// The claim whose fields stand in the bytes.
fn claim_at(s: &[u8]) -> Claim
    requires { 35 ≤ length s.now }
    ensures { result ≡ claim_of s.now }
{
    Claim {
        claim_type: u8_at(s, 4),
        outcome: u8_at(s, 5),
        payer: u8_at(s, 6),
        payee: u8_at(s, 7),
        security: u8_at(s, 8),
        row: u8_at(s, 9),
        transfer: u32_at(s, 10),
        interest: Cents(number_at(s, 14, 8)),
        principal: Cents(number_at(s, 22, 8)),
        release: u32_at(s, 30),
        slot: u8_at(s, 34),
    }
}

// The transfer at the message's start, if there is one; its lines are first_line and second_line of the message.
pub fn read_transfer(message: &[u8]) -> Option<Transfer>
    ensures { transfer_answer result ≡ reading transfer_kind message.now }
{
    if is_headed(message, 139, 1) {
        Some(transfer_at(message))
    } else {
        None
    }
}

// Whether a close stands at the message's start.
pub fn read_close(message: &[u8]) -> bool
    ensures { close_answer result ≡ reading close_kind message.now }
{
    is_headed(message, 2, 2)
}

// The claim at the message's start, if there is one.
pub fn read_claim(message: &[u8]) -> Option<Claim>
    ensures { claim_answer result ≡ reading claim_kind message.now }
{
    if is_headed(message, 33, 3) {
        Some(claim_at(message))
    } else {
        None
    }
}

// The answer at the message's start, if there is one.
pub fn read_answer(message: &[u8]) -> Option<Answer>
    ensures { answer_answer result ≡ reading answer_kind message.now }
{
    if is_headed(message, 4, 4) {
        Some(Answer {
            number: u16_at(message, 4),
        })
    } else {
        None
    }
}

// The first line of free text of a message that holds a transfer.
pub fn first_line(message: &[u8]) -> &[u8]
    requires { 141 ≤ length message.now }
    ensures { result.now ≡ first_line message.now }
{
    &message[13..77]
}

// The second line of free text of a message that holds a transfer.
pub fn second_line(message: &[u8]) -> &[u8]
    requires { 141 ≤ length message.now }
    ensures { result.now ≡ second_line message.now }
{
    &message[77..141]
}
