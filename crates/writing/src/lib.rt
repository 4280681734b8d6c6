// Writes the message records of kinds 1 to 4 to the start of a buffer. Every buffer is taken, of any length: one that is too short is refused.
#![tactic(auto)]

ghost use Rattle.std.specs.Prelude.{◌≡◌, [], ◌++◌, ◌+◌, ◌≤◌, length};
ghost use Rattle.lists.specs.Numbers.{bytes_of};
ghost use Rattle.lists.specs.Put.{put};
ghost use Rattle.records.specs.MessageRecords.{transfer_kind, close_kind, claim_kind, answer_kind};
ghost use Rattle.records.specs.MessageRecords.{transfer_values, claim_values, answer_values};
ghost use Rattle.records.specs.MessageRecords.{writing, wrote_number};

use records::{Answer, Claim, Refusal, Transfer};

// Stores bytes from a place of the buffer on.
fn put_bytes(buffer: &mut [u8], at: usize, bytes: &[u8])
    requires { at + length bytes.now ≤ length buffer.old }
    ensures { buffer.new ≡ put buffer.old at bytes.now }
{
    buffer[at..at + bytes.len()].copy_from_slice(bytes);
}

// Stores a number's lowest bytes, lowest first, from a place of the buffer on.
fn put_number(buffer: &mut [u8], at: usize, width: usize, number: u64)
    requires { (at + width ≤ length buffer.old) × (width ≤ 8) }
    ensures { buffer.new ≡ put buffer.old at (bytes_of width number) }
{
    put_bytes(buffer, at, &number.to_le_bytes()[..width]);
}

// A transfer with its two lines of free text, written to the buffer's start.
pub fn write_transfer(
    buffer: &mut [u8],
    t: Transfer,
    first: &[u8; 64],
    second: &[u8; 64],
) -> Result<(), Refusal>
    ensures { record { number = wrote_number result; buffer = buffer.new }
        ≡ writing transfer_kind (transfer_values t) (first.now ++ second.now) buffer.old }
{
    if buffer.len() < 141 {
        return Err(Refusal::Room);
    }
    let head: [u8; 9] = [
        139, 0, 1, 0, t.sender, t.receiver, t.security, t.class, t.code,
    ];
    put_bytes(&mut *buffer, 0, &head);
    put_number(&mut *buffer, 9, 4, t.par as u64);
    put_bytes(&mut *buffer, 13, first);
    put_bytes(&mut *buffer, 77, second);
    Ok(())
}

// A close, written to the buffer's start.
pub fn write_close(buffer: &mut [u8]) -> Result<(), Refusal>
    ensures { record { number = wrote_number result; buffer = buffer.new } ≡ writing close_kind [] [] buffer.old }
{
    if buffer.len() < 4 {
        return Err(Refusal::Room);
    }
    let head: [u8; 4] = [2, 0, 2, 0];
    put_bytes(&mut *buffer, 0, &head);
    Ok(())
}

// A claim, written to the buffer's start.
pub fn write_claim(buffer: &mut [u8], c: Claim) -> Result<(), Refusal>
    ensures { record { number = wrote_number result; buffer = buffer.new } ≡ writing claim_kind (claim_values c) [] buffer.old }
{
    if buffer.len() < 35 {
        return Err(Refusal::Room);
    }
    let head: [u8; 10] = [
        33,
        0,
        3,
        0,
        c.claim_type,
        c.outcome,
        c.payer,
        c.payee,
        c.security,
        c.row,
    ];
    put_bytes(&mut *buffer, 0, &head);
    put_number(&mut *buffer, 10, 4, c.transfer as u64);
    put_number(&mut *buffer, 14, 8, c.interest.0);
    put_number(&mut *buffer, 22, 8, c.principal.0);
    put_number(&mut *buffer, 30, 4, c.release as u64);
    put_number(&mut *buffer, 34, 1, c.slot as u64);
    Ok(())
}

// An answer, written to the buffer's start.
pub fn write_answer(buffer: &mut [u8], a: Answer) -> Result<(), Refusal>
    ensures { record { number = wrote_number result; buffer = buffer.new } ≡ writing answer_kind (answer_values a) [] buffer.old }
{
    if buffer.len() < 6 {
        return Err(Refusal::Room);
    }
    let head: [u8; 4] = [4, 0, 4, 0];
    put_bytes(&mut *buffer, 0, &head);
    put_number(&mut *buffer, 4, 2, a.number as u64);
    Ok(())
}
