// The four kinds of message record for C and Rust callers: read to a struct of number and fields, written from fields to a buffer.
ghost use Rattle.std.specs.Prelude.{◌≡◌, [], ◌++◌, length};
ghost use Rattle.records.specs.Refusals.{judged_number};
ghost use Rattle.records.specs.MessageRecords.{transfer_kind, close_kind, claim_kind, answer_kind};
ghost use Rattle.records.specs.MessageRecords.{transfer_values, claim_values, answer_values, reading, writing, wrote_number};
ghost use Rattle.tracker.specs.Readings.{transfer_reading, claim_reading, answer_reading};

use records::{Answer, Claim, Refusal, Transfer};

// What reading a transfer answers: its number, 0 or 5, its fields and its two lines of free text, all zero where it is refused.
#[repr(C)]
#[derive(Clone, Copy, Debug, PartialEq, Eq)]
pub struct TransferReading {
    pub number: u16,
    pub transfer: Transfer,
    pub first_line: [u8; 64],
    pub second_line: [u8; 64],
}

// What reading a claim answers: its number, 0 or 5, and its fields, all zero where it is refused.
#[repr(C)]
#[derive(Clone, Copy, Debug, PartialEq, Eq)]
pub struct ClaimReading {
    pub number: u16,
    pub claim: Claim,
}

// What reading an answer answers: its number, 0 or 5, and its field, zero where it is refused.
#[repr(C)]
#[derive(Clone, Copy, Debug, PartialEq, Eq)]
pub struct AnswerReading {
    pub number: u16,
    pub answer: Answer,
}

// A line of free text.
fn line_of(text: &[u8]) -> [u8; 64]
    requires { length text.now ≡ 64 }
    ensures { result ≡ text.now }
{
    let mut line = [0u8; 64];
    line.copy_from_slice(text);
    line
}

// Reads a transfer from the message's start.
pub fn claim_tracker_read_transfer(message: &[u8]) -> TransferReading
    ensures { result ≡ transfer_reading message.now }
{
    let Some(transfer) = reading::read_transfer(message) else {
        return TransferReading {
            number: Refusal::Message.number(),
            transfer: Transfer::default(),
            first_line: [0u8; 64],
            second_line: [0u8; 64],
        };
    };
    TransferReading {
        number: 0,
        transfer,
        first_line: line_of(reading::first_line(message)),
        second_line: line_of(reading::second_line(message)),
    }
}

// Reads a close from the message's start: 0, or 5.
pub fn claim_tracker_read_close(message: &[u8]) -> u16
    ensures { result ≡ (reading close_kind message.now).number }
{
    if reading::read_close(message) {
        0
    } else {
        Refusal::Message.number()
    }
}

// Reads a claim from the message's start.
pub fn claim_tracker_read_claim(message: &[u8]) -> ClaimReading
    ensures { result ≡ claim_reading message.now }
{
    match reading::read_claim(message) {
        Some(claim) => ClaimReading { number: 0, claim },
        None => ClaimReading {
            number: Refusal::Message.number(),
            claim: Claim::default(),
        },
    }
}

// Reads an answer from the message's start.
pub fn claim_tracker_read_answer(message: &[u8]) -> AnswerReading
    ensures { result ≡ answer_reading message.now }
{
    match reading::read_answer(message) {
        Some(answer) => AnswerReading { number: 0, answer },
        None => AnswerReading {
            number: Refusal::Message.number(),
            answer: Answer::default(),
        },
    }
}

// The number for a call's outcome: 0, or that of its refusal.
#[tactic(auto, unfolding(records::specs::Refusals::judged_number))]
pub(crate) fn answered_number(outcome: Result<(), Refusal>) -> u16
    ensures { result ≡ judged_number outcome }
{
    match outcome {
        Ok(()) => 0,
        Err(refusal) => refusal.number(),
    }
}

// Writes a transfer with its two lines of free text to the buffer's start: 0, or 10 for too short a buffer, which is not touched.
pub fn claim_tracker_write_transfer(
    buffer: &mut [u8],
    transfer: Transfer,
    first_line: &[u8; 64],
    second_line: &[u8; 64],
) -> u16
    ensures { record { number = result; buffer = buffer.new }
        ≡ writing transfer_kind (transfer_values transfer) (first_line.now ++ second_line.now) buffer.old }
{
    answered_number(writing::write_transfer(buffer, transfer, first_line, second_line))
}

// Writes a close to the buffer's start: 0, or 10 for too short a buffer, which is not touched.
pub fn claim_tracker_write_close(buffer: &mut [u8]) -> u16
    ensures { record { number = result; buffer = buffer.new } ≡ writing close_kind [] [] buffer.old }
{
    answered_number(writing::write_close(buffer))
}

// Writes a claim to the buffer's start: 0, or 10 for too short a buffer, which is not touched.
pub fn claim_tracker_write_claim(buffer: &mut [u8], claim: Claim) -> u16
    ensures { record { number = result; buffer = buffer.new } ≡ writing claim_kind (claim_values claim) [] buffer.old }
{
    answered_number(writing::write_claim(buffer, claim))
}

// Writes an answer to the buffer's start: 0, or 10 for too short a buffer, which is not touched.
pub fn claim_tracker_write_answer(buffer: &mut [u8], answer: Answer) -> u16
    ensures { record { number = result; buffer = buffer.new } ≡ writing answer_kind (answer_values answer) [] buffer.old }
{
    answered_number(writing::write_answer(buffer, answer))
}
