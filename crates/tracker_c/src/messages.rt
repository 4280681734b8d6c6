// The four kinds of message record for C and Rust callers: read to a struct of number and fields, written from fields to a buffer.
ghost use Rattle.std.specs.Prelude.{◌≡◌, [], ◌++◌};
ghost use Rattle.records.specs.MessageRecords.{transfer_kind, close_kind, claim_kind, answer_kind};
ghost use Rattle.records.specs.MessageRecords.{transfer_values, claim_values, answer_values, reading, writing, wrote_number};
ghost use Rattle.tracker.specs.Readings.{transfer_reading, claim_reading, answer_reading};

use records::{Answer, Claim, Transfer};
use tracker::messages::{AnswerReading, ClaimReading, TransferReading};

// Reads a transfer from the message's start.
#[unsafe(no_mangle)]
pub extern "C" fn claim_tracker_read_transfer(message: &[u8]) -> TransferReading
    ensures { result ≡ transfer_reading message.now }
{
    tracker::messages::claim_tracker_read_transfer(message)
}

// Reads a close from the message's start: 0, or 5.
#[unsafe(no_mangle)]
pub extern "C" fn claim_tracker_read_close(message: &[u8]) -> u16
    ensures { result ≡ (reading close_kind message.now).number }
{
    tracker::messages::claim_tracker_read_close(message)
}

// Reads a claim from the message's start.
#[unsafe(no_mangle)]
pub extern "C" fn claim_tracker_read_claim(message: &[u8]) -> ClaimReading
    ensures { result ≡ claim_reading message.now }
{
    tracker::messages::claim_tracker_read_claim(message)
}

// Reads an answer from the message's start.
#[unsafe(no_mangle)]
pub extern "C" fn claim_tracker_read_answer(message: &[u8]) -> AnswerReading
    ensures { result ≡ answer_reading message.now }
{
    tracker::messages::claim_tracker_read_answer(message)
}

// Writes a transfer with its two lines of free text to the buffer's start: 0, or 10 for too short a buffer, which is not touched.
#[unsafe(no_mangle)]
pub extern "C" fn claim_tracker_write_transfer(
    buffer: &mut [u8],
    transfer: Transfer,
    first_line: &[u8; 64],
    second_line: &[u8; 64],
) -> u16
    ensures { record { number = result; buffer = buffer.new }
        ≡ writing transfer_kind (transfer_values transfer) (first_line.now ++ second_line.now) buffer.old }
{
    tracker::messages::claim_tracker_write_transfer(buffer, transfer, first_line, second_line)
}

// Writes a close to the buffer's start: 0, or 10 for too short a buffer, which is not touched.
#[unsafe(no_mangle)]
pub extern "C" fn claim_tracker_write_close(buffer: &mut [u8]) -> u16
    ensures { record { number = result; buffer = buffer.new } ≡ writing close_kind [] [] buffer.old }
{
    tracker::messages::claim_tracker_write_close(buffer)
}

// Writes a claim to the buffer's start: 0, or 10 for too short a buffer, which is not touched.
#[unsafe(no_mangle)]
pub extern "C" fn claim_tracker_write_claim(buffer: &mut [u8], claim: Claim) -> u16
    ensures { record { number = result; buffer = buffer.new } ≡ writing claim_kind (claim_values claim) [] buffer.old }
{
    tracker::messages::claim_tracker_write_claim(buffer, claim)
}

// Writes an answer to the buffer's start: 0, or 10 for too short a buffer, which is not touched.
#[unsafe(no_mangle)]
pub extern "C" fn claim_tracker_write_answer(buffer: &mut [u8], answer: Answer) -> u16
    ensures { record { number = result; buffer = buffer.new } ≡ writing answer_kind (answer_values answer) [] buffer.old }
{
    tracker::messages::claim_tracker_write_answer(buffer, answer)
}
