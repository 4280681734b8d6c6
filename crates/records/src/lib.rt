// The message records of kinds 1 to 4 (document 01, section Message records) and what can be refused: the types here, the definitions of what is read and
// written in specs/, and the laws of these in proofs/. The readers are in the crate reading, the writers in the crate writing.
#![tactic(auto)]

ghost use Rattle.std.specs.Prelude.{◌≡◌};
ghost use Rattle.records.specs.Refusals.{refusal_number};

// Whole dollars of par.
#[repr(C)]
#[derive(Clone, Copy, Debug, PartialEq, Eq)]
pub struct Dollars(pub u64);

// An amount in cents.
#[repr(C)]
#[derive(Clone, Copy, Debug, Default, PartialEq, Eq)]
pub struct Cents(pub u64);

// The fields of a transfer; its two lines of free text stay in the message.
#[repr(C)]
#[derive(Clone, Copy, Debug, Default, PartialEq, Eq)]
pub struct Transfer {
    pub sender: u8,
    pub receiver: u8,
    pub security: u8,
    pub class: u8,
    pub code: u8,
    pub par: u32,
}

impl Transfer {
    // The transfer's par.
    pub fn dollars(self) -> Dollars
        ensures { result.0 ≡ self.par }
    {
        Dollars(self.par as u64)
    }
}

// The fields of a claim.
#[repr(C)]
#[derive(Clone, Copy, Debug, Default, PartialEq, Eq)]
pub struct Claim {
    pub claim_type: u8,
    pub outcome: u8,
    pub payer: u8,
    pub payee: u8,
    pub security: u8,
    pub row: u8,
    pub transfer: u32,
    pub interest: Cents,
    pub principal: Cents,
    pub release: u32,
    pub slot: u8,
}

// The field of an answer.
#[repr(C)]
#[derive(Clone, Copy, Debug, Default, PartialEq, Eq)]
pub struct Answer {
    pub number: u16,
}

// Why a call is refused.
#[derive(Clone, Copy, Debug, PartialEq, Eq)]
pub enum Refusal {
    // Calendar, tables, balances, a saved book or book.dat has not its length.
    Length,
    // The calendar has a bit for a day that its month lacks.
    Calendar,
    // The tables break a rule.
    Tables,
    // The book's day is not open or has none after it, or a balance is too large or an account's with itself.
    Book,
    // The message is cut short, or its length or kind is wrong for the call.
    Message,
    // A field of the transfer is out of range.
    Field,
    // A decrease is above the balance.
    Decrease,
    // An increase goes past the largest balance.
    Increase,
    // No open day follows the one that a close moves to.
    LastDay,
    // The records don't fit the buffer.
    Room,
    // The transfer count is the largest number.
    Count,
    // The date limits break a rule.
    Limits,
    // The pieces break a rule.
    Pieces,
    // Par is off its security's piece.
    OffPiece,
    // A code of lending comes before the 2023 memo.
    Early,
    // There is no such mark, or the store has not its length.
    Mark,
    // The mark holds no book, or one that is not sound.
    Saved,
    // A claim record is cut or bad, the account is above 15, or the release date is none.
    Claims,
    // A sum of cents is not exact as a double.
    Sum,
    // There are several Contract Date tags.
    SeveralTags,
    // No } ends the tag.
    UnendedTag,
    // The tag is not a date.
    TagNotDate,
    // The Contract Date is after the day.
    LaterDate,
    // The Contract Date of a class 1 transfer is not the day.
    OtherDate,
}

impl Refusal {
    // The number that an answer gives for it.
    #[tactic(auto, unfolding(crate::specs::Refusals::refusal_number))]
    pub fn number(self) -> u16
        ensures { result ≡ refusal_number self }
    {
        match self {
            Refusal::Length => 1,
            Refusal::Calendar => 2,
            Refusal::Tables => 3,
            Refusal::Book => 4,
            Refusal::Message => 5,
            Refusal::Field => 6,
            Refusal::Decrease => 7,
            Refusal::Increase => 8,
            Refusal::LastDay => 9,
            Refusal::Room => 10,
            Refusal::Count => 11,
            Refusal::Limits => 12,
            Refusal::Pieces => 13,
            Refusal::OffPiece => 14,
            Refusal::Early => 15,
            Refusal::Mark => 16,
            Refusal::Saved => 17,
            Refusal::Claims => 18,
            Refusal::Sum => 19,
            Refusal::SeveralTags => 132,
            Refusal::UnendedTag => 133,
            Refusal::TagNotDate => 135,
            Refusal::LaterDate => 138,
            Refusal::OtherDate => 139,
        }
    }
}
