// The claims of transfers and closes (document 01, sections Fail claims, Close and Amounts, outcomes, release; document 02, cards 1,
// interim claims, 2, long-delay pools, and 3, repo tracking) as definitions with their laws. They stand in specs/ and proofs/; here is the
// type that the definitions name, and the code is in the crates amounts, fails and lending.
#![tactic(auto)]

// Who pays whom, in one security.
#[derive(Clone, Copy, Debug, PartialEq, Eq)]
pub struct Parties {
    pub security: u8,
    pub payee: u8,
    pub payer: u8,
}
