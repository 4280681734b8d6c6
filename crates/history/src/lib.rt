// What opening, transfer and close answer and leave, the ledger of accepted calls, and the theorem about every list of calls. They
// stand in specs/ and proofs/; there is no code here.
#![tactic(auto)]
