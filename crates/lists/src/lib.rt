#![tactic(auto)]

// Definitions and laws about lists and numbers that every layer cites. They stand in specs/; there is no code here.
