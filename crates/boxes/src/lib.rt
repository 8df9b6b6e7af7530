#![tactic(auto)]

// What boxes on the air promise is theory only: definitions and proofs stand in specs/.
