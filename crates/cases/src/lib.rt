#![tactic(auto)]

// Document 01's small sheds, as one table that the prover computes: specs/Cases.antt. No code.
