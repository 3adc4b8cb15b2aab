// Definitions and the theorems about them: specs/ and proofs/. No code.
#![tactic(auto)]
