#![tactic(auto)]

// What the engine means: definitions (specs/) and the laws about them (proofs/). No code.
