// No code: this crate holds the words of the theorems (specs/) and the theorems (proofs/).
#![tactic(auto)]
