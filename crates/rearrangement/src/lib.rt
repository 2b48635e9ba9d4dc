// No code: this crate is what a sheet with its consequents in another order is (specs/), and why it says the same (proofs/).
#![tactic(auto)]
