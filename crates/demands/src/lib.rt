// Theorems only: the crate has no code. See specs/.

#![tactic(auto)]
