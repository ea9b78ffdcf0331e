//! The log of a board that threads share: the steps that its passes took, in the order in which they took them. What a step does on a board
//! is in `ucl_steps`, `ucl_pass` and `ucl_words`.
#![tactic(auto)]

mod theorems;

pub use theorems::legal_logs_have_facts;
