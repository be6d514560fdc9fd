// SPECIFICATION's meanings stand in specs/. This crate has no code of its own.
#![tactic(auto)]
