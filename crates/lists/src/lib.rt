#![tactic(auto)]

// Chains of checks, and what every crate needs of tests, numbers and lists.
// This crate has definitions and laws only; the others cite them.
