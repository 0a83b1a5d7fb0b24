// The best of a list by a strict order that is given as a test.
// This crate has definitions and laws only; the election instantiates them.

#![tactic(auto)]
