// The elections of a segment, and what it is for two answers to name the same forwarder. Definitions only.

#![tactic(auto)]
