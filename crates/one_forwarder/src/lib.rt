// Exactly one router forwards (document 02, M-107): the statement, which `segment::fresh` promises. Definitions and laws only.

#![tactic(auto)]
