// Losing a bystander disturbs nobody (document 02, M-107): the statement, which `segment::withdraw` promises. Definitions and laws only.

#![tactic(auto)]
