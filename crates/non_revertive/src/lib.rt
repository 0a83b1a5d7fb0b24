// A router that comes back does not unseat the forwarder (document 02, M-107): the statement, which `segment::returning` promises. Definitions and laws only.

#![tactic(auto)]
