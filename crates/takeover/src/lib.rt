// The backup takes over (document 02, M-113): the statement, which the calls that name the backup promise. Definitions and laws only.

#![tactic(auto)]
