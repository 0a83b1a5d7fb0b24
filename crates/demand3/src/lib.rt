// Demand 3: what any list of calls, in any order, makes of a fresh table, said by a journal; and document 01's starred values. Definitions and laws only; the calls
// and their promises are in `segment`.

#![tactic(auto)]
