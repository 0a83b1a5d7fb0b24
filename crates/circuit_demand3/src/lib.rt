// Demand 3 for the table of Ethernet A-D routes: what any list of its calls, in any order, makes of a fresh table, said by a journal. Definitions and laws only; the calls and
// their promises are in `circuit_calls`.

#![tactic(auto)]
