// What a run of bench records leaves (document 02, M-112): the lines that it prints and the state after them, and what follows a log. Definitions and laws only.

#![tactic(auto)]
