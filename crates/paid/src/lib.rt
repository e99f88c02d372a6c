// What the planner pays is what walk and settle say. A definition and its law, no code.
#![tactic(auto)]
