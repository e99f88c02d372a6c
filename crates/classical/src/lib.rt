// The classical task that a task is translated into, and faithfulness (demand 3) about it: definitions and laws, no code.
#![tactic(auto)]
