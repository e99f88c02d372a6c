// Lists with Bools for tests, and their laws: definitions and laws, no code.
#![tactic(auto)]
