// What is already lost after a beginning of a translated run (request 13): definitions and laws, no code.
#![tactic(auto)]
