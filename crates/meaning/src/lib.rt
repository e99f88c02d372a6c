// A task, and what it and a plan mean: definitions and laws, no code. Nothing here knows of files.
#![tactic(auto)]
