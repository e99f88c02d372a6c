// What search answers on a task file: a definition and its laws, no code.
#![tactic(auto)]
