// Translate and search together: what a plan found for the translation is to its source. A definition and its law, no code.
#![tactic(auto)]
