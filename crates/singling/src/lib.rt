// Effects rewritten with single literals (request 12): definitions and laws, no code.
#![tactic(auto)]
