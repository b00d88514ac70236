// P1 to P10 of document 01. No code.
#![tactic(auto)]
