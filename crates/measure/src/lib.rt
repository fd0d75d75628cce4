// How large numbers are and how fine: definitions and laws; there is nothing to run.
#![tactic(auto)]
