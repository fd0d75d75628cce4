#![tactic(auto)]

// Exact fractions are definitions and laws; there is nothing to run.
