// Document 01's proved cases P1 to P11, as one list with one theorem (proofs/Printed.antt). No code of its own.
#![tactic(auto)]
