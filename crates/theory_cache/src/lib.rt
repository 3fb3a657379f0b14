// Accesses with a cache: definitions, statements and proofs only.
#![tactic(auto)]
