// No code: the crate says what each exported call answers and leaves, for all inputs.
#![tactic(auto)]
