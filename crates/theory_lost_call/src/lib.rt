// No code: the crate says how far two runs can differ of which one lacks a call.
#![tactic(auto)]
