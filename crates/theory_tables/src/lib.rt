// No code: the crate has definitions and laws of hashed page tables, over any page type, hash, entry format and way of storing entries.
#![tactic(auto)]
