// No code: the crate has definitions and laws of arrangements of pages in groups and of the plain finite map, over any page type and any hash.
#![tactic(auto)]
