// No code: the crate has the one list of calls, and what is said of every such list.
#![tactic(auto)]
