// No code: the twelve cases (rules 9) as rows under one proposition, which the checker shows to follow from the definitions.
#![tactic(auto)]
