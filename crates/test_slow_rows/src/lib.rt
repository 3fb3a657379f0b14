// No code: runs with a cache that break the discipline, as rows. They stand apart from `cached_calls` because they take half a minute to compute.
#![tactic(auto)]
