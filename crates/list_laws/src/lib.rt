//! Members of lists, permutations, sums, counts, and what may be there or not: laws that say nothing of tables.
#![tactic(auto)]
