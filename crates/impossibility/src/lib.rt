// No code: when rows contradict each other, and that no run can meet such rows (document 02, A6).
#![tactic(auto)]
