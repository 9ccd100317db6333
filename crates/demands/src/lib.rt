// The front page: the three demands, the thirteen values, and what 02 adds, as theorems in specs/. There is no code here.
#![tactic(auto)]
