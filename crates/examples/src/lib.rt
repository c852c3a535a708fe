// No code: document 01's worked examples, one table that one proof covers.
#![tactic(auto)]
