// The worked examples of the read-back sheet: a table and a theorem about it. No function stands here.
#![tactic(auto)]
