// The history of a call and the theorem that no run of calls can make a sheet lie. No function stands here.
#![tactic(auto)]
