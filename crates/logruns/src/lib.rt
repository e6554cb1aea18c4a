// Every log is a run of the campaign's calls: laws, and no code.
#![tactic(auto)]
