// Every run of a campaign's calls: laws, and no code.
#![tactic(auto)]
