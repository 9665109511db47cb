// The board of a string: definitions and laws. No function stands here.
#![tactic(auto)]
