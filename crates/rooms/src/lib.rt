// What the call program lends is enough: definitions and laws. No function stands here.
#![tactic(auto)]
