// What a tiling question wrote comes back whole: definitions and laws. No function stands here.
#![tactic(auto)]
