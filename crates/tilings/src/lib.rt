// Tilings: definitions and laws. No function stands here; the engine that finds tilings is a crate of its own.
#![tactic(auto)]
