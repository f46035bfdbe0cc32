// The rules of a listing, defined in specs/. It has no types of its own.
#![tactic(auto)]
