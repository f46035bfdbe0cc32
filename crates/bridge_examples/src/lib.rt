// Example runs of the bridge, stated in specs/Examples.antt and proved by computing them.
#![tactic(auto)]
