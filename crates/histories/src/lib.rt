// No code: histories of a net, computed, after which every base has been started and nothing waits (specs/).

#![tactic(auto)]
