// No code: that the program's net stands for a net of document 01, through every event of a history (specs/).

#![tactic(auto)]
