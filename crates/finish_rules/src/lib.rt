// What finishing does to a line, and demand 3, which is proved of it. There is no code here, so a must-fail edit of a
// definition proves none again: that is in `finish`.
#![tactic(auto)]
