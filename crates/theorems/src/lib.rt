// Theorems alone: they follow from the contracts of the public calls. No proof of code uses them, so a must-fail edit
// of a call doesn't check them again.
#![tactic(auto)]
