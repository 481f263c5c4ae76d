// Examples worked by hand, one theorem over a list of them, and examples of the calls that came later. No code of its own.
#![tactic(auto)]
