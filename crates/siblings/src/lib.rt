// Two siblings, side by side: a theorem about the rules of sending, carried to the library's calls. No code.

#![tactic(auto)]
