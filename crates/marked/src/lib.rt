// The marked cases M1 to M12: a table, and one statement that the definitions give it. No code.

#![tactic(auto)]
