// The rules of sending (R119 to R150; equations (4) to (11) of the published HLS paper), their laws, and computed cases that refuse a
// slip. No code: the steps that follow the rules stand in `steps`. Serves demands 2 and 3.

#![tactic(auto)]
