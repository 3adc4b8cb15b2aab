// The laws from what the readers come to, in the code's shape, to document 01's judgement and values. No code.
#![tactic(auto)]
