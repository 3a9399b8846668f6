// The customer's three demands: specs/Demands says them of every entry of the engine. Here is no function.
#![tactic(auto)]
