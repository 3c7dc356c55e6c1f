// No code: what holds of a board's switches over its whole life (W-212). Every event that any accepted tick ever recorded, worked out from the
// ticks and the table; the switches by those events; and the wrong boards that this shuts out.
#![tactic(auto)]
