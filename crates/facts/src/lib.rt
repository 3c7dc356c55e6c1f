// No code: what else holds of the board. The boundary table and the published examples computed, the wrong boards that each demand shuts
// out, why the hypotheses of demand 3 are needed, what reads back, the invariants of boards that calls reach from a start, and the board that
// rounds down beside ours.
#![tactic(auto)]
