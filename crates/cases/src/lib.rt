// The worked numbers of docs/FORMAT.md, over all codes: specs/Cases.antt has the list and the claim, proofs/Cases.antt the proof. There
// is nothing to run.
#![tactic(auto)]
