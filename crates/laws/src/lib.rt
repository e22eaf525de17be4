//! General definitions and laws on searches, maxima, sums, stores into lists and refusal chains, for our own crates. Nothing of MPI.
#![tactic(auto)]
