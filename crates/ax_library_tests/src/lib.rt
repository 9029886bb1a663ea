//! Tests that what takes memory succeeds with ample memory, in the libraries of token rows, letters, batches, snapshots and sagas.
//! What the calls give is shown by the programs of cases of each library.
#![tactic(auto)]

#[cfg(test)]
mod batches;
#[cfg(test)]
mod claims;
#[cfg(test)]
mod letters;
#[cfg(test)]
mod loads;
#[cfg(test)]
mod transfers;
