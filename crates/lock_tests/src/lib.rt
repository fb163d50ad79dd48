//! Tests of the steps on the shared words: locks, sights, callers and notes. Nothing stands on it.
#![tactic(auto)]

#[cfg(test)]
mod locks;
#[cfg(test)]
mod shares;
#[cfg(test)]
mod sights;
#[cfg(test)]
mod single_steps;
