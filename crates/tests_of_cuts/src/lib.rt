//! Tests of what stands on a disk where the power goes while a volume is made or restored, or in a run.
#![tactic(auto)]

#[cfg(test)]
mod parts;
#[cfg(test)]
mod rows;
#[cfg(test)]
mod runs;
#[cfg(test)]
mod traces;
