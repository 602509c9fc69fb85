//! Tests of a queue before a disk, over its public calls.
#![tactic(auto)]

#[cfg(test)]
mod disks;
#[cfg(test)]
mod drawn;
#[cfg(test)]
mod rows;
