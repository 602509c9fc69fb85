//! Tests of conversions, through the top call, over disks in memory.
#![tactic(auto)]

#[cfg(test)]
mod tests;
