//! Tests of facts that no contract states, and of what contracts state for concrete numbers. Each file has one subject.
#![tactic(auto)]

#[cfg(test)]
mod counting;
#[cfg(test)]
mod examples;
#[cfg(test)]
mod levels;
#[cfg(test)]
mod locators;
#[cfg(test)]
mod messages;
#[cfg(test)]
mod rows;
#[cfg(test)]
mod shards;
#[cfg(test)]
mod stripes;
#[cfg(test)]
mod summing;
#[cfg(test)]
mod tables;
#[cfg(test)]
mod updating;
