//! Tests of the cage, the core and the sessions, by their public calls: what no contract says, the instrument's worked
//! examples, and each public call once with ample memory. They are here so that no crate is proved a second time for
//! its tests.
#![tactic(auto)]

#[cfg(test)]
mod asks;
#[cfg(test)]
mod boxes;
#[cfg(test)]
mod cage;
#[cfg(test)]
mod cage_calls;
#[cfg(test)]
mod cages;
#[cfg(test)]
mod hostile;
#[cfg(test)]
mod hostile_memory;
#[cfg(test)]
mod layers;
#[cfg(test)]
mod lists;
#[cfg(test)]
mod longest;
#[cfg(test)]
mod positions;
#[cfg(test)]
mod queries;
#[cfg(test)]
mod reads;
#[cfg(test)]
mod recorded;
#[cfg(test)]
mod scans;
#[cfg(test)]
mod session;
#[cfg(test)]
mod settling;
#[cfg(test)]
mod several;
#[cfg(test)]
mod slots;
#[cfg(test)]
mod timers;
