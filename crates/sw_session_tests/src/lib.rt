//! Tests of HiSLIP's engine and of its servers, by their public calls: the worked conversations, streams that are cut
//! anywhere, and connections that fail. They have a crate of their own so that no crate is proved a second time for its
//! tests.
#![tactic(auto)]

#[cfg(test)]
mod ample_memory;
#[cfg(test)]
mod clients;
#[cfg(test)]
mod engine;
#[cfg(test)]
mod hostile;
#[cfg(test)]
mod hostile_faults;
#[cfg(test)]
mod hostile_first;
#[cfg(test)]
mod hostile_memory;
#[cfg(test)]
mod hostile_second;
#[cfg(test)]
mod hostile_sessions;
#[cfg(test)]
mod pauses;
#[cfg(test)]
mod room;
#[cfg(test)]
mod servers;
#[cfg(test)]
mod sizes;
