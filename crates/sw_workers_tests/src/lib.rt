//! Tests of the mainframe behind its lock, over threads: desks, workers, gates, closing down and the status board, by
//! their public calls. They have a crate of their own so that no crate is proved a second time for its tests.
#![tactic(auto)]

#[cfg(test)]
mod asides;
#[cfg(test)]
mod board;
#[cfg(test)]
mod closing;
#[cfg(test)]
mod lasting;
#[cfg(test)]
mod latches;
#[cfg(test)]
mod notes;
#[cfg(test)]
mod seats;
#[cfg(test)]
mod served;
#[cfg(test)]
mod sessions;
#[cfg(test)]
mod shop;
#[cfg(test)]
mod threads;
#[cfg(test)]
mod timers;
#[cfg(test)]
mod waiters;
#[cfg(test)]
mod wakes;
#[cfg(test)]
mod wires;
