//! Tests of racks by the public calls: files and what they mean, and the message of each fault.
#![tactic(auto)]

#[cfg(test)]
mod faults;
#[cfg(test)]
mod racks;
#[cfg(test)]
mod templates;
