//! Tests of connections over a desk.
#![tactic(auto)]

#[cfg(test)]
mod addresses;
#[cfg(test)]
mod connections;
#[cfg(test)]
mod exchanges;
#[cfg(test)]
mod faults;
#[cfg(test)]
mod feeds;
#[cfg(test)]
mod fronts;
#[cfg(test)]
mod tests;
