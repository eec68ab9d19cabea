//! Tests of stores: of one in two files that stop, and of services over keepers.
#![tactic(auto)]

#[cfg(test)]
mod service_tests;
#[cfg(test)]
mod tests;
