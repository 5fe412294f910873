//! The tests of shared boxes: what neither contracts nor rows nor the program show. They are apart from the tests of hosts, since they can be
//! proved as soon as the boxes are.
#![tactic(auto)]

#[cfg(test)]
mod boxes;
