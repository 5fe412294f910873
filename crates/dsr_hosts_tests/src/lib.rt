//! The tests of seats, of the calls of clients, of the hosts of replicas and traitors, and of services in threads: what neither
//! contracts nor rows nor the program show. They are apart from the code because a crate with tests is proved twice.
#![tactic(auto)]

#[cfg(test)]
mod calls_memory;
#[cfg(test)]
mod gates;
#[cfg(test)]
mod office;
#[cfg(test)]
mod replicas;
#[cfg(test)]
mod seats;
#[cfg(test)]
mod sent;
#[cfg(test)]
mod threads;
#[cfg(test)]
mod told;
#[cfg(test)]
mod traitors;
