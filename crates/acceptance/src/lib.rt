#![tactic(auto)]

// Examples of what the other crates promise, run. They stand in a crate of their own, since a crate with tests is proved twice.
// Values that no public document gives come from reference/coast.py.
#[cfg(test)]
mod coast_tests;
#[cfg(test)]
mod grid_tests;
#[cfg(test)]
mod noise_tests;
#[cfg(test)]
mod pile_tests;
#[cfg(test)]
mod reference;
#[cfg(test)]
mod sheet_tests;
#[cfg(test)]
mod track_tests;
#[cfg(test)]
mod world_tests;
