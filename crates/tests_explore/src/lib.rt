//! Tests of walks and searches over runs, by threads too, of runs that are compared or noted, and of the least scripts to their ends.
#![tactic(auto)]

mod counting;
#[cfg(test)]
mod least;
#[cfg(test)]
mod likeness;
#[cfg(test)]
mod merged;
#[cfg(test)]
mod noted;
#[cfg(test)]
mod places;
#[cfg(test)]
mod runs;
mod trial;
mod trip;
#[cfg(test)]
mod workers;
