//! Tests of the store over SQLite and of what stands on it, through public calls. Of the store: worked examples, what
//! other programs may leave in its table, and databases in files. Of the rest: a commit that is held up while another
//! controller uses the bus, whole runs of threads, and the program by its command line. They stand in a crate of their
//! own so that no other tests load SQLite.
#![tactic(auto)]

#[cfg(test)]
mod command_lines;
#[cfg(test)]
mod copies;
#[cfg(test)]
mod files;
#[cfg(test)]
mod held;
#[cfg(test)]
mod runs;
#[cfg(test)]
mod sites;
#[cfg(test)]
mod stops;
#[cfg(test)]
mod stores;
#[cfg(test)]
mod tables;
#[cfg(test)]
mod values;
