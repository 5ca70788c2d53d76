//! Tests of a line: its calls, each beside the same call of a site, and workers and a pumper in threads of their own.
//! They stand apart so that the tests of the parts need not wait for the line to be proved.
#![tactic(auto)]

#[cfg(test)]
mod calls;
#[cfg(test)]
mod driven;
#[cfg(test)]
mod failing;
#[cfg(test)]
mod full;
#[cfg(test)]
mod holding;
#[cfg(test)]
mod library;
#[cfg(test)]
mod listed;
#[cfg(test)]
mod reading;
#[cfg(test)]
mod restarts;
#[cfg(test)]
mod threads;
#[cfg(test)]
mod values;
