// Examples of recipes read, written and listed. The expected values are worked out by hand from docs/FORMAT.md.
#![tactic(auto)]

#[cfg(test)]
mod example;
#[cfg(test)]
mod listing;
#[cfg(test)]
mod names;
#[cfg(test)]
mod reading;
#[cfg(test)]
mod written;
