// Examples of machines, counters, runs and lists of calls. The expected values are worked out by hand from
// docs/LANGUAGE.md.
#![tactic(auto)]

#[cfg(test)]
mod calling;
#[cfg(test)]
mod counting;
#[cfg(test)]
mod example;
#[cfg(test)]
mod lines;
#[cfg(test)]
mod making;
#[cfg(test)]
mod moving;
#[cfg(test)]
mod running;
