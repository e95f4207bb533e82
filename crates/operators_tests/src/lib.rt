// Examples of the four operators. The expected values are worked out by hand from docs/LANGUAGE.md.
#![tactic(auto)]

#[cfg(test)]
mod example;
#[cfg(test)]
mod hiding;
#[cfg(test)]
mod nests;
#[cfg(test)]
mod refining;
#[cfg(test)]
mod side_by_side;
#[cfg(test)]
mod sleeping;
