#![tactic(auto)]

// Tests of the sources on their edges, one table for each.
#[cfg(test)]
mod bottoms_edges;
#[cfg(test)]
mod layers_edges;
#[cfg(test)]
mod told;
