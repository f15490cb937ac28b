// Cases at the edges of the port, worked out by hand: calls on a new machine, each with what it must
// answer.
#![tactic(auto)]

#[cfg(test)]
mod call;
#[cfg(test)]
mod copies;
#[cfg(test)]
mod limits;
#[cfg(test)]
mod order;
