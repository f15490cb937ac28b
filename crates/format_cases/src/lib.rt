// Cases of the two formats and of the refusal table, worked out by hand.
#![tactic(auto)]

#[cfg(test)]
mod cards;
#[cfg(test)]
mod cases;
#[cfg(test)]
mod reads;
#[cfg(test)]
mod sheets;
#[cfg(test)]
mod words;
