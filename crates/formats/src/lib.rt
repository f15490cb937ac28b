// The two byte formats: checked views over a litmus program (a card) and a list of moves (a sheet).
#![tactic(auto)]

mod card;
mod moves;
mod numbered;
mod sheet;

pub use card::Card;
pub use moves::Move;
pub use sheet::Sheet;
