// The C library: each function of the door under its own name for C, which calls the door's and says its clauses again.
#![tactic(auto)]

mod campaigns;
mod filing;
mod judgements;
mod recordings;
mod registers;
mod short_rooms;
