// The text of a grant, begun: its columns, its heading and its rows.
#![tactic(auto)]

mod columns;
mod heading;
mod line;
