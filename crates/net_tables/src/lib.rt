//! What nets of a program look up when their nodes fire, whatever these nodes do: the nodes by pieces, the lines that a piece touches and
//! the edges that leave it, the piece to which control comes along an edge, and where the token lines stand. The nets themselves are in
//! the crates above.
#![tactic(auto)]

mod lookups;
mod new_board;
mod places;
mod program_parts;
mod tables;
mod token_lines;

pub use lookups::Board;
pub use new_board::{
    first_control, first_places, make_board, nothing_left, program_nets_begin, words_are_words,
};
pub use program_parts::Plan;
pub use tables::{is_end, out_at, touches};
pub use token_lines::{are_before, drop_lines, is_before, is_clear, lead, leave};
