//! The texts of pictures in SVG: what each begins with, texts of others with escapes, and parts one after another.
#![tactic(auto)]

mod fault;
mod style;
mod text;

pub use fault::ChartFault;
pub use text::{Each, Escaped, Legend, Opening, Part, Place, Rectangle, SourceLine, put_escaped};
