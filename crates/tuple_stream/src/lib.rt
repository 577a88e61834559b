//! Lists of rows on pages of a store.
//!
//! Model: a list of rows, each as its bytes, in the order in which they came. They stand on pages of one client,
//! none in two pages. At most one of these pages is pinned, once, and it stays so between rows.
//!
//! A store may not tell what was left in a page. What a stream's pages show is known until the first page is pinned
//! again, and after that only over a store that tells it; how many rows there are is known always.
#![tactic(auto)]

mod adding;
mod ending;
mod err;
mod laws;
mod opening;
mod place;
mod reading;
mod room;
mod rows;
mod spending;
mod stream;

pub use err::StreamErr;
pub use laws::{law_few_pages, law_first_place, law_streams_beside};
pub use place::At;
pub use stream::Stream;
