//! The one owner of memory below the levels of an index: builders and tables for the constructions to come, level by level.
//!
//! A store takes memory in `stock` alone, and frees some in `give_up` alone. What it lends stays counted until it comes back, so of each
//! level it holds as much, lent or not, through any number of moves (`Keeps`). Whoever borrowed it doesn't matter: clauses tell what more
//! is lent, and borrowers add up.
//!
//! ```text
//!                  the store, at one level                              a level of a stack
//!
//!                  kept            lent
//!    stock       .----------.    .-----------.        lend        .--------------------.
//!  ----------->  | builder  |    | (builder) |  --------------->  | under construction |
//!    give_up     | builder  |    | (tables)  |  <---------------  '--------------------'
//!  <-----------  | tables   |    |           |  take_back_tables     | published
//!                '----------'    | (builder) |                       v
//!                                | (builder) |  <---------------  [  A  ] [  B  ] [  C  ]
//!                                | (builder) |  take_back: A, once retired
//!                                '-----------'
//! ```
//!
//! A part is made in a builder, and its memory is one again when it is of no use: so a complete part is a builder that is lent. Each that is
//! lent has its place in the store, so that taking it back wants no memory.
//!
//! Contracts see shelves, one a level from 0 on, and count by level (`kept_at`, `lent_at`, `held_at`), so no clause needs them in order.
//! No bound on what is kept stands in a type: what comes back was lent, and `stock` takes no more than is wanted, so no more is ever held
//! than was once in use or wanted.
#![tactic(auto)]

mod kept;
mod shelf;
mod shelves;
mod store;

pub use store::Store;
