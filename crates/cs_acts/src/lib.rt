//! Activations: what every representation of the machine's state offers.
//!
//! A world keeps the kept parts of a state, its `view`. Where a context stands in the heap and where it is a frame is
//! the world's own matter. Whoever goes through the calls of `World` alone can't see the difference.
#![tactic(auto)]

mod act;
pub mod answer;
pub mod arithmetic;
mod laws;
pub mod method;
mod prim;
pub mod read;
mod run;
mod shape;
mod store;
mod words;
mod world;

pub use act::{Act, Full};
pub use cs_classes::{Loaded, Roots};
pub use prim::PrimEnd;
pub use run::{Phase, Place, RunEnd};
pub use shape::{Shape, shape_of};
pub use store::{StoreTarget, store_target};
pub use world::World;
