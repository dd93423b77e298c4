//! Names of objects, and the catalogue of an archive: which object each name stands for.
//!
//! Promises to the ledger above that bytes are taken for a name exactly where they are one (`check_name`), that
//! `Catalog::find` gives what was put under a name and nothing else, and that `Catalog::entry` is in the order of the
//! names' bytes.
//!
//! A name is 1 to 255 bytes of UTF-8 text without control characters (`specs/Names.antt`). An object is described by where its
//! nodes lie, how long it is and what its SHA-256 (FIPS 180-4) is. The catalogue lists its objects in the order of the
//! names' bytes; entries are never removed: an object under a name stays (`specs/Catalogs.antt`).
//!
//! Read in `specs/`: `Catalogs` (`CatalogValue`). It rests on no other crate.
#![tactic(auto)]

mod catalog;
mod name_text;
mod names;
mod objects;
mod order;

pub use catalog::Catalog;
pub use name_text::NameText;
pub use names::check_name;
pub use objects::{Extent, ObjectRef};
