//! Sources and sinks of bytes that count their faults: the traits, those in memory, and those over std's
//! readers and writers.
//!
//! Promises to the layers above what each call takes, appends and flushes, and that a fault comes only where the count
//! rose (`Source`, `Sink`); that `put_all` appends all bytes, or a first part of them on a fault; that `read_whole`
//! reads to the end, or to one byte past a limit; and that what is printed through a page is on the sink and the
//! page together (`print`, `finish`).
//!
//! Read first in `specs/`: `Streams` (`SourceState`, `SinkState`), then `Written` (`PutsAll`) and `Pages` (`Prints`).
//! It rests on `aea_faults`, and on `itoa` for numbers.
#![tactic(auto)]

mod fails;
mod full;
mod memory;
mod page;
mod put;
mod space;
mod standard;
mod sure;
mod traits;
mod whole;

pub use full::{FillFault, fill, read_full};
pub use memory::{MemSink, MemSource};
pub use page::{Page, finish, print, print_number, put_text, send};
pub use put::put_all;
pub use standard::{StdSink, StdSource};
pub use sure::{SureSink, SureSource};
pub use traits::{ReadFault, Sink, Source, WriteFault};
pub use whole::{WholeFault, read_whole};
