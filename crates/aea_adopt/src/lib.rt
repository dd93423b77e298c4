//! Copies of the ledger are adopted: the ledger becomes the one that they keep, and each copy becomes whole.
//!
//! Promises to the commands and to a disk that keeps copies up, of `adopt`: each answer has its cause in the files and says what
//! it leaves; where nothing is to be written nothing is; and at each moment a good copy has what is kept. Read
//! `specs/Adopting.antt` (`IsAdopted`, `MayBeAdopted`) first. It rests on `aea_copies`, on `aea_copy_reader` for the judgement
//! of both copies, and on `aea_copy_writer` for what is written.
#![tactic(auto)]

mod adopting;
mod answers;
mod choice;
mod mend;
mod renew;

pub use adopting::adopt;
pub use answers::{AdoptFault, Adopted};
