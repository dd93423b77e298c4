//! What follows from the definitions, for those who build on them.

ghost use Rattle.aea_fetch.specs.Puts.{RecordedObjectsHaveTheirDigests, PutsGoOn};

use aea_records::objects_are_of_records;

/// The bytes of an object in a data list that is recorded have the length and the digest that are kept of it.
pub fn recorded_objects_have_their_digests()
    ensures { RecordedObjectsHaveTheirDigests }
{
    objects_are_of_records();
}

/// Records of objects that were put, with the next record after them, are those of these objects and of that one; and the
/// data list that they are is the one before with the object's blocks after it.
pub fn puts_go_on()
    ensures { PutsGoOn }
{}
