//! What follows of the definitions.

ghost use Rattle.aea_archive.specs.Laws.{NoneRecordNone, NextRecordsMore, ObjectsRecordMore, PutsRecord, PartsRecordMore, LastsAreValues, SurvivorsStayHonest, SurvivorsAreRevealed};

use aea_envelope::{cells_have_lengths, cells_have_parts};
use aea_shelf::plain_damage_stays;
use aea_weave::longer_data_keep_values;

/// An archive without records, as it is made, records no data.
pub fn none_record_none()
    ensures { NoneRecordNone }
{}

/// Where records record some data, the records with the next one record these and its object's.
pub fn next_records_more()
    ensures { NextRecordsMore }
{
    longer_data_keep_values();
}

/// The same of several objects that are put one after the other.
pub fn objects_record_more()
    ensures { ObjectsRecordMore }
{
    longer_data_keep_values();
}

/// An archive that was made, and into which objects were put, records their blocks.
pub fn puts_record()
    ensures { PutsRecord }
{
    longer_data_keep_values();
}

/// Where records record some data, the records with that of an object in parts record these and the blocks woven after
/// them, also blocks that belong to no object.
pub fn parts_record_more()
    ensures { PartsRecordMore }
{
    longer_data_keep_values();
}

/// Last parities that are at their homes have the payloads of the lattice of each data list for which they are honest.
pub fn lasts_are_values()
    ensures { LastsAreValues }
{
    cells_have_lengths();
    cells_have_parts();
}

/// Survivors that are honest, in plain damage, are so after blocks were added.
pub fn survivors_stay_honest()
    ensures { SurvivorsStayHonest }
{
    cells_have_lengths();
    cells_have_parts();
    plain_damage_stays();
    longer_data_keep_values();
}

/// Whatever is in the files, some test says which blocks are intact.
pub fn survivors_are_revealed()
    ensures { SurvivorsAreRevealed }
{
    cells_have_lengths();
    cells_have_parts();
}
