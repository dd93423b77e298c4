//! What follows of the grammar.

ghost use Rattle.aea_records.specs.Laws.{NextIsSpelled, SpelledIsNext, HasOneReading, LedgersAreNotBad, IsBadAtOnePlace, LedgersAreArchives, EachIsOneOrBad, ObjectsAreCounted, NamesAreFound, NewNamesAreFree, ObjectsAreOfRecords, ReadersKnow, RecordsAreFew, RecordsAreShort, FencesMayFollow, DigestsAreCounted, TailsAreJudged, TailsAreSpelled};

/// The fields of a record that may follow are those of its body.
pub fn next_is_spelled()
    ensures { NextIsSpelled }
{}

/// What the fields spell is the body of a record that may follow.
pub fn spelled_is_next()
    ensures { SpelledIsNext }
{}

/// No file is a ledger of two shapes, of two lists of records, or with two ends.
pub fn ledgers_have_one_reading()
    ensures { HasOneReading }
{}

/// A ledger is bad at no place.
pub fn ledgers_are_not_bad()
    ensures { LedgersAreNotBad }
{}

/// No file is bad at two places.
pub fn ledgers_are_bad_at_one_place()
    ensures { IsBadAtOnePlace }
{}

/// What is no archive is neither a ledger nor a bad one.
pub fn ledgers_are_archives()
    ensures { LedgersAreArchives }
{}

/// A file whose header is open is a ledger, or bad at some place.
pub fn each_is_a_ledger_or_bad()
    ensures { EachIsOneOrBad }
{}

/// There are as many objects as records of one: their names differ.
pub fn objects_are_counted()
    ensures { ObjectsAreCounted }
{}

/// A name is found exactly where a record has it.
pub fn names_are_found()
    ensures { NamesAreFound }
{}

/// A name is new exactly where nothing is found under it.
pub fn new_names_are_free()
    ensures { NewNamesAreFree }
{}

/// What is found under a name is what one of the records places there.
pub fn objects_are_of_records()
    ensures { ObjectsAreOfRecords }
{}

/// What a reader knows by the objects is what is known of the records.
pub fn readers_know()
    ensures { ReadersKnow }
{}

/// Records have not too many objects, nodes and fences, and their spelling is not too long.
pub fn records_are_few()
    ensures { RecordsAreFew }
{}

/// No record is long, and there are not many.
pub fn records_are_short()
    ensures { RecordsAreShort }
{}

/// A fence may come after the last node where the last fence is before it and there are not too many.
pub fn fences_may_follow()
    ensures { FencesMayFollow }
{}

/// There is a digest for each block of the nodes of all records.
pub fn digests_are_counted()
    ensures { DigestsAreCounted }
{}

/// After a head that is valid, what is bad is what is bad in the fields after it.
pub fn tails_are_judged()
    ensures { TailsAreJudged }
{}

/// A head that is valid, and the fields after it, are the entry of a record that may follow.
pub fn tails_are_spelled()
    ensures { TailsAreSpelled }
{}
