//! Each stream begins with one thing alone.

ghost use Rattle.aea_messages.specs.Readings.{MessagesHaveOneReading, MessagesAreNotBad, MessagesAreNotCut, BadAreNotCut, BadAtOnePlace, StreamsHaveOneReading, EachStreamBegins, EachStreamIsRead};

/// A stream begins with one message at most.
pub fn messages_have_one_reading()
    ensures { MessagesHaveOneReading }
{}

/// One that begins with a message is not bad.
pub fn messages_are_not_bad()
    ensures { MessagesAreNotBad }
{}

/// One that is a message, and more, is not cut.
pub fn messages_are_not_cut()
    ensures { MessagesAreNotCut }
{}

/// One that is bad is not cut.
pub fn bad_are_not_cut()
    ensures { BadAreNotCut }
{}

/// It is bad at one place.
pub fn bad_at_one_place()
    ensures { BadAtOnePlace }
{}

/// A stream has one list of messages, and one tail that begins none.
pub fn streams_have_one_reading()
    ensures { StreamsHaveOneReading }
{}

/// Each stream begins with a message, or begins none: it is empty, is cut inside one, or is bad.
pub fn each_stream_begins()
    ensures { EachStreamBegins }
{}

/// Each stream is messages, and behind them a tail that begins none.
pub fn each_stream_is_read()
    ensures { EachStreamIsRead }
{}
