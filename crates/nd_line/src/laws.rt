//! What follows from the definition of a line alone.

ghost use Rattle.nd_line.specs.OneReading.{OneReading};

/// A line has one reading: its refusals exclude one another and a node, and it has one node. So
/// readers that keep to the definition answer alike, unless one of them wants memory.
pub fn one_reading()
    ensures { OneReading }
{}
