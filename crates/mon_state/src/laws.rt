//! A law over the text of a state. It is the contract of a function that does nothing.
ghost use Rattle.mon_state.specs.StateLaws.{AResumedWorldIsWrittenTheSame, ATextIsOfOneWorld};

/// The text of a state has all that a monitor resumes from, and nothing else (profile). It has neither the rejections
/// and notices that were printed, nor the point from which entries are counted. Two worlds with the same text resume as
/// the same world.
pub fn a_state_tells_what_goes_on()
    ensures same { AResumedWorldIsWrittenTheSame }
    ensures one { ATextIsOfOneWorld }
{}
