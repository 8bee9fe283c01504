//! What is handed on, of all that a connection brings.

ghost use Rattle.hk_doors.specs.Handing.{AllLaw, JoinsLaw, OneLaw};

/// In whatever pieces the bytes of a connection come, they alone say which of them its session gets: what one look hands on and then
/// the next is what one look at all of them does, and a door for all hands on these. (`FrameWatch::take` has which one look hands on.)
pub fn handing_law()
    ensures joins { JoinsLaw }
    ensures one { OneLaw }
    ensures all { AllLaw }
{}
