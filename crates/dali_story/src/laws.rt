//! What is proved of the stories of runs. Programs don't call this.

ghost use Rattle.dali_story.specs.Places.{PlacesAreThoseOfTraces};

/// THE PLACE OF A FRAME. In the story of each run of a site the place of a frame in its transaction is how many frames
/// the owner's trace has, if its sender owns the bus. Else the frame begins a transaction: it has place 0, and the
/// transaction the next number.
pub fn places_are_those_of_traces()
    ensures { PlacesAreThoseOfTraces }
{}
