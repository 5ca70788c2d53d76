/// How a machine began.
#[derive(Clone, Copy, Debug, PartialEq, Eq)]
pub enum Way {
    /// It has not begun, or it began with `Start`: gear without short address draw new random addresses, and are then
    /// searched.
    Fresh,
    /// It began with `Survey`: each short address is asked for its random address, and then gear without short address
    /// are searched under the random addresses that they have. New ones are drawn if that leads to nothing.
    Surveying,
}
