use dali_script::{Input, Order};

/// Who watches a machine at its work, as to say how far it is.
pub trait Watch {
    /// The machine has ordered this, which is done next.
    fn ordered(&mut self, order: &Order);

    /// What was ordered is done, and the machine is told this of it.
    fn told(&mut self, told: Input);
}

/// No watch.
#[derive(Drop)]
pub struct Unwatched;

impl Watch for Unwatched {
    fn ordered(&mut self, _order: &Order) {}

    fn told(&mut self, _told: Input) {}
}
