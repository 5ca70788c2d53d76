//! The codes of refusals, one of each type. The contract of each `number` says all of them.

use super::values::same;
use dali_arbiter::OfferError;
use dali_controller::StepError;
use dali_enrol::{DirectoryError, TableError};
use dali_reserve::KeepError;
use dali_script::AddError;
use dali_world::{PlanError, Refusal};

#[test]
fn refusals_have_numbers(rt: HostRuntime) {
    let numbers = [
        dali_ring::NewError::BadCapacity.number(),
        dali_arbiter::NewError::BadCapacity.number(),
        OfferError::NotOwner.number(),
        AddError::NotReserved.number(),
        TableError::NoMemory.number(),
        DirectoryError::NoMemory.number(),
        KeepError::BadStore.number(),
        StepError::NotDue.number(),
        PlanError::DrawTwice.number(),
        Refusal::LogFull.number(),
    ];
    same(&rt, &numbers, &[2, 2, 2, 6, 3, 1, 5, 1, 7, 8]);
}
