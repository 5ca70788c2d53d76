//! What a transaction is for, as plain bytes.

ghost use Rattle.std.specs.Prelude.{◌≡◌, Some};
ghost use Rattle.dali_c.specs.Purposes.{purpose_of};

use dali_controller::Purpose;
use dali_frame::Short;
use dali_script::End;

/// The purpose with this code; `detail` is the short address that is asked, or the end of a close.
pub(crate) fn purpose_of(code: u8, detail: u8) -> Option<Purpose>
    ensures { result ≡ purpose_of code detail }
{
    match code {
        0 => Some(Purpose::Opening),
        1 => Some(Purpose::Probing),
        2 => Some(Purpose::Visiting),
        3 => Some(Purpose::Resolving(Short::of(detail)?)),
        4 => Some(Purpose::Closing(End::of_code(detail)?)),
        5 => Some(Purpose::Asking(Short::of(detail)?)),
        6 => Some(Purpose::Calling),
        7 => Some(Purpose::Hunting),
        8 => Some(Purpose::Drawing),
        9 => Some(Purpose::PassingOver),
        _ => None,
    }
}

/// The code of a purpose, and its detail.
pub(crate) fn purpose_code(purpose: Purpose) -> (u8, u8)
    ensures { purpose_of result.0 result.1 ≡ Some purpose }
{
    match purpose {
        Purpose::Opening => (0, 0),
        Purpose::Probing => (1, 0),
        Purpose::Visiting => (2, 0),
        Purpose::Resolving(short) => (3, short.number()),
        Purpose::Closing(end) => (4, end.code()),
        Purpose::Asking(short) => (5, short.number()),
        Purpose::Calling => (6, 0),
        Purpose::Hunting => (7, 0),
        Purpose::Drawing => (8, 0),
        Purpose::PassingOver => (9, 0),
    }
}
