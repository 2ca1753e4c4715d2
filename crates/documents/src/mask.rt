// The first parameter that a mask of those required has and a mask of those bound lacks.
ghost use Rattle.std.specs.Prelude.{◌≡◌, Bool, List, ◌≤◌, length};
ghost use Rattle.lists.specs.Fault.{first};
ghost use Rattle.lists.specs.Best.{meant};
ghost use Rattle.lists.specs.Masks.{mask_of};
ghost use Rattle.documents.specs.Binding.{lacked};
ghost use Rattle.documents.specs.Arguments.{without};

use lexis::refusal::Refusal;
use lists::best::{Best, Fault};

// Code 19 at this place, with the first parameter that is required and not bound.
pub fn first_missing(required: u32, bound: u32, place: u32) -> Best
    ensures { (rs bs : List Bool) → required ≡ mask_of rs → bound ≡ mask_of bs → length rs ≤ 32 → length bs ≤ 32
        → meant result ≡ first (lacked place 0 (without rs bs)) }
{
    let missing = required & !bound;
    if missing == 0 {
        return Best::none();
    }
    Best {
        fault: Some(Fault {
            at: place,
            code: Refusal::Unbound.number(),
            detail: u32::trailing_zeros(missing),
        }),
    }
}
