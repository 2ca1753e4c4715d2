// The first fault that a walk has met.
ghost use Rattle.std.specs.Prelude.{◌≡◌};
ghost use Rattle.lexis.specs.Refusal.{refusal_number};
ghost use Rattle.std.proofs.Math.Option.{some};
ghost use Rattle.lists.specs.Fault.{before, earlier, fault, first};
ghost use Rattle.lists.specs.Best.{clean, fault_of, meant};
ghost use Rattle.lists.specs.Walks.{when};

use lexis::refusal::Refusal;

// A fault: its place, its code, and the detail. A code and no `Refusal`: `fault_if` and `or_if` take any code.
#[derive(Clone, Copy)]
pub struct Fault {
    pub at: u32,
    pub code: u32,
    pub detail: u32,
}

impl Fault {
    // Whether a fault is not after another.
    fn before(self, other: Fault) -> bool
        ensures { result ≡ before (fault_of self) (fault_of other) }
    {
        if self.at != other.at {
            return self.at < other.at;
        }
        if self.code != other.code {
            return self.code < other.code;
        }
        self.detail <= other.detail
    }
}

// The first of the faults met so far.
#[derive(Clone, Copy)]
pub struct Best {
    pub fault: Option<Fault>,
}

impl Best {
    // No fault.
    pub fn none() -> Best
        ensures { result ≡ clean }
    {
        Best { fault: None }
    }

    // One fault of this code, without a detail.
    pub fn coded(code: u32, at: u32) -> Best
        ensures { meant result ≡ some (fault code at) }
    {
        Best {
            fault: Some(Fault {
                at,
                code,
                detail: 0,
            }),
        }
    }

    // One refusal, without a detail.
    pub fn one(refusal: Refusal, at: u32) -> Best
        ensures { meant result ≡ some (fault (refusal_number refusal) at) }
    {
        Best::coded(refusal.number(), at)
    }

    // The fault of this code at this place, if the test holds.
    pub fn fault_if(test: bool, code: u32, at: u32) -> Best
        ensures { meant result ≡ first (when test (fault code at)) }
    {
        if test {
            Best::coded(code, at)
        } else {
            Best::none()
        }
    }

    // The refusal at this place, if the test holds.
    pub fn refusal_if(test: bool, refusal: Refusal, at: u32) -> Best
        ensures { meant result ≡ first (when test (fault (refusal_number refusal) at)) }
    {
        Best::fault_if(test, refusal.number(), at)
    }

    // The earlier of two. Inlined: each rule asks it.
    #[inline(always)]
    pub fn earlier(self, other: Best) -> Best
        ensures { meant result ≡ earlier (meant self) (meant other) }
    {
        match (self.fault, other.fault) {
            (None, _) => other,
            (_, None) => self,
            (Some(x), Some(y)) => { if x.before(y) { self } else { other } }
        }
    }

    // The earlier of it and the fault of this code at this place, if the test holds.
    pub fn or_if(self, test: bool, code: u32, at: u32) -> Best
        ensures { meant result ≡ earlier (meant self) (first (when test (fault code at))) }
    {
        self.earlier(Best::fault_if(test, code, at))
    }

    // The earlier of it and the refusal at this place, if the test holds.
    pub(crate) fn or_refusal_if(self, test: bool, refusal: Refusal, at: u32) -> Best
        ensures { meant result ≡ earlier (meant self) (first (when test (fault (refusal_number refusal) at))) }
    {
        self.or_if(test, refusal.number(), at)
    }
}
