// Masks of parameters: bit k is parameter k.
ghost use Rattle.std.specs.Prelude.{◌≡◌, Bool, List, [], ◌∷◌, ◌++◌, ◌<◌, length, get_or, set};
ghost use Rattle.lists.specs.Masks.{mask_of};

// Whether parameter k is in the mask.
pub fn holds(mask: u32, k: u32) -> bool
    requires { k < 32 }
    ensures { (bs : List Bool) → mask ≡ mask_of bs → result ≡ get_or bs k Bool.false }
{
    (mask >> k) & 1 == 1
}

// The mask with parameter k in it too.
pub fn with(mask: u32, k: u32) -> u32
    requires { k < 32 }
    ensures { (bs : List Bool) → mask ≡ mask_of bs → k < length bs → result ≡ mask_of (set bs k Bool.true) }
{
    mask | (1 << k)
}

// The mask of k parameters with one more, which is in it or not.
pub fn extended(mask: u32, k: u32, is_in: bool) -> u32
    requires { k < 32 }
    ensures { (bs : List Bool) → mask ≡ mask_of bs → k ≡ length bs → result ≡ mask_of (bs ++ (is_in ∷ [])) }
{
    if is_in {
        return with(mask, k);
    }
    mask
}
