// The records of calls and wires as the walk over the calls keeps them: those of calls in front, those of wires behind. They are words of fixed memory, as
// the lent tables hold them, into which they are copied; words of 16 bits, so that they take half of the room.
ghost use Rattle.std.specs.Prelude.{◌≡◌, List, [], ◌∷◌, ℕ, ◌+◌, ◌<◌, ◌≤◌, length};
ghost use Rattle.std.proofs.lemmas.List.Edits.{sets};
ghost use Rattle.documents.specs.Records.{records_words, call_stored, wire_stored, Stored};

use lexis::limits::Limits;

#[derive(Clone, Copy)]
pub struct Records {}

impl Records {
    // The words of a call's record: operation, place of its name, identifiers assigned, identifiers used.
    pub const CALL: usize = 4;

    // The words of a wire: place of the use, call that assigns the identifier.
    pub const WIRE: usize = 2;

    // The first wire.
    pub const WIRES: usize = Limits::CALL_WORDS;

    // The words of all.
    pub const WORDS: usize = Limits::CALL_WORDS + Limits::WIRE_WORDS;
}

// Stores the record of call k, if it is not beyond the size.
pub fn record(records: &mut [u16], k: usize, op: usize, place: u32, assigned: usize, used: usize)
    requires records_words_in_bounds { records_words ≤ length records.old }
    requires op_bound { (op < 65536) × (place < 65536) × (assigned < 65536) × (used < 65536) }
    ensures { records.new ≡ call_stored records.old k (op ∷ place ∷ assigned ∷ used ∷ []) }
{
    if Limits::CALLS <= k {
        return;
    }
    records[k * Records::CALL] = op as u16;
    records[k * Records::CALL + 1] = place as u16;
    records[k * Records::CALL + 2] = assigned as u16;
    records[k * Records::CALL + 3] = used as u16;
}

// Stores the wire of use u, if it is not beyond the size.
pub fn wire(records: &mut [u16], u: usize, place: u32, call: usize)
    requires records_words_in_bounds { records_words ≤ length records.old }
    requires place_bound { (place < 65536) × (call < 65536) }
    ensures { records.new ≡ wire_stored records.old u (place ∷ call ∷ []) }
{
    if Limits::USES <= u {
        return;
    }
    records[Records::WIRES + u * Records::WIRE] = place as u16;
    records[Records::WIRES + u * Records::WIRE + 1] = call as u16;
}

// Copies `count` words that stand from word `from` on into a table.
pub fn copy(records: &[u16], from: usize, count: usize, table: &mut [u32])
    requires { (from + count ≤ length records.now) × (count ≤ length table.old) }
    ensures table_len_unchanged { length table.new ≡ length table.old }
    ensures by_index { (xs : List ℕ) → count ≡ length xs → Stored records.now from xs → table.new ≡ sets table.old 0 xs }
{
    for i in 0..count {
        table[i] = records[from + i] as u32;
    }
}
