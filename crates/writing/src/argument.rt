// The arguments of a call, each with its parameter's name, in declared order. The call stands in the document's table, the parameters
// in its callee.
ghost use Rattle.std.specs.Prelude.{◌≡◌, ◌+◌, ◌*◌, ◌<◌, ◌≤◌, min, length};
ghost use Rattle.lexis.specs.Sizes.{max_tokens, max_parameters};
ghost use Rattle.writing.specs.Writing.{slot_set, Aims, BindsAll, Ranged, PutsBound, PutsArgument, PutsSlots, PutsArguments};

use crate::value::put_value;
use crate::writer::Writer;
use documents::arguments::value_end;
use documents::callee::Callee;
use index::token::bytes_at;
use lexis::limits::Limits;
use lexis::symbol::Symbol;
use lists::types::pairs_in;
use syntax::tokens::Tokens;

// A walk over the arguments of a call: the place of the next, how many stand before it, and the parameter after the one bound last.
#[derive(Clone, Copy)]
pub struct Walk {
    pub at: usize,
    pub index: usize,
    pub guess: usize,
}

// What an argument is for: the number of a parameter, or one beyond the last; and the place of its value.
#[derive(Clone, Copy)]
pub struct Aim {
    pub number: usize,
    pub value: usize,
}

// What the argument at the walk's place is for.
fn aim_of(doc: &Tokens<'_>, callee: &Callee<'_>, w: Walk) -> Aim
    requires at_le_dn { w.at ≤ doc.now.count }
    ensures range { (w.at ≤ result.value) × (result.value ≤ doc.now.count + 1) × (result.number ≤ w.index + callee.now.operation.count) }
    ensures meaning { Aims doc.now callee.now w result }
{
    if doc.is_label(w.at) {
        let name = bytes_at(doc, w.at);
        let p = callee.number_of(name, w.guess);
        return Aim {
            number: p.unwrap_or(callee.operation.count),
            value: w.at + 2,
        };
    }
    Aim {
        number: w.index,
        value: w.at,
    }
}

// Stores the place v for parameter p, if it is one of `count` and has none, which is 0: no value stands at place 0, and two bytes hold a place.
fn bind(slots: &mut [u16], count: usize, p: usize, v: usize)
    requires { (count ≤ length slots.old) × (v < 65536) }
    ensures { slots.new ≡ slot_set slots.old count p v }
{
    if p < count && slots[p] == 0 {
        slots[p] = v as u16;
    }
}

// Stores for each parameter the place of the value that the arguments from place `at` on bind to it, and gives the place of the bracket that closes them.
fn bind_all(slots: &mut [u16], doc: &Tokens<'_>, at: usize, callee: &Callee<'_>) -> usize
    requires at_nonzero { (0 < at) × (at ≤ doc.now.count) × (doc.now.count ≤ max_tokens) × (max_parameters ≤ length slots.old) }
    ensures range { (min (at + 1) doc.now.count ≤ result) × (result ≤ doc.now.count) }
    ensures meaning { BindsAll doc.now at callee.now slots.old slots.new result }
{
    let mut w = Walk {
        at: at,
        index: 0,
        guess: 0,
    };
    // No `for`: the tokens say where the arguments end.
    loop {
        let a = aim_of(doc, callee, w);
        bind(&mut *slots, callee.operation.count, a.number, a.value);
        let end = value_end(doc, a.value);
        if doc.symbol_at(end) != Symbol::COMMA {
            return end;
        }
        w = Walk {
            at: end + 1,
            index: w.index + 1,
            guess: a.number + 1,
        };
    }
}

// Puts the value of parameter i of the callee: the one at place v of the document, or the default where v is 0.
fn put_bound<'t>(out: &mut Writer<'_>, doc: &Tokens<'t>, v: usize, callee: &Callee<'t>, i: usize)
    requires ranged { Ranged doc.now.text.now doc.now.table.now doc.now.count }
    requires ranged_2 { Ranged callee.now.list.text.now callee.now.list.table.now callee.now.list.count }
    requires i_lt_count { i < callee.now.operation.count }
    ensures { PutsBound doc.now v callee.now i out.old out.new }
{
    let t = callee.name_of(i) + 2;
    let k = pairs_in(callee.code_of(i));
    if v != 0 {
        return put_value(out, doc, v, &callee.list, t, k);
    }
    if let Some(d) = callee.default_of(i) {
        put_value(out, &callee.list, d, &callee.list, t, k);
    }
}

// Puts the argument of parameter i of the callee, which is bound to the value at place v, or to its default where v is 0.
fn put_argument(out: &mut Writer<'_>, doc: &Tokens<'_>, v: usize, callee: &Callee<'_>, i: usize)
    requires ranged { Ranged doc.now.text.now doc.now.table.now doc.now.count }
    requires ranged_2 { Ranged callee.now.list.text.now callee.now.list.table.now callee.now.list.count }
    requires i_lt_count { i < callee.now.operation.count }
    ensures { PutsArgument doc.now v callee.now i out.old out.new }
{
    out.put_token(&callee.list, callee.name_of(i));
    out.put_mark(b'=');
    put_bound(out, doc, v, callee, i);
}

// Puts the arguments of all parameters of an operation, whose values stand at these places.
fn put_slots(out: &mut Writer<'_>, slots: &[u16], doc: &Tokens<'_>, callee: &Callee<'_>)
    requires ranged { Ranged doc.now.text.now doc.now.table.now doc.now.count }
    requires ranged_2 { Ranged callee.now.list.text.now callee.now.list.table.now callee.now.list.count }
    requires max_parameters_in_bounds { max_parameters ≤ length slots.now }
    ensures { PutsSlots doc.now slots.now callee.now out.old out.new }
{
    if callee.operation.count == 0 {
        return;
    }
    // No `for`: the comma stands between two arguments, and the loop ends behind the last one, before it.
    let mut i = 0;
    loop {
        put_argument(out, doc, slots[i] as usize, callee, i);
        i += 1;
        if callee.operation.count <= i {
            return;
        }
        out.put_mark(b',');
    }
}

// Puts the arguments of a call, which stand from place `at` on, for all parameters of its operation, and gives the place of the bracket that
// closes them.
pub fn put_arguments(
    out: &mut Writer<'_>,
    doc: &Tokens<'_>,
    at: usize,
    callee: &Callee<'_>,
) -> usize
    requires ranged { Ranged doc.now.text.now doc.now.table.now doc.now.count }
    requires ranged_2 { Ranged callee.now.list.text.now callee.now.list.table.now callee.now.list.count }
    requires at_nonzero { (0 < at) × (at ≤ doc.now.count) × (doc.now.count ≤ max_tokens) }
    ensures range { (min (at + 1) doc.now.count ≤ result) × (result ≤ doc.now.count) }
    ensures meaning { PutsArguments doc.now at callee.now out.old out.new result }
{
    // An array on the stack: no heap, fixed memory.
    let mut slots = [0u16; Limits::PARAMETERS];
    let close = bind_all(&mut slots, doc, at, callee);
    put_slots(out, &slots, doc, callee);
    close
}
